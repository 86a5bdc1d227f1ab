//! A skip list over the entries of a store: the links of a new version, and lookups of older ones.
#![tactic(auto)]

mod climbing;
mod examples;
mod laws;
mod lookup;
mod path;
mod rung;

pub use climbing::links_for;
pub use entry_store::{Counter, EntryId, EntryList, Facts, Steps, Store};
pub use examples::{far_heights, low_heights};
pub use laws::{new_entry_is_towered, towered_entries_stay_towered, versions_are_determined};
pub use lookup::{Found, Turn, find, path_next};
pub use path::path_entries;
