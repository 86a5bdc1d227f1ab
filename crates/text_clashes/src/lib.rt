//! The texts that a proof shows, each of which is what one digest of the proof is computed from; and
//! the first clash of two lists of texts: a text of each, which differ and have one digest.
#![tactic(auto)]

mod finding;
mod found;
mod laws;
mod lists;
mod proof;
mod search;
mod table;
mod text;
mod way;

pub use finding::first_clash;
pub use laws::clash_of_a_part;
pub use lists::push_headers;
pub use proof::{proof_texts, push_leaf_proof};
pub use search::ClashSearch;
pub use text::{node_text, root_text, tagged_text, use_text};
