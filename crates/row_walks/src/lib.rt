//! Walks over plain rows: from a version to all that it was derived from, and from one version of a
//! key to the one before it. Each version is looked up once, in the index over the rows.
#![tactic(auto)]

mod finding;
mod ranging;
mod tracing;
mod wanted;

pub use finding::{Derived, derived_in, insert_found};
pub use plain_rows::PlainRows;
pub use ranging::range;
pub use root_laws::Trace;
pub use tracing::{reversed, trace};
pub use wanted::{Wanted, insert_all};
