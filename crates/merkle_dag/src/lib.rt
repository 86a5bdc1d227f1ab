//! The lineage of a ledger: the rows of its blocks, with the digest and the root of each block. The
//! bodies of the rows are on a scratch device.
#![tactic(auto)]

mod adding;
mod kept;
mod limits;
mod lineage;
mod places;
mod query_error;
mod rewinding;
mod root;
mod uses;

pub use limits::MAX_LINEAGE_BLOCKS;
pub use lineage::Lineage;
pub use lineage_rewind::{Counter, EntryId, Found, Steps};
pub use query_error::QueryError;
