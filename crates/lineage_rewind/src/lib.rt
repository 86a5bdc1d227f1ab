//! The index over the first blocks of a lineage, made of entries and of lists of users: no row is
//! read, and no body. The tree hash of the leaves at an older block, for which nothing is made.
#![tactic(auto)]

mod cutting;
mod first_blocks;
mod keys_at;
mod leaves;
mod leaves_at;
mod lists;
mod settling;
mod users;
mod uses_at;

pub use first_blocks::front;
pub use leaves_at::tree_hash_at;
pub use lineage_index::{
    Counter, EntryId, EntryList, Facts, Found, Header, LineageIndex, Steps, Store, Tree, check_row,
    root_digest,
};
