//! The tree over all keys of a history: a leaf for each key, and their tree hash.
#![tactic(auto)]

mod growth;
mod hashing;
mod laws;
mod leaf_list;
mod order;
mod stale;
mod states;
mod threaded;
mod tree;
mod whole;

pub use laws::coverings_are_unique;
pub use leaf_list::LeafList;
pub use states::LeafState;
pub use tree::Tree;
pub use whole::tree_hash;
