//! The tree hash of RFC 6962, section 2.1, and what equal hashes say of the texts below them.
#![tactic(auto)]

mod climbing;
mod growth;
mod hash;
mod laws;
mod levels;
mod limits;
mod pairing;
mod plain;
mod reading;
mod renewing;
mod setting_all;

pub use climbing::{audit_length, root_from_leaf};
pub use digest_kit::TagHasher;
pub use hash::{empty_hash, leaf_hash, node_hash};
pub use laws::{
    lists_are_sound, paths_are_complete, paths_are_sound, paths_follow_the_rule,
    texts_agree_or_clash, trees_follow_the_rule, walks_are_sound,
};
pub use levels::Levels;
pub use limits::{LEAF, MAX_HEIGHT, MAX_LEAVES, NODE};
pub use plain::{TreeLeaf, half_of, tree_hash};
pub use setting_all::HashAt;
