//! The texts that are hashed of versions, of forward lists and of the leaves over all keys. Each
//! kind begins with a byte of its own.
#![tactic(auto)]

mod digests;
mod entry;
mod forward;
mod limits;
mod writing;

pub use digests::{header_digest, leaf_digest, root_digest};
pub use entry::{Body, BodyDep, BodyDepList, Header, Leaf, Link, LinkList};
pub use forward::{no_uses, with_use};
pub use limits::{BODY, FORWARD_LINK, FORWARD_START, HEADER, MAX_LINKS, ROOT};
pub use merkle_tree::{HashAt, Levels, MAX_HEIGHT, empty_hash, node_hash};
pub use writing::{write_body, write_header, write_leaf};
