//! What is hashed: a header and a body of each version, and a leaf of each key. They name older
//! versions by the digests of their headers.

use lc_base::{Digest, Key, Seq, Value};

/// A link from a version to an older one of its key.
#[derive(Clone, Copy)]
pub struct Link {
    /// The block of the older version.
    pub block: u32,
    /// The digest of its header.
    pub digest: Digest,
}

/// The links of a version, one for each level from 0.
pub type LinkList = Seq<Link>;

/// A version without its value: its key, block and transaction, and what it names by digests.
#[derive(Drop)]
pub struct Header {
    pub key: Key,
    /// The number of its block.
    pub block: u32,
    /// The index of its transaction in the block, from 0.
    pub tx: u16,
    /// The digest of its body.
    pub body: Digest,
    /// How many versions were derived from the version of the key before this one, up to the end of
    /// this block; 0 for a first version.
    pub closed: u64,
    /// The digest of these, as a forward list.
    pub closed_digest: Digest,
    /// At most `MAX_LINKS`.
    pub links: LinkList,
}

/// A version that another was derived from, with the digest of its header.
#[derive(Clone, Copy)]
pub struct BodyDep {
    pub key: Key,
    /// The number of its block.
    pub block: u32,
    /// The digest of its header.
    pub digest: Digest,
}

/// The dependencies of a body.
pub type BodyDepList = Seq<BodyDep>;

/// The value of a version, and what it was derived from.
#[derive(Drop)]
pub struct Body {
    pub value: Value,
    /// At most `MAX_DEPS`.
    pub deps: BodyDepList,
}

/// What the tree over all keys has of a key, or of the sentinel, which comes before all keys.
#[derive(Clone, Copy)]
pub struct Leaf {
    /// `None` for the sentinel.
    pub key: Option<Key>,
    /// The least greater key that has a leaf; `None` if no key is greater.
    pub next: Option<Key>,
    /// The block of the newest version; 0 for the sentinel.
    pub newest_block: u32,
    /// The digest of its header; zeros for the sentinel.
    pub newest: Digest,
    /// How many versions were derived from the newest one so far; 0 for the sentinel.
    pub open_count: u64,
    /// The digest of these, as a forward list.
    pub open_digest: Digest,
}
