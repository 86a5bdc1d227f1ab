//! The state of a leaf: what changes when its key gets a version or a use. The key and the next key
//! are no part of it.

use lc_base::Digest;

/// What a leaf says of the versions of its key: the block and the digest of the newest one, and the
/// number and the digest of its open list. `index` is that of the leaf.
#[derive(Clone, Copy)]
pub struct LeafState {
    pub index: u32,
    pub newest_block: u32,
    pub newest: Digest,
    pub open_count: u64,
    pub open_digest: Digest,
}
