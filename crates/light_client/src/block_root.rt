//! What a light file has of a block.

use lc_base::Digest;

/// The digest of a block, and the root at it.
#[derive(Clone, Copy)]
pub struct BlockRoot {
    /// The digest of the block.
    pub digest: Digest,
    /// The root of the ledger at the block.
    pub root: Digest,
}
