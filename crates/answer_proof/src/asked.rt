//! What a proof is made for.

use lc_base::{Digest, Query};

/// A query, and the block of the root under which it is to be proved, with that block's digest.
#[derive(Clone, Copy)]
pub(crate) struct Asked {
    pub query: Query,
    pub root_at: u32,
    pub block_digest: Digest,
}
