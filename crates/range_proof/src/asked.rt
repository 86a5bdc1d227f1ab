//! What a range proof is made for.

use lc_base::{Digest, Key};

/// A key, the first block and the last one, and the block of the root under which its versions
/// between them are to be proved, with that block's digest.
#[derive(Clone, Copy)]
pub(crate) struct Asked {
    pub key: Key,
    pub from: u32,
    pub to: u32,
    pub root_at: u32,
    pub block_digest: Digest,
}
