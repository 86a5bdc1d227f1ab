//! A version with all of its ancestors.

use lc_base::DepList;

/// A version with all of its ancestors.
#[derive(Drop)]
pub struct Trace {
    /// The number of the version's block.
    pub block: u32,
    /// The versions that it was derived from directly or by way of others: at most `MAX_ROWS`,
    /// each once, in order of their blocks, and in one block in byte order of their keys.
    pub ancestors: DepList,
}
