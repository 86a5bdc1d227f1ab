//! Versions of a key are given by their blocks: a key has at most one version in a block.

use lc_base::Seq;

/// A list of block numbers.
pub type BlockList = Seq<u32>;
