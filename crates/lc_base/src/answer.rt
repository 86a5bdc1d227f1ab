//! Questions about the newest version of a key up to a block, and their answers.

use crate::key::Key;
use crate::list::DepList;
use crate::value::Value;

/// What is asked about the version of a key.
#[derive(Clone, Copy)]
pub enum Kind {
    /// Its value.
    Hist,
    /// The versions that it was derived from.
    Back,
    /// The versions that were derived from it.
    Fwd,
}

/// A question about the newest version of a key in the blocks up to `at`.
#[derive(Clone, Copy)]
pub struct Query {
    pub kind: Kind,
    pub key: Key,
    /// The number of the last block that counts.
    pub at: u32,
}

/// The answer to a question.
#[derive(Drop)]
pub enum Answer {
    /// The key has no version in these blocks.
    Nothing,
    /// The version's block, the index of its transaction there, and its value.
    Hist { block: u32, tx: u16, value: Value },
    /// The version's block, and the versions that it was derived from, in the order in which they
    /// were recorded.
    Back { block: u32, deps: DepList },
    /// The version's block, and the versions that were derived from it, in the order of their rows.
    Fwd { block: u32, uses: DepList },
}
