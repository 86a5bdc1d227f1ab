//! What says which version the next block of a chain has.

ghost use Rattle.std.specs.Prelude.{◌≡◌};
ghost use Rattle.chain_replay.specs.Judging.{is_marked_for};

use block_codec::{Block, SECOND_VERSION};

/// What says which version the next block of a chain has.
#[derive(Clone, Copy)]
pub enum Marking {
    /// The log that keeps the chain: the second version where the log is marked, else the first.
    OfLog { marked: bool },
    /// The versions of the blocks, as no log keeps the chain: `last` is the version of its last
    /// block, or `FIRST_VERSION` if it has none. A block of the first version may be followed by one
    /// of either, and one of the second by one of the second.
    OfVersions { last: u8 },
}

impl Marking {
    /// Whether a block is placed as in a marked chain.
    pub fn is_marked_for(&self, block: &Block) -> bool
        ensures { result ≡ is_marked_for self.now block.now }
    {
        match self {
            Marking::OfLog { marked } => *marked,
            Marking::OfVersions { last } => {
                *last == SECOND_VERSION || block.version == SECOND_VERSION
            }
        }
    }
}
