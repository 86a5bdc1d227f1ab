//! Why a chain refuses bytes, with what a sender needs to mend them.

use block_codec::Misplaced;

/// Why a chain refuses bytes as a block.
#[derive(Clone, Copy)]
pub enum Refusal {
    /// They spell no block: they are invalid from this offset on.
    Malformed(usize),
    /// They spell a block that is neither held nor the next one, for this reason.
    Placed(Misplaced),
}
