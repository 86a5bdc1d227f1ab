//! Why a draft was not packed, and at which block and item.

ghost use Rattle.std.specs.Prelude.{◌≡◌};
ghost use Rattle.chain_pack.specs.declared.error.PackError.TheVariants.{Memory as NoMemory};

use lc_base::Memory;

/// Why a draft was not packed.
#[derive(Clone, Copy)]
pub enum PackError {
    /// It is not JSON.
    Json,
    /// It is not an array.
    Top,
    /// An item of a block is not a transaction.
    Shape {
        /// The index of the block, from 0.
        block: u32,
        /// The index of the item in the block, from 0.
        tx: u32,
    },
    /// A block is not an array, has more than `MAX_TXS` items, has a budget above
    /// `MAX_BLOCK_BUDGET`, or spells more than `MAX_BLOCK_BYTES` bytes.
    BlockLimit {
        /// The index of the block, from 0.
        block: u32,
    },
    /// Out of memory, or more than `MAX_PACKED_BLOCKS` blocks, which take more than 2 ^ 36 bytes of
    /// memory.
    Memory,
}

impl From<Memory> for PackError {
    ghost from_gives = { λ _ error. error ≡ NoMemory };

    fn from(_memory: Memory) -> PackError {
        PackError::Memory
    }
}
