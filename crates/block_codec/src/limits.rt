//! The greatest sizes of blocks, block files and chains.

/// The greatest number of bytes of a block, and so of a frame.
pub const MAX_BLOCK_BYTES: usize = 1_048_576;

/// The greatest number of transactions of a block.
pub const MAX_TXS: u16 = 4096;

/// The greatest number of bytes of a contract's source.
pub const MAX_SOURCE_BYTES: usize = 16_384;

/// The greatest number of arguments of a call.
pub const MAX_ARGS: usize = 8;

/// The greatest budget of a call, in steps.
pub const MAX_CALL_BUDGET: u32 = 1_000_000;

/// The greatest sum of the budgets of a block's calls, in steps.
pub const MAX_BLOCK_BUDGET: u64 = 10_000_000;

/// The greatest number of frames of an input.
pub const MAX_FRAMES: u32 = 2_097_152;

/// The greatest number of bytes of a text in a block of the first version. In one of the second it
/// is `lc_base::MAX_TEXT_BYTES`.
pub const MAX_FIRST_TEXT_BYTES: usize = 1024;

/// The greatest number of blocks of a chain that is not marked.
pub const MAX_BLOCKS: u32 = 1_048_576;

/// The greatest number of blocks of a chain that is marked, 2^32 - 1, so that their number fits in
/// 32 bits.
pub const MAX_MARKED_BLOCKS: u32 = 4_294_967_295;

/// The greatest number of rows with which a chain takes one more block. Its history then stays
/// within `lc_base::MAX_ROWS`, whatever the block writes.
pub const MAX_ROWS_BEFORE_BLOCK: u64 = 4_293_918_718;
