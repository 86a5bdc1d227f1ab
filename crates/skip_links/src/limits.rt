//! The highest level that a link may have.

/// The highest level of a link, which is the greatest height of a version: the numbers of blocks
/// have 32 bits, so at level 32 all blocks are in one interval, and only the first version of a key
/// is there.
pub const MAX_LEVEL: u32 = 31;
