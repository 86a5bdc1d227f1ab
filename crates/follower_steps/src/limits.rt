//! How far ahead of its chain a follower keeps blocks.

/// The greatest difference between the number of a block that waits and the number of blocks that
/// are held. A block with a greater number is dropped.
pub const MAX_AHEAD: u32 = 64;
