//! The size of the pieces in which a light file is made.

/// The number of blocks of each piece but the last, which may have fewer. A piece has at most
/// 65,536 bytes.
pub const BLOCKS_PER_PIECE: u32 = 1024;
