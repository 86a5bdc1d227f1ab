//! The sizes of the parts of a light file.

/// The bytes that every light file begins with.
pub const MAGIC: [u8; 4] = *b"LCH1";

/// The number of bytes before those of the blocks: `MAGIC`, and the number of blocks in four bytes.
pub const HEAD_BYTES: usize = 8;

/// The number of bytes of each block: its digest and the root at it, 32 bytes each.
pub const BLOCK_ROOT_BYTES: usize = 64;

/// The greatest number of bytes that are read at once: those of 64 blocks.
pub const MAX_PIECE_BYTES: usize = 4096;
