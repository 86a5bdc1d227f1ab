//! The magic bytes that mark the format of a range proof and its version.

/// The bytes that every range proof begins with.
pub const RANGE_MAGIC: [u8; 4] = *b"LCR1";
