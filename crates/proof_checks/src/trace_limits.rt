//! The magic bytes that mark the format of a trace and its version.

/// The bytes that every trace begins with.
pub const TRACE_MAGIC: [u8; 4] = *b"LCT1";
