//! The greatest sizes of texts and histories.

/// The greatest number of bytes of a text.
pub const MAX_TEXT_BYTES: usize = 8192;

/// The greatest number of bytes of two texts that are joined, at most `MAX_TEXT_BYTES`.
pub const MAX_JOINED_BYTES: usize = 1024;

/// The greatest number of dependencies of a row, and of dependency keys of a transaction.
pub const MAX_DEPS: usize = 64;

/// The greatest number of rows of a history: 2^32 - 2.
pub const MAX_ROWS: u32 = 4_294_967_294;
