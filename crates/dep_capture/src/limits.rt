//! The limits on the keys that a transaction reads and puts. Beyond them it is refused.

/// The greatest number of distinct keys that a transaction reads.
pub const MAX_KEYS_READ: usize = 256;

/// The greatest number of distinct keys that a transaction puts.
pub const MAX_KEYS_PUT: usize = 256;
