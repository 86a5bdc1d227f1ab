//! The greatest lengths of keys and names, in bytes.

/// The greatest number of bytes of a key.
pub const MAX_KEY_BYTES: usize = 64;

/// The greatest number of bytes of a name.
pub const MAX_NAME_BYTES: usize = 16;
