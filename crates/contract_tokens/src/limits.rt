//! The greatest size of the text of a literal.

/// The greatest number of bytes of the text that a literal stands for.
pub const MAX_LITERAL_BYTES: usize = 1024;
