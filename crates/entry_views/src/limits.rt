//! The length of a link: all links have one length, so each is found without those before it.

/// The bytes of a link: 4 of its block, and 32 of its digest.
pub const LINK_BYTES: usize = 36;
