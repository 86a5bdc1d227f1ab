//! The first bytes of texts that are hashed, and the greatest number of links. The bytes 0 and 1
//! are those of RFC 6962, in `merkle_tree`.

/// The byte before the fields of a header.
pub const HEADER: u8 = 2;

/// The byte before the fields of a body.
pub const BODY: u8 = 3;

/// The byte whose SHA-256 digest is that of the empty forward list.
pub const FORWARD_START: u8 = 4;

/// The byte before the digest of a forward list and one use more.
pub const FORWARD_LINK: u8 = 5;

/// The byte before what is hashed for a root.
pub const ROOT: u8 = 6;

/// The greatest number of links of a header.
pub const MAX_LINKS: usize = 32;
