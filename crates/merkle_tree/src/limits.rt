//! The first bytes of the texts of leaves and nodes, and the greatest size of a tree.

/// The byte before the bytes of a leaf (RFC 6962, section 2.1).
pub const LEAF: u8 = 0;

/// The byte before the two hashes of a node (RFC 6962, section 2.1).
pub const NODE: u8 = 1;

/// The greatest height of a tree: it has at most 2 to this power leaves.
pub const MAX_HEIGHT: u32 = 32;

/// The greatest number of leaves of a tree that is kept, whose indexes are 32 bit numbers.
pub const MAX_LEAVES: u32 = 4_294_967_295;
