//! The number of blocks of a lineage is bounded by its type.

/// The greatest number of blocks of a lineage: their count is a u32. A chain has fewer.
pub const MAX_LINEAGE_BLOCKS: u32 = 4_294_967_295;
