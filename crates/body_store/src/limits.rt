//! The capacity of the cache of bodies.

/// The greatest number of bodies at hand.
pub const CACHED_BODIES: usize = 1_024;
