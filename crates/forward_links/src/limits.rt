//! How many lists there may be.

/// The greatest number of lists: a history has at most as many rows, so at most as many keys.
pub const MAX_LISTS: u32 = 4_294_967_294;
