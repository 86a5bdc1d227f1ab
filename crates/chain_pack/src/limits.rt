//! The constants of drawing: the generator's, and the ranges that are drawn from.

/// The multiplier of the state at each draw, modulo 2^64: that of Knuth's MMIX.
pub const MULTIPLIER: u64 = 6_364_136_223_846_793_005;

/// The increment of the state at each draw, modulo 2^64: that of Knuth's MMIX.
pub const INCREMENT: u64 = 1_442_695_040_888_963_407;

/// The divisor of the state for the number that is drawn: 2^33, which drops the 33 low bits.
pub const DIVISOR: u64 = 8_589_934_592;

/// The number of keys that are drawn often.
pub const FEW_KEYS: u32 = 16;

/// The number of keys in all.
pub const MANY_KEYS: u32 = 4096;

/// The number of arguments that calls draw from, 0 and up.
pub const ARGS: u32 = 16;

/// The number of values that Sets draw from, 0 and up.
pub const VALUES: u32 = 1000;

/// The number of dependency counts that Sets draw from, 0 and up.
pub const DEP_COUNTS: u32 = 3;

/// The number of Sets in each block after the first.
pub const SETS: u32 = 4;

/// The budget of each call, in steps.
pub const BUDGET: u32 = 10_000;

/// The greatest number of transactions of a block: a call and the Sets.
pub const MAX_TXS_MADE: u32 = SETS + 1;
