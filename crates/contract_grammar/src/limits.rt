//! The limits that a contract keeps, and the levels of operators.

/// The greatest number of parameters of a function.
pub const MAX_PARAMETERS: usize = 8;

/// The greatest number of parentheses and prefixes that are pending at once in an expression.
pub const MAX_PENDING: u32 = 128;

/// The greatest depth of nested blocks. The body of a function has depth 1.
pub const MAX_NESTING: u32 = 32;

/// The greatest height of an expression. An expression without operands has height 1.
pub const MAX_HEIGHT: u32 = 64;

/// The level of comparisons, which are not chained. Levels count from 1, that of the operators that
/// bind tightest.
pub const COMPARISONS: u8 = 4;

/// The level of the operator that binds loosest, and so of whole expressions.
pub const WHOLE: u8 = 6;
