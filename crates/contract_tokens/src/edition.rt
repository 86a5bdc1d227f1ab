//! The editions of the contract language.

/// The first edition.
pub const FIRST_EDITION: u8 = 1;

/// The second edition, which has the keyword `drop` beside those of the first.
pub const SECOND_EDITION: u8 = 2;
