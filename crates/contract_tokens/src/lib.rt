//! The tokens of the contract language: the bytes of a source are split into them before it is
//! parsed.
#![tactic(auto)]

mod edition;
mod limits;
mod literal;
mod name;
mod number;
mod piece;
mod sign;
mod token;
mod tokens;

pub use edition::{FIRST_EDITION, SECOND_EDITION};
pub use limits::MAX_LITERAL_BYTES;
pub use token::{Mark, Token, TokenError, TokenKind, Word};
pub use tokens::Tokens;
