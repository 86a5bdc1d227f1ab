//! The grammar of the contract language over its tokens, and a cursor that reads the tokens one by
//! one.
#![tactic(auto)]

mod cursor;
mod limits;
mod stop;
mod word;

pub use contract_tokens::Mark;
pub use cursor::Cursor;
pub use limits::{COMPARISONS, MAX_HEIGHT, MAX_NESTING, MAX_PARAMETERS, MAX_PENDING, WHOLE};
pub use stop::ParseStop;
pub use word::{NameKind, is_end};

/// What stops a reader.
#[derive(Clone, Copy)]
pub enum Obstacle {
    /// No contract continues with the next token, even without limits.
    Unfit,
    /// The next token is the name of a parameter, which would be one too many.
    Surplus,
    /// The next token is a parenthesis or a prefix, of which too many would be pending.
    Pending,
    /// The next token is a brace, and its block would be nested too deep.
    Nesting,
    /// The expression at this offset was read, and is too high.
    Height(u32),
}
