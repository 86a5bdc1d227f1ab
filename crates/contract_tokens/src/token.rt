//! Tokens, and why a source is refused.

ghost use Rattle.std.specs.Prelude.{◌≡◌};
ghost use Rattle.contract_tokens.specs.declared.token.TokenError.TheVariants as TokenErrors;

use lc_base::{Memory, Name, Text};

/// A word of a source, with its offset.
#[derive(Drop)]
pub struct Token {
    /// The offset of its first byte.
    pub at: u32,
    /// What the token is.
    pub word: Word,
}

/// What a token is.
#[derive(Drop)]
pub enum Word {
    /// A number, 0 to 9223372036854775807.
    Int(i64),
    /// A text literal, as the bytes that it stands for: its escapes are resolved.
    Text(Text),
    /// A name that is no keyword.
    Name(Name),
    /// A keyword or a sign.
    Mark(Mark),
    /// The end of the source, the last item of each list of tokens.
    End,
}

/// A token that is always spelled the same.
#[derive(Clone, Copy, PartialEq, Eq)]
pub enum Mark {
    /// The keyword `fn`.
    Fn,
    /// The keyword `let`.
    Let,
    /// The keyword `if`.
    If,
    /// The keyword `else`.
    Else,
    /// The keyword `while`.
    While,
    /// The keyword `put`.
    Put,
    /// The keyword `drop`, of the second edition.
    Drop,
    /// The keyword `from`.
    From,
    /// The keyword `fail`.
    Fail,
    /// The keyword `return`.
    Return,
    /// The keyword `int`.
    Int,
    /// The keyword `text`.
    Text,
    /// The sign `(`.
    ParenOpen,
    /// The sign `)`.
    ParenClose,
    /// The sign `{`.
    BraceOpen,
    /// The sign `}`.
    BraceClose,
    /// The sign `,`.
    Comma,
    /// The sign `;`.
    Semicolon,
    /// The sign `:`.
    Colon,
    /// The sign `=`.
    Assign,
    /// The sign `==`.
    Equal,
    /// The sign `!=`.
    NotEqual,
    /// The sign `<`.
    Less,
    /// The sign `<=`.
    LessEqual,
    /// The sign `>`.
    Greater,
    /// The sign `>=`.
    GreaterEqual,
    /// The sign `+`.
    Plus,
    /// The sign `-`.
    Minus,
    /// The sign `*`.
    Star,
    /// The sign `/`.
    Slash,
    /// The sign `%`.
    Percent,
    /// The sign `++`.
    Concat,
    /// The sign `!`.
    Not,
    /// The sign `&&`.
    And,
    /// The sign `||`.
    Or,
}

/// Why a source is not a list of tokens.
#[derive(Clone, Copy)]
pub enum TokenKind {
    /// A byte that begins no token.
    Byte,
    /// A number, text literal or name that breaks its rule.
    Literal,
}

/// Why no tokens were returned.
#[derive(Clone, Copy)]
pub enum TokenError {
    /// The first fault of the source.
    Refused {
        /// The offset of the invalid byte, or of the first byte of the invalid number, text literal
        /// or name.
        at: u32,
        /// What is invalid.
        kind: TokenKind,
    },
    /// Out of memory.
    Memory,
}

impl From<Memory> for TokenError {
    ghost from_gives = { λ _ error. error ≡ TokenErrors.Memory };

    fn from(_error: Memory) -> TokenError {
        TokenError::Memory
    }
}
