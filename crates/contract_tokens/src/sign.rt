//! Signs of one byte and of two: the longer one is taken if both are there.

ghost use Rattle.std.specs.Prelude.{◌≡◌};
ghost use Rattle.contract_tokens.specs.Pieces.{short_sign, long_sign, short_piece, sign_piece};

use crate::piece::Piece;
use crate::token::{Mark, TokenKind, Word};

#[tactic(auto, unfolding(crate::specs::Pieces::short_sign))]
fn short_sign(byte: u8) -> Option<Mark>
    ensures { result ≡ short_sign byte }
{
    match byte {
        b'(' => Some(Mark::ParenOpen),
        b')' => Some(Mark::ParenClose),
        b'{' => Some(Mark::BraceOpen),
        b'}' => Some(Mark::BraceClose),
        b',' => Some(Mark::Comma),
        b';' => Some(Mark::Semicolon),
        b':' => Some(Mark::Colon),
        b'=' => Some(Mark::Assign),
        b'<' => Some(Mark::Less),
        b'>' => Some(Mark::Greater),
        b'+' => Some(Mark::Plus),
        b'-' => Some(Mark::Minus),
        b'*' => Some(Mark::Star),
        b'/' => Some(Mark::Slash),
        b'%' => Some(Mark::Percent),
        b'!' => Some(Mark::Not),
        _ => None,
    }
}

#[tactic(auto, unfolding(crate::specs::Pieces::long_sign))]
fn long_sign(byte: u8, next: u8) -> Option<Mark>
    ensures { result ≡ long_sign byte next }
{
    match (byte, next) {
        (b'=', b'=') => Some(Mark::Equal),
        (b'!', b'=') => Some(Mark::NotEqual),
        (b'<', b'=') => Some(Mark::LessEqual),
        (b'>', b'=') => Some(Mark::GreaterEqual),
        (b'+', b'+') => Some(Mark::Concat),
        (b'&', b'&') => Some(Mark::And),
        (b'|', b'|') => Some(Mark::Or),
        _ => None,
    }
}

fn short_piece(byte: u8) -> Piece
    ensures { result ≡ short_piece (short_sign byte) }
{
    match short_sign(byte) {
        Some(mark) => Piece::Take(1, Word::Mark(mark)),
        None => Piece::Bad(TokenKind::Byte),
    }
}

/// The piece of the sign that begins with `byte`; `rest` is what follows that byte.
pub fn sign_piece(byte: u8, rest: &[u8]) -> Piece
    ensures { result ≡ sign_piece byte rest.now }
{
    let [next, ..] = rest else {
        return short_piece(byte);
    };
    match long_sign(byte, *next) {
        Some(mark) => Piece::Take(2, Word::Mark(mark)),
        None => short_piece(byte),
    }
}
