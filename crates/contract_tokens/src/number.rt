//! Numbers: digits without a needless leading 0, with a value below 2^63.

ghost use Rattle.std.specs.Prelude.{◌≡◌, ℕ, ◌<◌, ◌^◌, ◌≤◌, IfSome};
ghost use Rattle.contract_tokens.specs.Pieces.{value_from, has_leading_zero, number_piece};

use crate::piece::Piece;
use crate::token::{TokenKind, Word};

/// The value of the digits, or `None` if it is 2^63 or more.
#[tactic(auto, unfolding(crate::specs::Pieces::value_from))]
fn value_of(digits: &[u8]) -> Option<u64>
    ensures value { result ≡ value_from 0 digits.now }
    ensures small { IfSome result (λ n. n < 2 ^ 63) }
{
    let mut number = 0;
    for byte in digits {
        let digit = u64::from(byte.saturating_sub(b'0'));
        if number > (0x7FFF_FFFF_FFFF_FFFF - digit) / 10 {
            return None;
        }
        number = 10 * number + digit;
    }
    Some(number)
}

fn has_leading_zero(digits: &[u8]) -> bool
    ensures { result ≡ has_leading_zero digits.now }
{
    match digits {
        [first, _, ..] => *first == b'0',
        _ => false,
    }
}

/// The piece of the number that the digits are.
#[tactic(auto, unfolding(crate::specs::Pieces::number_piece))]
pub fn number_piece(digits: &[u8]) -> Piece
    ensures { result ≡ number_piece digits.now }
{
    if has_leading_zero(digits) {
        return Piece::Bad(TokenKind::Literal);
    }
    match value_of(digits) {
        Some(n) => Piece::Take(digits.len(), Word::Int(n as i64)),
        None => Piece::Bad(TokenKind::Literal),
    }
}
