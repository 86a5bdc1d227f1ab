//! Text literals: bytes between quotes, in which a backslash escapes a quote or a backslash.

ghost use Rattle.std.specs.Prelude.{◌≡◌, ℕ, false, [], IfOk};
ghost use Rattle.lc_base.specs.TextBytes.{is_text_byte, IsText};
ghost use Rattle.contract_tokens.specs.declared.piece.Piece.TheVariants as Piece;
ghost use Rattle.contract_tokens.specs.declared.token.Word.TheVariants as Word;
ghost use Rattle.contract_tokens.specs.Pieces.{literal_byte, literal_piece};

use crate::limits::MAX_LITERAL_BYTES;
use crate::piece::Piece;
use crate::token::{TokenKind, Word};
use lc_base::{Memory, Text, TextError, is_text_byte};
use std::alloc::Global;

/// What a byte of a text literal stands for.
#[derive(Clone, Copy)]
pub enum LiteralByte {
    /// The quote that closes the literal.
    Close,
    /// A backslash that begins an escape.
    Escape,
    /// A byte that means itself.
    Itself,
    /// A byte that is not allowed there.
    Fault,
}

impl LiteralByte {
    fn of(escaped: bool, byte: u8) -> LiteralByte
        ensures { result ≡ literal_byte escaped byte }
    {
        if escaped {
            if byte == b'"' || byte == b'\\' {
                LiteralByte::Itself
            } else {
                LiteralByte::Fault
            }
        } else if byte == b'"' {
            LiteralByte::Close
        } else if byte == b'\\' {
            LiteralByte::Escape
        } else if is_text_byte(byte) {
            LiteralByte::Itself
        } else {
            LiteralByte::Fault
        }
    }
}

// The piece of a literal that is closed. A text that was read has no byte and no length that
// `Text::new` refuses.
fn closed_literal(alloc: Global, count: usize, text: &[u8]) -> Result<Piece, Memory>
    requires { IsText text.now }
    ensures { IfOk result (λ piece. piece ≡ Piece.Take count (Word.Text text.now)) }
{
    match Text::new(alloc, text) {
        Ok(text) => Ok(Piece::Take(count, Word::Text(text))),
        Err(TextError::Memory) => Err(Memory),
        Err(_) => unreachable!(),
    }
}

/// The piece of a literal; `rest` is what follows its first quote.
#[tactic(auto, unfolding(crate::specs::Pieces::literal_piece))]
pub fn literal_piece(alloc: Global, rest: &[u8]) -> Result<Piece, Memory>
    ensures { IfOk result (λ piece. piece ≡ literal_piece false [] 0 rest.now) }
{
    let mut text = Vec::new(alloc);
    let mut escaped = false;
    for (i, byte) in rest.iter().enumerate() {
        match LiteralByte::of(escaped, *byte) {
            LiteralByte::Close => return closed_literal(alloc, i + 2, text.as_slice()),
            LiteralByte::Escape => escaped = true,
            LiteralByte::Itself => {
                if text.len() == MAX_LITERAL_BYTES {
                    return Ok(Piece::Bad(TokenKind::Literal));
                }
                text.push(*byte)?;
                escaped = false;
            }
            LiteralByte::Fault => return Ok(Piece::Bad(TokenKind::Literal)),
        }
    }
    Ok(Piece::Bad(TokenKind::Literal))
}
