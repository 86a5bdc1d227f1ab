//! The piece at the start of a source: a gap, a token, or a fault.

ghost use Rattle.std.specs.{
  Prelude.{◌≡◌, ℕ, ◌+◌, ◌-◌, ◌<◌, ◌^◌, not, ◌==◌, List, [], ◌∷◌, length, take, drop, IfOk},
  List.{prefix_len},
};
ghost use Rattle.lc_base.specs.NameBytes.{is_letter, is_name_byte};
ghost use Rattle.contract_tokens.specs.{
  Lexemes.{is_blank, is_digit, newline},
  Pieces.{next_piece, nonempty_piece},
};

use crate::literal::literal_piece;
use crate::name::name_piece;
use crate::number::number_piece;
use crate::sign::sign_piece;
use crate::token::{TokenKind, Word};
use lc_base::{Memory, is_name_byte};
use std::alloc::Global;

/// What is at the start of a source.
#[derive(Drop)]
pub enum Piece {
    /// Nothing: the source ends.
    End,
    /// This many bytes between tokens.
    Skip(usize),
    /// A token of this many bytes.
    Take(usize, Word),
    /// A fault.
    Bad(TokenKind),
}

fn is_blank(byte: u8) -> bool
    ensures { result ≡ is_blank byte }
{
    matches!(byte, b' ' | b'\t' | b'\r' | b'\n')
}

fn is_letter(byte: u8) -> bool
    ensures { result ≡ is_letter byte }
{
    matches!(byte, b'a'..=b'z')
}

fn is_digit(byte: u8) -> bool
    ensures { result ≡ is_digit byte }
{
    matches!(byte, b'0'..=b'9')
}

fn line_length(bytes: &[u8]) -> usize
    ensures { result ≡ prefix_len (λ byte. not (byte == newline)) bytes.now }
{
    bytes.iter().take_while(|byte| **byte != b'\n').count()
}

fn name_length(bytes: &[u8]) -> usize
    ensures { result ≡ prefix_len is_name_byte bytes.now }
{
    bytes.iter().take_while(|byte| is_name_byte(**byte)).count()
}

fn digit_count(bytes: &[u8]) -> usize
    ensures { result ≡ prefix_len is_digit bytes.now }
{
    bytes.iter().take_while(|byte| is_digit(**byte)).count()
}

fn nonempty_piece(alloc: Global, edition: u8, first: u8, bytes: &[u8]) -> Result<Piece, Memory>
    requires { bytes.now ≡ first ∷ drop 1 bytes.now }
    ensures { IfOk result (λ piece. piece ≡ nonempty_piece edition first (drop 1 bytes.now)) }
{
    if is_blank(first) {
        return Ok(Piece::Skip(1));
    }
    if first == b'#' {
        return Ok(Piece::Skip(line_length(bytes)));
    }
    if is_letter(first) {
        return Ok(name_piece(edition, &bytes[..name_length(bytes)]));
    }
    if is_digit(first) {
        return Ok(number_piece(&bytes[..digit_count(bytes)]));
    }
    if first == b'"' {
        return literal_piece(alloc, &bytes[1..]);
    }
    Ok(sign_piece(first, &bytes[1..]))
}

/// The piece at the start of the bytes.
#[tactic(auto, unfolding(crate::specs::Pieces::next_piece))]
pub fn next_piece(alloc: Global, edition: u8, bytes: &[u8]) -> Result<Piece, Memory>
    ensures { IfOk result (λ piece. piece ≡ next_piece edition bytes.now) }
{
    match bytes {
        [] => Ok(Piece::End),
        [first, ..] => nonempty_piece(alloc, edition, *first, bytes),
    }
}
