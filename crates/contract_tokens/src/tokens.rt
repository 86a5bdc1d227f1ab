//! The tokens of a source, taken one by one. The source is scanned once before, so that its first
//! fault is known before its first token.

ghost use Rattle.std.specs.Prelude.{◌≡◌, ℕ, ◌^◌, ◌<◌, ◌≤◌, length, drop, List, [], IfOk, OnErr};
ghost use Rattle.lc_base.specs.Answers.{Answers};
ghost use Rattle.contract_tokens.specs.{
  Tokens.{Outcome, IsTokenized, fault_of},
  Listing.{tokens_from, next_and_rest, IsFirst, offset_after},
  Pieces.{next_piece},
};

use crate::piece::{Piece, next_piece};
use crate::token::{Token, TokenError, Word};
use lc_base::Memory;
use std::alloc::Global;
use std::marker::Model;

fn piece_at(alloc: Global, edition: u8, source: &[u8], at: usize) -> Result<Piece, Memory>
    requires { at ≤ length source.now }
    ensures { IfOk result (λ piece. piece ≡ next_piece edition (drop at source.now)) }
{
    next_piece(alloc, edition, &source[at..])
}

/// The offset after the token or the gap at this offset, or `None` at the end.
fn offset_after(
    alloc: Global,
    edition: u8,
    source: &[u8],
    at: usize,
) -> Result<Option<usize>, TokenError>
    requires at { at ≤ length source.now }
    requires source { length source.now < 2 ^ 32 }
    ensures { Answers (λ next. next) fault_of result (offset_after at (next_piece edition (drop at source.now))) }
{
    match piece_at(alloc, edition, source, at)? {
        Piece::End => Ok(None),
        Piece::Skip(count) => Ok(Some(at + count)),
        Piece::Take(count, _) => Ok(Some(at + count)),
        Piece::Bad(kind) => Err(TokenError::Refused {
            at: at as u32,
            kind,
        }),
    }
}

/// The first token at an offset or after it, and the offset after that token, which is `None` after
/// the end.
fn first_token(
    alloc: Global,
    edition: u8,
    source: &[u8],
    from: usize,
) -> Result<Option<(Token, Option<usize>)>, Memory>
    requires from { from ≤ length source.now }
    requires source { length source.now < 2 ^ 32 }
    ensures { IfOk result (IsFirst edition source.now (tokens_from edition from (drop from source.now))) }
{
    let mut at = from;
    loop {
        match piece_at(alloc, edition, source, at)? {
            Piece::End => {
                let token = Token {
                    at: at as u32,
                    word: Word::End,
                };
                return Ok(Some((token, None)));
            }
            Piece::Skip(count) => at += count,
            Piece::Take(count, word) => {
                let token = Token {
                    at: at as u32,
                    word,
                };
                return Ok(Some((token, Some(at + count))));
            }
            // A source that was scanned has no fault; the tokens of any other source end here.
            Piece::Bad(_) => return Ok(None),
        }
    }
}

/// The tokens of a source that are still to be read: the longest at each offset, with blanks and
/// comments skipped, and `Word::End` at the end.
#[derive(Drop)]
pub struct Tokens<'a> {
    alloc: Global,
    edition: u8,
    source: &'a [u8],
    at: Option<usize>,
}

impl<'a> Model for Tokens<'a> {
    ghost use Rattle.std.specs.Prelude.{List, length, ◌<◌, ◌^◌};
    ghost use Rattle.contract_tokens.specs.declared.token.Token.{Token};
    ghost use Rattle.contract_tokens.specs.Listing.{tokens_left, IsOffsetIn};

    ghost Value = { List Token };

    ghost view = { λ tokens. tokens_left tokens.edition tokens.source.now tokens.at };

    ghost invariant = { λ tokens. IsOffsetIn tokens.source.now tokens.at × (length tokens.source.now < 2 ^ 32) };
}

impl<'a> Tokens<'a> {
    /// All tokens of a source in an edition. The source is scanned here, so that its first fault is
    /// known before its first token is. Each source has one outcome in an edition: its tokens, or
    /// its first fault.
    ///
    /// # Errors
    ///
    /// The first offset at which there is no token, or `Memory`.
    pub fn new(alloc: Global, source: &'a [u8], edition: u8) -> Result<Self, TokenError>
        requires { length source.now < 2 ^ 32 }
        ensures outcome { (outcome : Outcome) × IsTokenized edition 0 source.now outcome × Answers (λ list. list) fault_of result outcome }
        ensures once { (one other : Outcome) → IsTokenized edition 0 source.now one → IsTokenized edition 0 source.now other → one ≡ other }
    {
        let mut at = 0;
        while let Some(next) = offset_after(alloc, edition, source, at)? {
            at = next;
        }
        Ok(Tokens {
            alloc,
            edition,
            source,
            at: Some(0),
        })
    }

    /// The allocator of the texts that are read.
    pub fn alloc(&self) -> Global {
        self.alloc
    }

    /// The next token, or `None` after the end.
    ///
    /// # Errors
    ///
    /// `Memory`, if it runs out for a text literal; the token is then still to come.
    pub fn next(&mut self) -> Result<Option<Token>, Memory>
        ensures token { IfOk result (λ token. self.old ≡ next_and_rest token self.new) }
        ensures end { self.old ≡ [] → self.new ≡ [] }
        ensures kept { OnErr result (self.new ≡ self.old) }
    {
        let Some(from) = self.at else {
            return Ok(None);
        };
        let Some((token, next)) = first_token(self.alloc, self.edition, self.source, from)? else {
            return Ok(None);
        };
        self.at = next;
        Ok(Some(token))
    }
}
