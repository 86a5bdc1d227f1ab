//! A cursor over the tokens of a source: the next token is seen, and the others are read one by
//! one.

ghost use Rattle.std.specs.{
  Prelude.{◌≡◌, slice_get, drop, IfOk, OnErr, IsErrOf},
  Option.{option_copied},
};
ghost use Rattle.contract_grammar.specs.{
  Marks.{the, is, is_not, has, is_no_end, int_of, text_of, name_with_offset, kind_of, sign_of, prefix_of, with_offset},
  Rules.{head_is, one, refusal},
  Reads.{Reads},
};
ghost use Rattle.contract_grammar.specs.declared.stop.ParseStop.TheVariants as stops;

use crate::Obstacle;
use crate::stop::ParseStop;
use crate::word::{NameKind, int_in, is_end, is_mark, kind_in, prefix_in, sign_at, text_in};
use contract_tokens::{Mark, Token, Tokens};
use contract_tree::{Sign, ValueKind};
use lc_base::{Duplicate, Memory, Name, Text};
use std::alloc::Global;
use std::marker::Model;

/// The tokens that are still to be read, of which the next one is seen.
#[derive(Drop)]
pub struct Cursor<'a> {
    next: Option<Token>,
    after: Tokens<'a>,
}

impl<'a> Model for Cursor<'a> {
    ghost use Rattle.std.specs.Prelude.{List};
    ghost use Rattle.contract_tokens.specs.declared.token.Token.{Token};
    ghost use Rattle.contract_tokens.specs.Listing.{next_and_rest};

    ghost Value = { List Token };

    ghost view = { λ cursor. next_and_rest cursor.next cursor.after };
}

impl<'a> Cursor<'a> {
    /// A cursor before all of these tokens.
    ///
    /// # Errors
    ///
    /// `Memory`, if it runs out for a text literal that comes first.
    pub fn new(tokens: Tokens<'a>) -> Result<Self, Memory>
        ensures { IfOk result (λ cursor. cursor ≡ tokens.entry) }
    {
        let mut after = tokens;
        let next = after.next()?;
        Ok(Cursor { next, after })
    }

    /// The allocator of what is read.
    pub fn alloc(&self) -> Global {
        self.after.alloc()
    }

    /// The next token, or `None` after the end.
    pub fn next(&self) -> Option<&Token>
        ensures { option_copied result ≡ slice_get self.now 0 }
    {
        self.next.as_ref()
    }

    // Moves past the next token.
    fn advance(&mut self) -> Result<(), Memory>
        ensures after { IfOk result (λ _. self.new ≡ drop 1 self.old) }
        ensures kept { OnErr result (self.new ≡ self.old) }
    {
        if self.next.is_some() {
            self.next = self.after.next()?;
        }
        Ok(())
    }

    // Takes the next token, of which `found` was made.
    fn take_found<A: Drop>(&mut self, found: Option<A>) -> Result<(u32, A), ParseStop>
        ensures read { Reads result (one (λ token. with_offset token.at found) self.old) self.new }
        ensures kept { IsErrOf result stops.Memory → self.new ≡ self.old }
    {
        let (Some(token), Some(a)) = (&self.next, found) else {
            return Err(ParseStop::At(Obstacle::Unfit));
        };
        let at = token.at;
        self.advance()?;
        Ok((at, a))
    }

    /// Whether the next token is this keyword or sign.
    pub fn next_is(&self, mark: Mark) -> bool
        ensures { result ≡ head_is (is mark) self.now }
    {
        self.next
            .as_ref()
            .is_some_and(|token| is_mark(&token.word, mark))
    }

    /// Whether there is a next token, and it is not this keyword or sign.
    pub fn next_is_other(&self, mark: Mark) -> bool
        ensures { result ≡ head_is (is_not mark) self.now }
    {
        self.next
            .as_ref()
            .is_some_and(|token| !is_mark(&token.word, mark))
    }

    /// Whether there is a next token that is not the end of the source.
    pub fn goes_on(&self) -> bool
        ensures { result ≡ head_is is_no_end self.now }
    {
        self.next.as_ref().is_some_and(|token| !is_end(&token.word))
    }

    /// Whether the next token is a name of this kind.
    pub fn next_is_name(&self, kind: NameKind) -> bool
        ensures { result ≡ head_is (has (name_with_offset kind)) self.now }
    {
        self.next
            .as_ref()
            .is_some_and(|token| kind.name(&token.word).is_some())
    }

    /// Whether the next token is a text literal.
    pub fn next_is_text(&self) -> bool
        ensures { result ≡ head_is (has text_of) self.now }
    {
        self.next
            .as_ref()
            .is_some_and(|token| text_in(&token.word).is_some())
    }

    /// Whether the next token is a prefix.
    pub fn next_is_prefix(&self) -> bool
        ensures { result ≡ head_is (has prefix_of) self.now }
    {
        self.next
            .as_ref()
            .is_some_and(|token| prefix_in(&token.word).is_some())
    }

    /// Whether the next token is an operator of this level, from 1, the tightest, to `WHOLE`.
    pub fn next_is_sign(&self, level: u8) -> bool
        ensures { result ≡ head_is (has (sign_of level)) self.now }
    {
        self.next
            .as_ref()
            .is_some_and(|token| sign_at(&token.word, level).is_some())
    }

    /// Why the next token is refused: `why` if it is the one that exceeds a limit, `Unfit`
    /// otherwise.
    pub fn refusal(&self, is_it: bool, why: Obstacle) -> ParseStop
        ensures { result ≡ stops.At (refusal why is_it) }
    {
        if is_it {
            ParseStop::At(why)
        } else {
            ParseStop::At(Obstacle::Unfit)
        }
    }

    /// Takes this keyword or sign, and returns its offset.
    ///
    /// # Errors
    ///
    /// Here and below: `Unfit` if the next token is another one, which is then not taken; `Memory`
    /// if it runs out for the token after it.
    pub fn take(&mut self, mark: Mark) -> Result<u32, ParseStop>
        ensures read { Reads result (one (the mark) self.old) self.new }
        ensures kept { IsErrOf result stops.Memory → self.new ≡ self.old }
    {
        let found = self.next_is(mark).then_some(());
        let (at, ()) = self.take_found(found)?;
        Ok(at)
    }

    /// Takes a number, and returns it with its offset.
    pub fn int(&mut self) -> Result<(u32, i64), ParseStop>
        ensures read { Reads result (one int_of self.old) self.new }
        ensures kept { IsErrOf result stops.Memory → self.new ≡ self.old }
    {
        let found = self.next.as_ref().and_then(|token| int_in(&token.word));
        self.take_found(found)
    }

    /// Takes a text literal, and returns the text with its offset.
    pub fn text(&mut self) -> Result<(u32, Text), ParseStop>
        ensures read { Reads result (one text_of self.old) self.new }
        ensures kept { IsErrOf result stops.Memory → self.new ≡ self.old }
    {
        let found = match self.next.as_ref().and_then(|token| text_in(&token.word)) {
            Some(text) => Some(text.copy(self.alloc())?),
            None => None,
        };
        self.take_found(found)
    }

    /// Takes a name of this kind, and returns it with its offset.
    pub fn name(&mut self, kind: NameKind) -> Result<(u32, Name), ParseStop>
        ensures read { Reads result (one (name_with_offset kind) self.old) self.new }
        ensures kept { IsErrOf result stops.Memory → self.new ≡ self.old }
    {
        let found = self.next.as_ref().and_then(|token| kind.name(&token.word));
        self.take_found(found)
    }

    /// Takes an operator of this level, and returns it with its offset.
    pub fn sign(&mut self, level: u8) -> Result<(u32, Sign), ParseStop>
        ensures read { Reads result (one (sign_of level) self.old) self.new }
        ensures kept { IsErrOf result stops.Memory → self.new ≡ self.old }
    {
        let found = self
            .next
            .as_ref()
            .and_then(|token| sign_at(&token.word, level));
        self.take_found(found)
    }

    /// Takes a prefix, and returns it with its offset.
    pub fn prefix(&mut self) -> Result<(u32, Sign), ParseStop>
        ensures read { Reads result (one prefix_of self.old) self.new }
        ensures kept { IsErrOf result stops.Memory → self.new ≡ self.old }
    {
        let found = self.next.as_ref().and_then(|token| prefix_in(&token.word));
        self.take_found(found)
    }

    /// Takes the keyword for a kind of values, and returns that kind.
    pub fn kind(&mut self) -> Result<ValueKind, ParseStop>
        ensures read { Reads result (one kind_of self.old) self.new }
        ensures kept { IsErrOf result stops.Memory → self.new ≡ self.old }
    {
        let found = self.next.as_ref().and_then(|token| kind_in(&token.word));
        let (_, kind) = self.take_found(found)?;
        Ok(kind)
    }
}
