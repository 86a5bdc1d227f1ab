//! The meaning of single words in the grammar.

ghost use Rattle.std.specs.{Prelude.{◌≡◌, ◌==◌, Some, None, if◌then◌else◌}, Option.{option_copied}};
ghost use Rattle.contract_tokens.specs.declared.token.Word.TheVariants as words;
ghost use Rattle.contract_grammar.specs.Marks.{is_word, int_in, text_in, end_in, kind_in, level_in, sign_in, prefix_in, unless_builtin, name_as};
ghost use Rattle.contract_tree.specs.declared.builtin.Builtin.TheVariants as builtins;
ghost use Rattle.contract_tree.specs.Builtins.{builtin_name, is_builtin};

use crate::limits::{COMPARISONS, WHOLE};
use contract_tokens::{Mark, Word};
use contract_tree::{Builtin, Sign, ValueKind};
use lc_base::{Name, Text};

/// Whether the word is this keyword or sign.
pub fn is_mark(word: &Word, mark: Mark) -> bool
    ensures { result ≡ is_word mark word.now }
{
    match word {
        Word::Mark(other) => *other == mark,
        _ => false,
    }
}

/// The value of a number, or `None` for other words.
pub fn int_in(word: &Word) -> Option<i64>
    ensures { result ≡ int_in word.now }
{
    match word {
        Word::Int(value) => Some(*value),
        _ => None,
    }
}

/// The text of a text literal, or `None` for other words.
pub fn text_in(word: &Word) -> Option<&Text>
    ensures { option_copied result ≡ text_in word.now }
{
    match word {
        Word::Text(text) => Some(text),
        _ => None,
    }
}

/// Whether the word is the end of the source.
pub fn is_end(word: &Word) -> bool
    ensures { result ≡ end_in word.now }
{
    matches!(word, Word::End)
}

/// The kind of values that a keyword names, or `None` for other words.
pub fn kind_in(word: &Word) -> Option<ValueKind>
    ensures { result ≡ kind_in word.now }
{
    match word {
        Word::Mark(Mark::Int) => Some(ValueKind::Int),
        Word::Mark(Mark::Text) => Some(ValueKind::Text),
        _ => None,
    }
}

fn mark_level(mark: Mark) -> u8
    ensures { result ≡ level_in (words.Mark mark) }
{
    match mark {
        Mark::ParenOpen => 0,
        Mark::Star | Mark::Slash | Mark::Percent => 1,
        Mark::Plus | Mark::Minus => 2,
        Mark::Concat => 3,
        Mark::Equal
        | Mark::NotEqual
        | Mark::Less
        | Mark::LessEqual
        | Mark::Greater
        | Mark::GreaterEqual => COMPARISONS,
        Mark::And => 5,
        Mark::Or => WHOLE,
        _ => WHOLE + 1,
    }
}

/// The level of a word as an operator between two operands; lower levels bind tighter. A word that
/// is no operator has a level after all others. An opening parenthesis has level 0, because it
/// makes a call.
pub fn level_in(word: &Word) -> u8
    ensures { result ≡ level_in word.now }
{
    match word {
        Word::Mark(mark) => mark_level(*mark),
        _ => WHOLE + 1,
    }
}

fn mark_sign(mark: Mark) -> Option<Sign>
    ensures { result ≡ sign_in (words.Mark mark) }
{
    match mark {
        Mark::Star => Some(Sign::Star),
        Mark::Slash => Some(Sign::Slash),
        Mark::Percent => Some(Sign::Percent),
        Mark::Plus => Some(Sign::Plus),
        Mark::Minus => Some(Sign::Minus),
        Mark::Concat => Some(Sign::Concat),
        Mark::Equal => Some(Sign::Equal),
        Mark::NotEqual => Some(Sign::NotEqual),
        Mark::Less => Some(Sign::Less),
        Mark::LessEqual => Some(Sign::LessEqual),
        Mark::Greater => Some(Sign::Greater),
        Mark::GreaterEqual => Some(Sign::GreaterEqual),
        Mark::And => Some(Sign::And),
        Mark::Or => Some(Sign::Or),
        _ => None,
    }
}

fn sign_in(word: &Word) -> Option<Sign>
    ensures { result ≡ sign_in word.now }
{
    match word {
        Word::Mark(mark) => mark_sign(*mark),
        _ => None,
    }
}

/// The operator that a word is before an operand, or `None` for other words.
pub fn prefix_in(word: &Word) -> Option<Sign>
    ensures { result ≡ prefix_in word.now }
{
    match word {
        Word::Mark(Mark::Minus) => Some(Sign::Minus),
        Word::Mark(Mark::Not) => Some(Sign::Not),
        _ => None,
    }
}

/// The operator that a word is, if it has this level.
pub fn sign_at(word: &Word, level: u8) -> Option<Sign>
    ensures { result ≡ (if level_in word.now == level then sign_in word.now else None) }
{
    if level_in(word) == level {
        sign_in(word)
    } else {
        None
    }
}

/// Which names are read.
#[derive(Clone, Copy)]
pub enum NameKind {
    /// A name that is no keyword.
    Plain,
    /// A name that may be declared: one that is no builtin's.
    Declared,
    /// The name of a builtin that is also a keyword.
    Builtin,
}

impl NameKind {
    /// The name of this kind that a word is, or `None`.
    pub fn name(self, word: &Word) -> Option<Name>
        ensures { result ≡ name_as self word.now }
    {
        match (self, word) {
            (NameKind::Plain, Word::Name(name)) => Some(*name),
            (NameKind::Declared, Word::Name(name)) => unless_builtin(name),
            (NameKind::Builtin, Word::Mark(Mark::Text)) => Some(text_name()),
            _ => None,
        }
    }
}

fn unless_builtin(name: &Name) -> Option<Name>
    ensures { result ≡ unless_builtin (is_builtin name.now) name.now }
{
    Builtin::of_name(name).is_none().then_some(*name)
}

fn text_name() -> Name
    ensures { result ≡ builtin_name builtins.Text }
{
    match Name::new(Builtin::Text.name()) {
        Ok(name) => name,
        Err(_) => unreachable!(),
    }
}
