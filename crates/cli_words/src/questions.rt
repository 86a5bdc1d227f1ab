//! The words of questions: over the input, and over the log.

ghost use Rattle.std.specs.Prelude.{[], ◌∷◌, map, string_bytes, codes};
ghost use Rattle.cli_words.specs.Words.{IsQueryOf, IsNamedBy, IsScan, IsAsk, IsRoot};

use crate::question::{Asked, Question};
use crate::single::{blocks_of, is_text, key_of, kind_of, number_of};
use crate::words::Command;
use lc_base::Query;

/// The question that three words name: its kind, its key and its block; `None` if they name none.
pub(crate) fn query_of(kind: &str, key: &str, at: &str) -> Option<Query>
    ensures { IsQueryOf (kind.now ∷ key.now ∷ at.now ∷ []) result }
{
    let kind = kind_of(kind)?;
    let key = key_of(key)?;
    match number_of(at) {
        Some(at) => Some(Query { kind, key, at }),
        None => None,
    }
}

/// The question about a version that the words KIND, KEY and BLOCK name.
pub(crate) fn version_of(kind: &str, key: &str, at: &str) -> Option<Question>
    ensures { IsNamedBy [] (kind.now ∷ key.now ∷ at.now ∷ []) result }
{
    match query_of(kind, key, at) {
        Some(query) => Some(Question::Version(query)),
        None => None,
    }
}

/// The question about ancestors that the words KEY and BLOCK name.
pub(crate) fn ancestors_of(key: &str, at: &str) -> Option<Question>
    ensures { IsNamedBy (codes "trace" ∷ []) (key.now ∷ at.now ∷ []) result }
{
    let key = key_of(key)?;
    match number_of(at) {
        Some(at) => Some(Question::Ancestors { key, at }),
        None => None,
    }
}

/// The question about versions between two blocks that the words KEY, FROM and TO name.
pub(crate) fn between_of(key: &str, from: &str, to: &str) -> Option<Question>
    ensures { IsNamedBy (codes "range" ∷ []) (key.now ∷ from.now ∷ to.now ∷ []) result }
{
    let key = key_of(key)?;
    match blocks_of(from, to) {
        Some((from, to)) => Some(Question::Between { key, from, to }),
        None => None,
    }
}

/// The question of the command `scan KIND KEY BLOCK`; `None` exactly if the words are no such
/// command.
pub(crate) fn scan_of(words: &[String]) -> Option<Query>
    ensures { IsScan (map string_bytes words.now) result }
{
    match words {
        [word, kind, key, at] if is_text(word.as_str(), "scan") => {
            query_of(kind.as_str(), key.as_str(), at.as_str())
        }
        _ => None,
    }
}

/// What the command `KIND KEY`, `KIND KEY BLOCK`, `trace KEY BLOCK` or `range KEY FROM TO` asks;
/// `None` exactly if the words are no such command.
pub(crate) fn ask_of(words: &[String]) -> Option<Asked>
    ensures { IsAsk (map string_bytes words.now) result }
{
    match words {
        [kind, key] => {
            let kind = kind_of(kind.as_str())?;
            match key_of(key.as_str()) {
                Some(key) => Some(Asked::AtLast { kind, key }),
                None => None,
            }
        }
        [word, key, at] if is_text(word.as_str(), "trace") => {
            match ancestors_of(key.as_str(), at.as_str()) {
                Some(question) => Some(Asked::At(question)),
                None => None,
            }
        }
        [kind, key, at] => match version_of(kind.as_str(), key.as_str(), at.as_str()) {
            Some(question) => Some(Asked::At(question)),
            None => None,
        },
        [word, key, from, to] if is_text(word.as_str(), "range") => {
            match between_of(key.as_str(), from.as_str(), to.as_str()) {
                Some(question) => Some(Asked::At(question)),
                None => None,
            }
        }
        _ => None,
    }
}

/// The command `root` or `root BLOCK`; `None` exactly if the words are no such command.
pub(crate) fn root_of(words: &[String]) -> Option<Command>
    ensures { IsRoot (map string_bytes words.now) result }
{
    match words {
        [word] if is_text(word.as_str(), "root") => Some(Command::Root(None)),
        [word, at] if is_text(word.as_str(), "root") => match number_of(at.as_str()) {
            Some(at) => Some(Command::Root(Some(at))),
            None => None,
        },
        _ => None,
    }
}
