//! The words of commands about proofs: `prove` and `verify`, of each kind of question, and
//! `expose`.

ghost use Rattle.std.specs.Prelude.{◌≡◌, ◌↔◌, [], ◌∷◌, map, string_bytes, codes, IsTrue};
ghost use Rattle.cli_words.specs.Words.{IsProveAt, IsProve, IsVerifyUnder, IsVerify, IsExpose};

use crate::question::Question;
use crate::questions::{ancestors_of, between_of, query_of, version_of};
use crate::single::{digest_of, is_text, number_of};
use crate::words::Command;

/// Whether the first of two words is that of a kind of question, and the second one is the verb.
fn is_form(first: &str, second: &str, lead: &str, verb: &str) -> bool
    ensures { IsTrue result ↔ ((first.now ≡ lead.now) × (second.now ≡ verb.now)) }
{
    is_text(first, lead) && is_text(second, verb)
}

/// The command for a proof about a question, if there is one, for the root at the block that a text
/// spells.
fn prove_at(question: Option<Question>, root_at: &str) -> Option<Command>
    ensures { IsProveAt question root_at.now result }
{
    let question = question?;
    match number_of(root_at) {
        Some(root_at) => Some(Command::Prove { question, root_at }),
        None => None,
    }
}

/// The command `prove KIND KEY BLOCK ROOTBLOCK`, `trace prove KEY BLOCK ROOTBLOCK` or
/// `range prove KEY FROM TO ROOTBLOCK`; `None` exactly if the words are no such command.
pub(crate) fn prove_of(words: &[String]) -> Option<Command>
    ensures { IsProve (map string_bytes words.now) result }
{
    match words {
        [word, kind, key, at, root_at] if is_text(word.as_str(), "prove") => {
            let question = version_of(kind.as_str(), key.as_str(), at.as_str());
            prove_at(question, root_at.as_str())
        }
        [lead, verb, key, at, root_at] if is_form(lead.as_str(), verb.as_str(), "trace", "prove") =>
            { prove_at(ancestors_of(key.as_str(), at.as_str()), root_at.as_str()) }
        [lead, verb, key, from, to, root_at]
            if is_form(lead.as_str(), verb.as_str(), "range", "prove") => {
            let question = between_of(key.as_str(), from.as_str(), to.as_str());
            prove_at(question, root_at.as_str())
        }
        _ => None,
    }
}

/// The command that verifies a proof about a question, if there is one, under the root that a text
/// spells.
fn verify_under(root: &str, question: Option<Question>) -> Option<Command>
    ensures { IsVerifyUnder root.now question result }
{
    let question = question?;
    match digest_of(root) {
        Some(root) => Some(Command::Verify { root, question }),
        None => None,
    }
}

/// The command `verify ROOT KIND KEY BLOCK`, `trace verify ROOT KEY BLOCK` or
/// `range verify ROOT KEY FROM TO`; `None` exactly if the words are no such command.
pub(crate) fn verify_of(words: &[String]) -> Option<Command>
    ensures { IsVerify (map string_bytes words.now) result }
{
    match words {
        [word, root, kind, key, at] if is_text(word.as_str(), "verify") => {
            let question = version_of(kind.as_str(), key.as_str(), at.as_str());
            verify_under(root.as_str(), question)
        }
        [lead, verb, root, key, at] if is_form(lead.as_str(), verb.as_str(), "trace", "verify") => {
            verify_under(root.as_str(), ancestors_of(key.as_str(), at.as_str()))
        }
        [lead, verb, root, key, from, to]
            if is_form(lead.as_str(), verb.as_str(), "range", "verify") => {
            let question = between_of(key.as_str(), from.as_str(), to.as_str());
            verify_under(root.as_str(), question)
        }
        _ => None,
    }
}

/// The command `expose ROOT KIND KEY BLOCK ROOTBLOCK`; `None` exactly if the words are no such
/// command.
pub(crate) fn expose_of(words: &[String]) -> Option<Command>
    ensures { IsExpose (map string_bytes words.now) result }
{
    match words {
        [word, root, kind, key, at, root_at] if is_text(word.as_str(), "expose") => {
            expose_words(
                root.as_str(),
                kind.as_str(),
                key.as_str(),
                at.as_str(),
                root_at.as_str(),
            )
        }
        _ => None,
    }
}

/// The same, from the words after the first.
fn expose_words(root: &str, kind: &str, key: &str, at: &str, root_at: &str) -> Option<Command>
    ensures { IsExpose (codes "expose" ∷ root.now ∷ kind.now ∷ key.now ∷ at.now ∷ root_at.now ∷ []) result }
{
    let root = digest_of(root)?;
    let query = query_of(kind, key, at)?;
    match number_of(root_at) {
        Some(root_at) => Some(Command::Expose {
            root,
            query,
            root_at,
        }),
        None => None,
    }
}
