//! The words that the program was started with: if one of them is no text, they are no command.

ghost use Rattle.std.specs.{
  Prelude.{◌≡◌, true, [], drop, Err, IfOk, IfErr, MatchOption, is_ok},
  Vec.Iter.{into_iter_items},
  IoError.{error_kind},
};
ghost use Rattle.chain_cli.specs.Words.{status_without_words};

use cli_lines::Status;
use lc_base::Memory;
use std::alloc::Global;
use std::env::Args;
use std::io::{self, ErrorKind};

/// The words after the first one, which is the program's name.
fn after_name(alloc: Global, args: Args) -> Result<Vec<String>, Memory>
    ensures { IfOk result (λ words. words.items ≡ drop 1 (into_iter_items args)) }
{
    let mut args = args;
    let mut words = Vec::new(alloc);
    let _name = args.next();
    'words: loop {
        match args.next() {
            Some(word) => words.push(word)?,
            None => return Ok(words),
        }
    }
}

/// The status of a program that could not read its words because memory ran out; `None` if a word
/// is no text.
fn status_without_words(kind: ErrorKind) -> Option<Status>
    ensures { result ≡ status_without_words kind }
{
    match kind {
        ErrorKind::OutOfMemory => Some(Status::Memory),
        _ => None,
    }
}

/// The words to run on, or the status to end with. If a word is no text the words are no command,
/// and none are returned.
pub fn words_of(alloc: Global, args: io::Result<Args>) -> Result<Vec<String>, Status>
    ensures words { IfOk args (λ args. IfOk result (λ words. words.items ≡ drop 1 (into_iter_items args))) }
    ensures no_words { IfErr args (λ error. MatchOption (status_without_words (error_kind error)) ((is_ok result ≡ true) × IfOk result (λ words. words.items ≡ [])) (λ status. result ≡ Err status)) }
    ensures memory { IfErr result (λ status. status ≡ Status.Memory) }
{
    match args {
        Ok(args) => match after_name(alloc, args) {
            Ok(words) => Ok(words),
            Err(Memory) => Err(Status::Memory),
        },
        Err(error) => match status_without_words(error.kind()) {
            Some(status) => Err(status),
            None => Ok(Vec::new(alloc)),
        },
    }
}
