//! A run over the host: on the words that the program was started with, and with resources, if
//! these could be had.

ghost use Rattle.std.specs.{
  Prelude.{◌≡◌, [], drop, map, string_bytes, Option, IfOk, IfErr, IfSome},
  Vec.Iter.{into_iter_items},
  IoError.{error_kind},
};
ghost use Rattle.cli_words.specs.{declared.words.Command.{Command}, Words.{IsCommand}};
ghost use Rattle.cli_output.specs.Running.{MayEnd};
ghost use Rattle.chain_cli.specs.{Keyless.{MayEndKeyless}, Words.{status_without_words}};

use crate::edge::{run_on_words, tell_usage_on_host};
use crate::words::words_of;
use cli_lines::Status;
use cli_words::command_of;
use lc_base::Resources;
use std::env::Args;
use std::io;

/// Ends a run that has no resources: words that are no command print `usage`, as they always do,
/// and no command runs.
fn end_without_resources(rt: &HostRuntime, words: &[String]) -> Status
    ensures ends { (command : Option Command) → IsCommand (map string_bytes words.now) command
        → MayEndKeyless result command }
{
    match command_of(words) {
        Some(_) => Status::Unreadable,
        None => tell_usage_on_host(rt),
    }
}

/// Runs on the words with these resources, if they could be had.
fn run_with(rt: &HostRuntime, resources: io::Result<Resources>, words: &[String]) -> Status
    ensures ends { IfOk resources (λ resources. (command : Option Command)
        → IsCommand (map string_bytes words.now) command → MayEnd result command) }
    ensures no_resources { IfErr resources (λ error. (command : Option Command)
        → IsCommand (map string_bytes words.now) command → MayEndKeyless result command) }
{
    match resources {
        Ok(resources) => run_on_words(rt, resources, words),
        Err(_) => end_without_resources(rt, words),
    }
}

/// Runs on the words that the program was started with, without the program's name. The scratch
/// file has no name except for an instant; if the system leaves it one, the name is removed at the
/// end if that is possible.
pub fn run_on_host(
    rt: &HostRuntime,
    args: io::Result<Args>,
    resources: io::Result<Resources>,
) -> Status
    // Each command ends only with a status that it may end with.
    ensures ends { IfOk resources (λ resources. IfOk args (λ args. (command : Option Command)
        → IsCommand (map string_bytes (drop 1 (into_iter_items args))) command
        → MayEnd result command)) }
    // If no random keys could be read, no command runs: the program ends as after any read that
    // failed, unless there is no memory for the words either. Words that are no command end it as
    // they always do.
    ensures no_resources { IfErr resources (λ error. IfOk args (λ args. (command : Option Command)
        → IsCommand (map string_bytes (drop 1 (into_iter_items args))) command
        → MayEndKeyless result command)) }
    // So do words of which one is no text.
    ensures no_words { IfErr resources (λ error. IfErr args (λ error. (command : Option Command)
        → IsCommand [] command → MayEndKeyless result command)) }
    // If there is no memory for the words, the program ends with the status for that.
    ensures memory { IfErr args
        (λ error. IfSome (status_without_words (error_kind error)) (λ status. result ≡ status)) }
{
    match words_of(rt.alloc(), args) {
        Ok(words) => run_with(rt, resources, &words),
        Err(status) => status,
    }
}
