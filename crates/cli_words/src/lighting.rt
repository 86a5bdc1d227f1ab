//! The words of commands about light files: `light make` and `light`.

ghost use Rattle.std.specs.Prelude.{[], ◌∷◌, map, string_bytes};
ghost use Rattle.cli_words.specs.Words.{IsLight};

use crate::single::is_text;
use crate::words::Command;

/// The command `light make` or `light`; `None` exactly if the words are no such command.
pub(crate) fn light_of(words: &[String]) -> Option<Command>
    ensures { IsLight (map string_bytes words.now) result }
{
    match words {
        [word] if is_text(word.as_str(), "light") => Some(Command::Light),
        [word, verb] if is_text(word.as_str(), "light") => {
            if !is_text(verb.as_str(), "make") {
                return None;
            }
            Some(Command::MakeLight)
        }
        _ => None,
    }
}
