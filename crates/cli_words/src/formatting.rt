//! The words of `fmt`.

ghost use Rattle.std.specs.Prelude.{[], ◌∷◌, map, string_bytes};
ghost use Rattle.cli_words.specs.Words.{IsFmt};

use crate::single::is_text;
use crate::words::Edition;

/// The edition of the command `fmt` or `fmt 2`; `None` exactly if the words are no such command.
pub(crate) fn fmt_of(words: &[String]) -> Option<Edition>
    ensures { IsFmt (map string_bytes words.now) result }
{
    match words {
        [word] if is_text(word.as_str(), "fmt") => Some(Edition::First),
        [word, edition] if is_text(word.as_str(), "fmt") => {
            if !is_text(edition.as_str(), "2") {
                return None;
            }
            Some(Edition::Second)
        }
        _ => None,
    }
}
