//! The words of `pack`.

ghost use Rattle.std.specs.Prelude.{[], ◌∷◌, map, string_bytes};
ghost use Rattle.cli_words.specs.Words.{IsPack};

use crate::single::is_text;
use crate::words::BlockVersion;

/// The version of the command `pack` or `pack 2`; `None` exactly if the words are no such command.
pub(crate) fn pack_of(words: &[String]) -> Option<BlockVersion>
    ensures { IsPack (map string_bytes words.now) result }
{
    match words {
        [word] if is_text(word.as_str(), "pack") => Some(BlockVersion::First),
        [word, version] if is_text(word.as_str(), "pack") => {
            if !is_text(version.as_str(), "2") {
                return None;
            }
            Some(BlockVersion::Second)
        }
        _ => None,
    }
}
