//! Lines of texts: a text, and the byte 0x0A.

ghost use Rattle.std.specs.Prelude.{◌≡◌, string_bytes, IfOk};
ghost use Rattle.cli_output.specs.cli_lines.Lines.{line};

use lc_base::{Bytes, Memory};

/// The text, and the byte that ends a line.
pub(crate) fn line_of(text: String) -> Result<Bytes, Memory>
    ensures { IfOk result (λ bytes. bytes ≡ line (string_bytes text)) }
{
    let mut bytes = text.into_bytes();
    bytes.push(b'\n')?;
    Ok(Bytes::from_vec(bytes))
}
