//! Digests as text.

ghost use Rattle.std.specs.Prelude.{◌≡◌, ◌++◌, string_bytes, IfOk};
ghost use Rattle.hex.specs.Hex.{encode_lower};

use lc_base::Digest;
use std::alloc::{AllocError, Global};

/// A text of the word and then the digest in lower-case hex.
pub fn digest_text(alloc: Global, word: &str, digest: &Digest) -> Result<String, AllocError>
    ensures { IfOk result (λ text. string_bytes text ≡ word.now ++ encode_lower digest.now.0) }
{
    let hex = hex::encode(alloc, digest.0.as_slice())?;
    let hex = hex.as_str();
    format!(in alloc; "{word}{hex}")
}
