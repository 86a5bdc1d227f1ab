//! The line for a proof that isn't accepted names the check that failed.

ghost use Rattle.std.specs.Prelude.{◌≡◌, [], ◌∷◌, ◌++◌, codes, string_bytes, IfOk};
ghost use Rattle.proof_commands.specs.Refusing.{refused_text, rejected_line};

use crate::lines::reject_text;
use crate::range_lines::range_reject_text;
use crate::trace_lines::trace_reject_text;
use crate::verification::Refused;
use lc_base::{Bytes, Memory};
use std::alloc::{AllocError, Global};

/// The words for the check that failed, by the kind of the proof's question.
fn refused_text(alloc: Global, refused: &Refused) -> Result<String, AllocError>
    ensures { IfOk result (λ text. string_bytes text ≡ refused_text refused.now) }
{
    match refused {
        Refused::Version(reject) => reject_text(alloc, reject),
        Refused::Ancestors(reject) => trace_reject_text(alloc, reject),
        Refused::Between(reject) => range_reject_text(alloc, *reject),
    }
}

fn line_of(alloc: Global, text: &str) -> Result<Bytes, Memory>
    ensures { IfOk result (λ bytes. bytes ≡ codes "rejected " ++ text.now ++ 10 ∷ []) }
{
    let line = format!(in alloc; "rejected {text}\n")?;
    Ok(Bytes::from_vec(line.into_bytes()))
}

/// The line to print for a proof that isn't accepted: `rejected`, the check that failed, and a line
/// end.
pub fn rejected_line(alloc: Global, refused: &Refused) -> Result<Bytes, Memory>
    ensures { IfOk result (λ bytes. bytes ≡ rejected_line refused.now) }
{
    let text = refused_text(alloc, refused)?;
    line_of(alloc, text.as_str())
}
