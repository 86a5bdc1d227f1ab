//! Judging one proof by a light file: the lines that are printed of it.

ghost use Rattle.std.specs.Prelude.{IfOk};
ghost use Rattle.cli_output.specs.light_client.Checking.{light_verdict};
ghost use Rattle.cli_proofs.specs.Checking.{IsJudged};

use crate::light_lines::{accepted_lines, rejected_lines};
use cli_output::{LightFile, check};
use lc_base::{Bytes, Memory, Seq};
use std::alloc::Global;

/// The lines of a proof.
#[derive(Drop)]
pub(crate) struct Judged {
    pub lines: Seq<Bytes>,
    /// Whether it was rejected.
    pub rejected: bool,
}

/// Checks a proof by a light file. Its number is `index`.
pub(crate) fn judge(
    alloc: Global,
    file: &LightFile,
    index: u32,
    proof: &[u8],
) -> Result<Judged, Memory>
    ensures { IfOk result (λ judged.
        IsJudged index (light_verdict file.now proof.now) judged.lines judged.rejected) }
{
    match check(file, proof) {
        Ok(checked) => Ok(Judged {
            lines: accepted_lines(alloc, index, &checked)?,
            rejected: false,
        }),
        Err(reject) => Ok(Judged {
            lines: rejected_lines(alloc, index, &reject)?,
            rejected: true,
        }),
    }
}
