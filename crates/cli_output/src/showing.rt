//! The lines of what is shown for a question.

ghost use Rattle.std.specs.Prelude.{◌≡◌, IfOk};
ghost use Rattle.cli_output.specs.Questions.{shown_lines};

use cli_promises::{answer_lines, range_lines, trace_lines};
use lc_base::{Bytes, Memory, Seq};
use proof_commands::Shown;
use std::alloc::Global;

/// The lines of what is shown, by its kind.
pub fn shown_lines(alloc: Global, shown: &Shown) -> Result<Seq<Bytes>, Memory>
    ensures { IfOk result (λ lines. lines ≡ shown_lines shown.now) }
{
    match shown {
        Shown::Answer(answer) => answer_lines(alloc, answer),
        Shown::Ancestors(trace) => trace_lines(alloc, trace),
        Shown::Versions(versions) => range_lines(alloc, versions.as_slice()),
    }
}
