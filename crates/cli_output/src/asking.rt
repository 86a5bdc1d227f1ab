//! The outcome for a block that a chain doesn't have.

ghost use Rattle.std.specs.Prelude.{◌≡◌, IfOk};
ghost use Rattle.cli_output.specs.{Output.{beyond_outcome}, Scanning.{EndsAsked}};

use cli_promises::{Ending, Outcome, beyond_line};
use lc_base::Memory;
use std::alloc::Global;

/// The outcome for a block past the head, or for a chain of no block.
pub fn beyond(alloc: Global, head: Option<u32>) -> Result<Outcome, Memory>
    ensures outcome { IfOk result (λ outcome. outcome ≡ beyond_outcome head) }
    ensures ends { IfOk result (λ outcome. EndsAsked outcome.ending) }
{
    Outcome::from_line(alloc, beyond_line(alloc, head)?, Ending::Beyond)
}
