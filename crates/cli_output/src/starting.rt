//! What is printed where nothing can be started: the disk holds no log, or a damaged one.

ghost use Rattle.std.specs.Prelude.{◌≡◌, [], ◌∷◌, Ok, IfOk, IsErrOf};
ghost use Rattle.cli_promises.specs.recovery.declared.errors.StartError.TheVariants as starts;
ghost use Rattle.cli_promises.specs.{
  cli_lines.Lines.{not_a_log_line, damaged_line},
  cli_lines.Outcome.{outcome_with},
};
ghost use Rattle.cli_output.specs.Telling.{start_outcome};

use crate::stop::OutcomeStop;
use cli_promises::{Ending, Outcome, StartError, damaged_line, not_a_log_line};
use lc_base::Memory;
use std::alloc::Global;

/// The outcome for a disk that holds something other than a log.
fn not_a_log(alloc: Global) -> Result<Outcome, Memory>
    ensures { IfOk result (λ outcome. outcome ≡ outcome_with (not_a_log_line ∷ []) Ending.NotALog) }
{
    Outcome::from_line(alloc, not_a_log_line(alloc)?, Ending::NotALog)
}

/// The outcome for a log that is damaged at this offset.
fn damaged_outcome(alloc: Global, at: u64) -> Result<Outcome, Memory>
    ensures { IfOk result (λ outcome. outcome ≡ outcome_with (damaged_line at ∷ []) Ending.Damaged) }
{
    Outcome::from_line(alloc, damaged_line(alloc, at)?, Ending::Damaged)
}

/// What is found where nothing could be started: that there is no log to read, or why the command
/// stops. Memory may run out too.
pub fn start_outcome(alloc: Global, error: StartError) -> Result<Outcome, OutcomeStop>
    ensures outcome { IfOk result (λ outcome. start_outcome error ≡ Ok outcome) }
    ensures reads { IsErrOf result OutcomeStop.Unreadable → ⊥ }
    ensures disk_fault { IsErrOf result OutcomeStop.DiskFault → error ≡ starts.DiskFault }
    ensures disk_blamed { error ≡ starts.DiskFault → IsErrOf result OutcomeStop.DiskFault }
    ensures scratch_fault { IsErrOf result OutcomeStop.ScratchFault → error ≡ starts.ScratchFault }
    ensures scratch_blamed { error ≡ starts.ScratchFault → IsErrOf result OutcomeStop.ScratchFault }
{
    match error {
        StartError::NotALog => Ok(not_a_log(alloc)?),
        StartError::Damaged { at } => Ok(damaged_outcome(alloc, at)?),
        StartError::DiskFault => Err(OutcomeStop::DiskFault),
        StartError::ScratchFault => Err(OutcomeStop::ScratchFault),
        StartError::Memory => Err(OutcomeStop::Memory),
    }
}
