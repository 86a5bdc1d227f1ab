//! Printing outcomes: a command that stops without one has printed nothing.

ghost use Rattle.std.specs.Prelude.{
  ◌≡◌,
  [],
  ◌∷◌,
  map,
  is_ok,
  IfOk,
  IfErr,
  IsErr,
  IsErrOf,
  Option,
  Err,
};
ghost use Rattle.lc_base.specs.Faults.{HasCause};
ghost use Rattle.disk_model.specs.Leaving.{LeavesDisk};
ghost use Rattle.block_log.specs.Standing.{NextBlock};
ghost use Rattle.cli_promises.specs.{Promises.{plain, Telling}, cli_lines.Lines.{usage_line}};
ghost use Rattle.cli_words.specs.declared.words.Command.{Command};
ghost use Rattle.cli_output.specs.{
  Running.{IsSilent, MayEnd},
  Telling.{OnlyTells, Says, Tells, status_of_found, status_of_result, status_of_usage},
};
ghost use Rattle.cli_output.specs.declared.stop.OutcomeStop.TheVariants as outcomes;

use crate::stop::OutcomeStop;
use cli_promises::{Ending, Outcome, RunStop, usage_line};
use lc_base::{Bytes, Memory};
use lc_io::{Failed, Wire};
use std::alloc::Global;

/// Prints each piece by a call of its own, in order.
pub fn tell_all<M: Wire>(machine: &mut M, pieces: &[Bytes]) -> Result<(), Failed>
    ensures lines { (next : NextBlock) → Telling next M.now M.disk M.told machine.old machine.new (map plain pieces.now) (is_ok result) }
    ensures disk { LeavesDisk M.now M.disk M.disk_faults machine.old machine.new }
    ensures cause { HasCause (M.wire_faults machine.old) (M.wire_faults machine.new) (IsErr result) }
{
    for piece in pieces {
        match machine.tell(piece.as_bytes()) {
            Ok(()) => {}
            Err(Failed) => return Err(Failed),
        }
    }
    Ok(())
}

/// Prints the pieces of an outcome.
fn tell_outcome<M: Wire>(machine: &mut M, outcome: &Outcome) -> Result<Ending, RunStop>
    ensures says { (next : NextBlock) → Says next M.now M.disk M.told machine.old machine.new outcome.now result }
    ensures stop { IfErr result (λ stop. stop ≡ RunStop.Untold) }
    ensures disk { LeavesDisk M.now M.disk M.disk_faults machine.old machine.new }
    ensures cause { HasCause (M.wire_faults machine.old) (M.wire_faults machine.new) (IsErrOf result RunStop.Untold) }
{
    match tell_all(machine, outcome.pieces.as_slice()) {
        Ok(()) => Ok(outcome.ending),
        Err(Failed) => Err(RunStop::Untold),
    }
}

/// Prints what a command found, or returns why it found no outcome: then nothing is printed.
pub fn tell<M: Wire>(
    machine: &mut M,
    found: Result<Outcome, OutcomeStop>,
) -> Result<Ending, RunStop>
    ensures tells { (next : NextBlock) → Tells next M.now M.disk M.told machine.old machine.new found result }
    ensures ends { (command : Option Command) → MayEnd (status_of_found found) command → MayEnd (status_of_result result) command }
    ensures silent { IsSilent (status_of_result result) (M.told machine.old) (M.told machine.new) }
    ensures unreadable { IsErrOf result RunStop.Unreadable → found ≡ Err outcomes.Unreadable }
    ensures unread { found ≡ Err outcomes.Unreadable → IsErrOf result RunStop.Unreadable }
    ensures disk_fault { IsErrOf result RunStop.DiskFault → found ≡ Err outcomes.DiskFault }
    ensures disk_blamed { found ≡ Err outcomes.DiskFault → IsErrOf result RunStop.DiskFault }
    ensures scratch_fault { IsErrOf result RunStop.ScratchFault → found ≡ Err outcomes.ScratchFault }
    ensures scratch_blamed { found ≡ Err outcomes.ScratchFault → IsErrOf result RunStop.ScratchFault }
    ensures disk { LeavesDisk M.now M.disk M.disk_faults machine.old machine.new }
    ensures cause { HasCause (M.wire_faults machine.old) (M.wire_faults machine.new) (IsErrOf result RunStop.Untold) }
{
    match found {
        Ok(outcome) => tell_outcome(machine, &outcome),
        Err(stop) => Err(stop.run_stop()),
    }
}

/// Prints `usage`.
pub fn tell_usage<M: Wire>(alloc: Global, machine: &mut M) -> Result<(), RunStop>
    ensures lines { (next : NextBlock) → Telling next M.now M.disk M.told machine.old machine.new (plain usage_line ∷ []) (is_ok result) }
    ensures silent { IsSilent (status_of_usage result) (M.told machine.old) (M.told machine.new) }
    ensures only { OnlyTells result }
    ensures disk { LeavesDisk M.now M.disk M.disk_faults machine.old machine.new }
    ensures cause { HasCause (M.wire_faults machine.old) (M.wire_faults machine.new) (IsErrOf result RunStop.Untold) }
{
    match usage_line(alloc) {
        Ok(line) => match tell_all(machine, &[line]) {
            Ok(()) => Ok(()),
            Err(Failed) => Err(RunStop::Untold),
        },
        Err(Memory) => Err(RunStop::Memory),
    }
}
