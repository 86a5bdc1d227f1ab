//! The command `light`: the proofs that follow a light file in the input are checked by it, one
//! after another. It needs no log.

ghost use Rattle.std.specs.Prelude.{
  ◌≡◌,
  ℕ,
  List,
  [],
  ◌∷◌,
  Some,
  codes,
  IfOk,
  IfErr,
  IsErrOf,
  false,
};
ghost use Rattle.lc_base.specs.Faults.{HasCause};
ghost use Rattle.disk_model.specs.Leaving.{LeavesDisk};
ghost use Rattle.block_log.specs.Standing.{NextBlock};
ghost use Rattle.chain_input.specs.{Folding.{Whole}, Taking.{TakesInput}};
ghost use Rattle.cli_output.specs.{
  light_client.Format.{light_in},
  cli_lines.Outcome.{bad_input, outcome_with},
  cli_lines.Lines.{refused_line},
  Frames.{framed},
  Lights.{light_ending},
  Output.{checked_outcome, light_left, light_outcome},
  Running.{MayEnd},
  Telling.{Says, status_of_result},
};
ghost use Rattle.cli_words.specs.declared.words.Command.TheVariants.{Light};
ghost use Rattle.cli_proofs.specs.Checking.{ChecksProof};

use crate::taking::{Checker, Checks};
use chain_input::{Cause, InputEnd, InputStop, take_frames};
use cli_output::{
    Ending, LightError, LightFile, Outcome, OutcomeStop, RunStop, refused_line, tell,
};
use lc_io::{Source, Wire};
use std::alloc::Global;

/// The outcome for an input that doesn't begin with a light file.
fn no_file(alloc: Global) -> Result<Outcome, OutcomeStop>
    ensures outcome { IfOk result (λ outcome. outcome ≡ bad_input (codes "light")) }
    ensures stop { IfErr result (λ stop. stop ≡ OutcomeStop.Memory) }
{
    Ok(Outcome::bad_input(alloc, "light")?)
}

/// The outcome for a frame that is refused for its form.
fn refused(alloc: Global, frame: u32, cause: &Cause) -> Result<Outcome, OutcomeStop>
    ensures outcome { IfOk result (λ outcome. outcome
        ≡ outcome_with (refused_line frame cause.now ∷ []) Ending.Refused) }
    ensures stop { IfErr result (λ stop. stop ≡ OutcomeStop.Memory) }
{
    Ok(Outcome::from_line(alloc, refused_line(alloc, frame, cause)?, Ending::Refused)?)
}

/// How it ends where all frames were taken.
fn whole_ending(rejected: bool) -> Ending
    ensures { result ≡ light_ending rejected Whole }
{
    if rejected {
        Ending::Rejected
    } else {
        Ending::Done
    }
}

/// Checks the proofs that are left in the input one after another, and says how they end. The line
/// of a refused frame is not printed.
fn check_frames<I: Source, M: Wire>(
    alloc: Global,
    source: &mut I,
    machine: &mut M,
    file: LightFile,
) -> Result<InputEnd<Checks>, InputStop<RunStop>>
    ensures takes { TakesInput (ChecksProof M.now M.disk M.told M.disk_faults M.wire_faults) (record {
      left = I.left source.old;
      taker = machine.old;
      chain = record { file = file; count = 0; rejected = false };
    }) (I.left source.new) machine.new result }
    ensures disk { LeavesDisk M.now M.disk M.disk_faults machine.old machine.new }
    ensures unreadable { HasCause (I.source_faults source.old) (I.source_faults source.new)
        (IsErrOf result InputStop.Fault) }
    ensures untold { HasCause (M.wire_faults machine.old) (M.wire_faults machine.new)
        (IsErrOf result (InputStop.Taker RunStop.Untold)) }
    ensures reads { IsErrOf result (InputStop.Taker RunStop.Unreadable) → ⊥ }
    ensures writes { IsErrOf result (InputStop.Taker RunStop.DiskFault) → ⊥ }
    ensures keeps { IsErrOf result (InputStop.Taker RunStop.ScratchFault) → ⊥ }
{
    let mut checker = Checker { machine };
    let checks = Checks {
        file,
        count: 0,
        rejected: false,
    };
    take_frames(alloc, source, &mut checker, checks)
}

/// Checks the proofs that are left in the input one after another, up to a frame that is refused
/// for its form.
fn check_proofs<I: Source, M: Wire>(
    alloc: Global,
    source: &mut I,
    machine: &mut M,
    file: LightFile,
) -> Result<Ending, RunStop>
    // If it is known what the source has left:
    ensures says { (input : List ℕ) → I.left source.old ≡ Some input → (next : NextBlock)
        → Says next M.now M.disk M.told machine.old machine.new
        (checked_outcome file (framed input)) result }
    ensures leaves { (input : List ℕ) → I.left source.old ≡ Some input
        → IfOk result (λ ending. I.left source.new ≡ Some (framed input).left) }
    // Hold in either case.
    ensures ends { MayEnd (status_of_result result) (Some Light) }
    ensures disk { LeavesDisk M.now M.disk M.disk_faults machine.old machine.new }
    ensures unreadable { HasCause (I.source_faults source.old) (I.source_faults source.new)
        (IsErrOf result RunStop.Unreadable) }
    ensures untold { HasCause (M.wire_faults machine.old) (M.wire_faults machine.new)
        (IsErrOf result RunStop.Untold) }
    ensures writes { IsErrOf result RunStop.DiskFault → ⊥ }
    ensures keeps { IsErrOf result RunStop.ScratchFault → ⊥ }
{
    match check_frames(alloc, source, machine, file) {
        Ok(InputEnd::Whole(checks)) => Ok(whole_ending(checks.rejected)),
        Ok(InputEnd::Refused { frame, cause }) => tell(machine, refused(alloc, frame, &cause)),
        Err(InputStop::Fault) => Err(RunStop::Unreadable),
        Err(InputStop::Memory) => Err(RunStop::Memory),
        Err(InputStop::Taker(stop)) => Err(stop),
    }
}

/// Reads a light file, and checks the proofs that follow it in the input, one after another. The
/// lines of a proof are printed before the next one is read. A proof that is rejected doesn't end
/// it.
pub fn light<I: Source, M: Wire>(
    alloc: Global,
    source: &mut I,
    machine: &mut M,
) -> Result<Ending, RunStop>
    // If it is known what the source has left:
    ensures says { (input : List ℕ) → I.left source.old ≡ Some input → (next : NextBlock)
        → Says next M.now M.disk M.told machine.old machine.new
        (light_outcome (light_in input)) result }
    ensures leaves { (input : List ℕ) → I.left source.old ≡ Some input
        → IfOk result (λ ending. I.left source.new ≡ Some (light_left input (light_in input))) }
    // Hold in either case.
    ensures ends { MayEnd (status_of_result result) (Some Light) }
    ensures disk { LeavesDisk M.now M.disk M.disk_faults machine.old machine.new }
    ensures unreadable { HasCause (I.source_faults source.old) (I.source_faults source.new)
        (IsErrOf result RunStop.Unreadable) }
    ensures untold { HasCause (M.wire_faults machine.old) (M.wire_faults machine.new)
        (IsErrOf result RunStop.Untold) }
    ensures writes { IsErrOf result RunStop.DiskFault → ⊥ }
    ensures keeps { IsErrOf result RunStop.ScratchFault → ⊥ }
{
    match LightFile::read(alloc, source) {
        Ok(file) => check_proofs(alloc, source, machine, file),
        Err(LightError::Form) => tell(machine, no_file(alloc)),
        Err(LightError::Fault) => Err(RunStop::Unreadable),
        Err(LightError::Memory) => Err(RunStop::Memory),
    }
}
