//! The command `upgrade`: the log is marked.

ghost use Rattle.std.specs.Prelude.{◌≡◌, ℕ, Bool, List, Option, Some, IsErrOf};
ghost use Rattle.lc_base.specs.Faults.{HasCause};
ghost use Rattle.lc_io.specs.Disk.{Stays};
ghost use Rattle.disk_model.specs.Disk.{IsSettled, Keeps, content_of};
ghost use Rattle.block_codec.specs.Reading.{block_in};
ghost use Rattle.block_log.specs.Log.{next_in_log};
ghost use Rattle.chain_exec.specs.Compiled.{compiled_in};
ghost use Rattle.cli_append.specs.recovery.Node.{next_in_chain};
ghost use Rattle.cli_words.specs.declared.words.Command.TheVariants.{Upgrade};
ghost use Rattle.cli_output.specs.{
  Running.{IsRun, IsSilent, MayEnd, MayLeaveBy},
  Telling.{status_of_result, upgrade_answer},
};

use cli_append::{RunStop, open_log, upgrade};
use cli_lines::Ending;
use cli_output::{start_outcome, tell};
use disk_model::Disk;
use lc_base::Resources;
use lc_io::Wire;

/// How the command ends, by the result of marking the log.
fn upgrade_answer(answer: Result<(), RunStop>) -> Result<Ending, RunStop>
    ensures { result ≡ upgrade_answer answer }
{
    match answer {
        Ok(()) => Ok(Ending::Done),
        Err(stop) => Err(stop),
    }
}

/// Marks the log, and prints the number of its blocks, or that it was marked already. It begins
/// with a sync: so that a mark of which is printed that it is there rests on bytes that no crash
/// can take. It uses no scratch device.
pub fn upgrade_log<M: Disk + Wire>(resources: Resources, machine: &mut M) -> Result<Ending, RunStop>
    requires settled { IsSettled (M.disk machine.old (M.now machine.old)) }
    ensures run { (left : Option (List ℕ)) (held : Bool) → IsRun M.now M.disk M.told machine.old
        machine.new (status_of_result result) left left held block_in compiled_in (Some Upgrade) }
    ensures goes_on { (content : List ℕ)
        → content_of (M.disk machine.old (M.now machine.old)) ≡ Some content
        → Keeps M.now M.disk machine.old machine.new
        (MayLeaveBy next_in_chain (Some Upgrade) content) }
    ensures log_goes_on { (content : List ℕ)
        → content_of (M.disk machine.old (M.now machine.old)) ≡ Some content
        → Keeps M.now M.disk machine.old machine.new
        (MayLeaveBy next_in_log (Some Upgrade) content) }
    // If memory ran out, nothing was written.
    ensures unwritten { IsErrOf result RunStop.Memory → Stays M.now M.disk machine.old machine.new }
    ensures silent { IsSilent (status_of_result result) (M.told machine.old) (M.told machine.new) }
    ensures ends { MayEnd (status_of_result result) (Some Upgrade) }
    ensures reads { IsErrOf result RunStop.Unreadable → ⊥ }
    ensures keeps { IsErrOf result RunStop.ScratchFault → ⊥ }
    ensures disk_fault { HasCause (M.disk_faults machine.old) (M.disk_faults machine.new)
        (IsErrOf result RunStop.DiskFault) }
    ensures untold { HasCause (M.wire_faults machine.old) (M.wire_faults machine.new)
        (IsErrOf result RunStop.Untold) }
{
    let alloc = resources.alloc;
    match open_log(resources, machine) {
        Ok(log) => upgrade_answer(upgrade(alloc, machine, log)),
        Err(error) => tell(machine, start_outcome(alloc, error)),
    }
}
