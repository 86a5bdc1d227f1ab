//! The command `light make`: the light file of the log.

ghost use Rattle.std.specs.Prelude.{◌≡◌, ℕ, List, Option, Some, IsErrOf};
ghost use Rattle.lc_base.specs.Faults.{HasCause};
ghost use Rattle.lc_io.specs.{Disk.{Stays}, Scratch.{is_known}};
ghost use Rattle.disk_model.specs.Disk.{IsSettled};
ghost use Rattle.block_codec.specs.Reading.{block_in};
ghost use Rattle.chain_exec.specs.Compiled.{compiled_in};
ghost use Rattle.cli_words.specs.declared.words.Command.TheVariants.{MakeLight};
ghost use Rattle.cli_output.specs.{
  Running.{IsRun, MayEnd},
  Telling.{status_of_result},
};

use cli_append::{RunStop, stored_roots};
use cli_lines::Ending;
use cli_output::{start_outcome, tell};
use cli_proofs::make_light as tell_light;
use disk_model::Disk;
use lc_base::Resources;
use lc_io::{Scratch, Wire};

/// Prints the light file of the log's blocks, piece by piece; or that the disk holds no log.
pub fn make_light<M: Disk + Wire, S: Scratch>(
    resources: Resources,
    machine: &mut M,
    scratch: &mut S,
) -> Result<Ending, RunStop>
    requires settled { IsSettled (M.disk machine.old (M.now machine.old)) }
    ensures run { (left : Option (List ℕ)) → IsRun M.now M.disk M.told machine.old machine.new
        (status_of_result result) left left (is_known (S.state scratch.old)) block_in compiled_in
        (Some MakeLight) }
    ensures stays { Stays M.now M.disk machine.old machine.new }
    ensures ends { MayEnd (status_of_result result) (Some MakeLight) }
    ensures reads { IsErrOf result RunStop.Unreadable → ⊥ }
    ensures untold { HasCause (M.wire_faults machine.old) (M.wire_faults machine.new)
        (IsErrOf result RunStop.Untold) }
    ensures disk_fault { HasCause (M.disk_faults machine.old) (M.disk_faults machine.new)
        (IsErrOf result RunStop.DiskFault) }
    ensures scratch_fault { HasCause (S.scratch_faults scratch.old) (S.scratch_faults scratch.new)
        (IsErrOf result RunStop.ScratchFault) }
{
    let alloc = resources.alloc;
    match stored_roots(resources, machine, scratch) {
        Ok(chain) => {
            let lineage = chain.into_lineage();
            let ending = tell_light(alloc, &lineage, machine);
            lineage.give_up();
            ending
        }
        Err(error) => tell(machine, start_outcome(alloc, error)),
    }
}
