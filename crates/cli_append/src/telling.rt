//! Printing lines: the disk stays as it is, so it goes on keeping what a line promises. Before a
//! line that says what the log holds already, and before a run ends well, the disk is looked at.

ghost use Rattle.std.specs.Prelude.{◌≡◌, [], ◌∷◌, IfOk, IsErr, IsErrOf, is_ok};
ghost use Rattle.lc_io.specs.Disk.{Stays};
ghost use Rattle.lc_base.specs.Faults.{HasCause};
ghost use Rattle.disk_model.specs.Leaving.{LeavesDisk, LeavesWire};
ghost use Rattle.block_log.specs.Standing.{NextBlock};
ghost use Rattle.cli_promises.specs.{
  cli_lines.Lines.{refused_line as refused_text},
  Promises.{Promise, plain, IsKeptAt, Telling},
};
ghost use Rattle.cli_append.specs.Steps.{TellsLine};

use chain_input::Cause;
use cli_promises::{RunEnd, RunStop, refused_line};
use disk_model::Disk;
use lc_base::Memory;
use lc_io::{Failed, Wire};
use std::alloc::Global;

/// Prints one line.
pub fn tell_line<M: Wire>(machine: &mut M, line: &[u8]) -> Result<(), Failed>
    // If each image of the disk keeps now what the line promises, each image since then keeps it.
    ensures lines { (next : NextBlock) (promise : Promise) → IsKeptAt next M.now M.disk machine.old
        promise
        → Telling next M.now M.disk M.told machine.old machine.new
        (record { text = line.now; promise = promise } ∷ []) (is_ok result) }
    ensures disk { LeavesDisk M.now M.disk M.disk_faults machine.old machine.new }
    ensures cause { HasCause (M.wire_faults machine.old) (M.wire_faults machine.new) (IsErr result) }
{
    machine.tell(line)
}

/// Prints a line of what was done just now: what was stored was looked at then.
fn tell_done<M: Disk + Wire>(machine: &mut M, line: &[u8]) -> Result<(), RunStop>
    ensures { TellsLine M.now M.disk M.told M.disk_faults M.wire_faults machine.old machine.new
        line.now result }
{
    match tell_line(machine, line) {
        Ok(()) => Ok(()),
        Err(Failed) => Err(RunStop::Untold),
    }
}

/// Looks at the disk. A log that is gone, or was changed by another program, is a fault here.
fn look<M: Disk>(machine: &mut M) -> Result<(), Failed>
    ensures disk { Stays M.now M.disk machine.old machine.new }
    ensures wire { LeavesWire M.told M.wire_faults machine.old machine.new }
    ensures cause { HasCause (M.disk_faults machine.old) (M.disk_faults machine.new)
        (IsErr result) }
{
    match machine.len() {
        Ok(_) => Ok(()),
        Err(Failed) => Err(Failed),
    }
}

/// Prints a line of what the log holds already, after a look at the disk.
pub(crate) fn tell_held<M: Disk + Wire>(machine: &mut M, line: &[u8]) -> Result<(), RunStop>
    ensures { TellsLine M.now M.disk M.told M.disk_faults M.wire_faults machine.old machine.new
        line.now result }
{
    match look(machine) {
        Ok(()) => tell_done(machine, line),
        Err(Failed) => Err(RunStop::DiskFault),
    }
}

/// Prints the line of a frame. That of a block that was known says what the log holds already.
pub(crate) fn tell_frame<M: Disk + Wire>(
    machine: &mut M,
    line: &[u8],
    is_known: bool,
) -> Result<(), RunStop>
    ensures { TellsLine M.now M.disk M.told M.disk_faults M.wire_faults machine.old machine.new
        line.now result }
{
    if is_known {
        return tell_held(machine, line);
    }
    tell_done(machine, line)
}

/// Ends a run that came to the end of its input, after a look at the disk.
pub(crate) fn end_whole<M: Disk + Wire>(machine: &mut M) -> Result<RunEnd, RunStop>
    ensures end { IfOk result (λ end. end ≡ RunEnd.Whole) }
    ensures disk { Stays M.now M.disk machine.old machine.new }
    ensures wire { LeavesWire M.told M.wire_faults machine.old machine.new }
    ensures disk_fault { HasCause (M.disk_faults machine.old) (M.disk_faults machine.new)
        (IsErrOf result RunStop.DiskFault) }
    ensures reads { IsErrOf result RunStop.Unreadable → ⊥ }
    ensures tells { IsErrOf result RunStop.Untold → ⊥ }
    ensures keeps { IsErrOf result RunStop.ScratchFault → ⊥ }
{
    match look(machine) {
        Ok(()) => Ok(RunEnd::Whole),
        Err(Failed) => Err(RunStop::DiskFault),
    }
}

/// Prints the line of a refused frame.
pub fn refuse<M: Wire>(
    alloc: Global,
    machine: &mut M,
    frame: u32,
    cause: Cause,
) -> Result<RunEnd, RunStop>
    ensures lines { (next : NextBlock) → Telling next M.now M.disk M.told machine.old machine.new
        (plain (refused_text frame cause) ∷ []) (is_ok result) }
    ensures end { IfOk result (λ end. end ≡ RunEnd.Refused frame cause) }
    ensures disk { LeavesDisk M.now M.disk M.disk_faults machine.old machine.new }
    ensures untold { HasCause (M.wire_faults machine.old) (M.wire_faults machine.new)
        (IsErrOf result RunStop.Untold) }
    ensures reads { IsErrOf result RunStop.Unreadable → ⊥ }
    ensures writes { IsErrOf result RunStop.DiskFault → ⊥ }
    ensures keeps { IsErrOf result RunStop.ScratchFault → ⊥ }
{
    match refused_line(alloc, frame, &cause) {
        Ok(line) => match tell_line(machine, line.as_bytes()) {
            Ok(()) => Ok(RunEnd::Refused { frame, cause }),
            Err(Failed) => Err(RunStop::Untold),
        },
        Err(Memory) => Err(RunStop::Memory),
    }
}
