//! The command `upgrade`: the log is opened, over a disk that is synced, and marked before its line
//! is printed.

ghost use Rattle.std.specs.Prelude.{◌≡◌, ℕ, List, [], ◌∷◌, Some, IfErr, IfOk, IsErrOf, is_ok};
ghost use Rattle.lc_base.specs.Faults.{HasCause};
ghost use Rattle.lc_io.specs.Disk.{DiskState, Stays};
ghost use Rattle.disk_model.specs.{
  Disk.{IsImage, IsSettled, Keeps, Rests, content_of},
  Leaving.{LeavesDisk, LeavesWire},
};
ghost use Rattle.block_log.specs.{
  Standing.{Logged, NextBlock, chain_of, standing},
  Log.{Agrees, IsOldOrMarked, next_in_log},
};
ghost use Rattle.cli_promises.specs.{
  recovery.Node.{IsLogOf, IsLogStored, next_in_chain},
  Promises.{Promise, IsKeptAt, Telling},
  Appending.{Upgrades},
};

use crate::starting::settle;
use crate::telling::tell_line;
use block_log::DiskFault;
use cli_promises::{RunStop, StartError, StoredLog, already_upgraded_line, upgraded_line};
use disk_model::Disk;
use lc_base::{Bytes, Memory, Resources};
use lc_io::{Failed, Wire};
use std::alloc::Global;

/// The log on a disk, for a caller who marks it. It writes nothing, uses no scratch device, and
/// syncs the disk first, whatever is pending at entry: so a mark of which is then printed that it
/// is there rests on bytes that no crash can take.
pub fn open_log<M: Disk>(resources: Resources, machine: &mut M) -> Result<StoredLog, StartError>
    // If a log is returned, nothing is pending.
    ensures settled { IfOk result (λ log. IsSettled (M.disk machine.new (M.now machine.new))) }
    // The log is that of the chain that the content at entry stands for, or the content stands for
    // no chain.
    ensures answer { (content : List ℕ)
        → content_of (M.disk machine.old (M.now machine.old)) ≡ Some content
        → IsLogStored (M.disk machine.new (M.now machine.new)) (standing next_in_chain content)
        result }
    // Whether or not it is known what the disk holds, the log agrees with it.
    ensures agrees { IfOk result
        (λ log. Rests (M.disk machine.new (M.now machine.new)) (Agrees log)) }
    // Whatever is returned: the content is as it was; a crash at any moment leaves what one at
    // entry could have left; and if nothing was pending at entry, the disk stays as it is.
    ensures content { content_of (M.disk machine.new (M.now machine.new)) ≡ content_of
        (M.disk machine.old (M.now machine.old)) }
    ensures images { (state : DiskState) → M.disk machine.old (M.now machine.old) ≡ Some state
        → Keeps M.now M.disk machine.old machine.new (IsImage state) }
    ensures stays { IsSettled (M.disk machine.old (M.now machine.old)) → Stays M.now M.disk
        machine.old machine.new }
    ensures wire { LeavesWire M.told M.wire_faults machine.old machine.new }
    ensures disk_fault { HasCause (M.disk_faults machine.old) (M.disk_faults machine.new)
        (IsErrOf result StartError.DiskFault) }
    ensures no_scratch_fault { IsErrOf result StartError.ScratchFault → ⊥ }
{
    match settle(machine) {
        Ok(()) => StoredLog::open(resources, machine),
        Err(Failed) => Err(StartError::DiskFault),
    }
}

/// Prints the line of a log that is marked.
fn tell_marked<M: Wire>(machine: &mut M, line: &Bytes) -> Result<(), RunStop>
    ensures lines { (next : NextBlock) (promise : Promise) → IsKeptAt next M.now M.disk machine.old
        promise
        → Telling next M.now M.disk M.told machine.old machine.new
        (record { text = line.now; promise = promise } ∷ []) (is_ok result) }
    ensures stop { IfErr result (λ stop. stop ≡ RunStop.Untold) }
    ensures disk { LeavesDisk M.now M.disk M.disk_faults machine.old machine.new }
    ensures untold { HasCause (M.wire_faults machine.old) (M.wire_faults machine.new)
        (IsErrOf result RunStop.Untold) }
{
    match tell_line(machine, line.as_bytes()) {
        Ok(()) => Ok(()),
        Err(Failed) => Err(RunStop::Untold),
    }
}

/// Drops a log. The memory that it takes is free then for the line of one that is marked.
fn discard(_log: StoredLog) {}

/// Marks a log, and then prints its line. A log that is marked already stays as it is. Memory for
/// the line is taken before the mark is written.
pub fn upgrade<M: Disk + Wire>(
    alloc: Global,
    machine: &mut M,
    log: StoredLog,
) -> Result<(), RunStop>
    requires agrees { Rests (M.disk machine.old (M.now machine.old)) (Agrees log) }
    // If the log is that of a chain, it is marked, and that is printed.
    ensures upgrades { (logged : Logged) → IsLogOf log (M.disk machine.old (M.now machine.old))
        logged → Upgrades M.now M.disk M.told machine.old machine.new logged result }
    // Whether or not it is, if the disk is known: a crash at any moment leaves the chain from
    // before, marked or as it was, with rows not counted.
    ensures log_images { (content : List ℕ) (logged : Logged)
        → content_of (M.disk machine.old (M.now machine.old)) ≡ Some content
        → chain_of next_in_log content ≡ Some logged → Keeps M.now M.disk machine.old machine.new
        (IsOldOrMarked next_in_log logged) }
    // If memory ran out, nothing was written.
    ensures unwritten { IsErrOf result RunStop.Memory → Stays M.now M.disk machine.old machine.new }
    // Nothing was printed if the disk failed or memory ran out.
    ensures silent_disk { IsErrOf result RunStop.DiskFault → M.told machine.new ≡ M.told machine.old }
    ensures silent_memory { IsErrOf result RunStop.Memory → M.told machine.new ≡ M.told machine.old }
    // A disk or a wire is blamed exactly if it failed, and no other.
    ensures disk_fault { HasCause (M.disk_faults machine.old) (M.disk_faults machine.new)
        (IsErrOf result RunStop.DiskFault) }
    ensures untold { HasCause (M.wire_faults machine.old) (M.wire_faults machine.new)
        (IsErrOf result RunStop.Untold) }
    ensures reads { IsErrOf result RunStop.Unreadable → ⊥ }
    ensures keeps { IsErrOf result RunStop.ScratchFault → ⊥ }
{
    if log.marked() {
        discard(log);
        return match already_upgraded_line(alloc) {
            Ok(line) => tell_marked(machine, &line),
            Err(Memory) => Err(RunStop::Memory),
        };
    }
    match upgraded_line(alloc, log.blocks()) {
        Ok(line) => match log.mark(machine) {
            Ok(()) => tell_marked(machine, &line),
            Err(DiskFault) => Err(RunStop::DiskFault),
        },
        Err(Memory) => Err(RunStop::Memory),
    }
}
