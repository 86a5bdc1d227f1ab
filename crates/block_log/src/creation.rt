//! Making the head of a log, in an order by which a crash leaves no block.

ghost use Rattle.std.specs.{
  Prelude.{◌≡◌, false, List, ℕ, Some, IfOk, IsErr},
  Option.{is_some},
};
ghost use Rattle.lc_base.specs.Faults.{HasCause};
ghost use Rattle.disk_model.specs.{Disk.{Keeps, Rests, content_of}, Leaving.{LeavesWire}};
ghost use Rattle.block_log.specs.{
  Standing.{NextBlock, nothing_logged, chain_of},
  Log.{Agrees, IsBlank, log_with_head},
  Steps.{HasClosedHead, IsPrepared, MakesHead},
};

use crate::error::DiskFault;
use crate::layout::{CLOSED_GATE, FIRST_GATE, MAGIC, OPEN_GATE};
use crate::log::Log;
use crate::steps::write_through;
use disk_model::Disk;

// The first step. Without it a crash could leave an open head gate and the magic before the gate of
// the first record is written.
fn close_head<M: Disk>(machine: &mut M, is_begun: bool) -> Result<(), DiskFault>
    requires blank { Rests (M.disk machine.old (M.now machine.old)) (IsBlank is_begun) }
    ensures makes { MakesHead M.now M.disk HasClosedHead machine.old machine.new result }
    ensures wire { LeavesWire M.told M.wire_faults machine.old machine.new }
    ensures cause { HasCause (M.disk_faults machine.old) (M.disk_faults machine.new) (IsErr result) }
{
    if is_begun {
        return Ok(());
    }
    write_through(machine, 0, &[CLOSED_GATE])
}

// The first two steps.
fn prepare<M: Disk>(machine: &mut M, is_begun: bool) -> Result<(), DiskFault>
    requires blank { Rests (M.disk machine.old (M.now machine.old)) (IsBlank is_begun) }
    ensures makes { MakesHead M.now M.disk IsPrepared machine.old machine.new result }
    ensures wire { LeavesWire M.told M.wire_faults machine.old machine.new }
    ensures cause { HasCause (M.disk_faults machine.old) (M.disk_faults machine.new) (IsErr result) }
{
    close_head(machine, is_begun)?;
    let mut head = [CLOSED_GATE; MAGIC.len() + 1];
    head[..MAGIC.len()].copy_from_slice(&MAGIC);
    write_through(machine, 1, &head)
}

impl Log {
    /// Makes the head of a log on a disk that holds none, in three steps of a write and a sync
    /// each: it closes the head gate (skipped if the first byte is 0), writes the magic and the
    /// closed gate of the first record, and opens the head gate. It takes no memory.
    pub fn create<M: Disk>(self, machine: &mut M) -> Result<Log, DiskFault>
        requires headless { self.is_ready ≡ false }
        requires agrees { Rests (M.disk machine.old (M.now machine.old)) (Agrees self) }
        ensures created { IfOk result (λ log. log ≡ log_with_head self) }
        ensures agrees { IfOk result (λ log. Rests (M.disk machine.new (M.now machine.new)) (Agrees log)) }
        // A crash at any moment of the call leaves no block, whichever block comes next.
        ensures images { (next : NextBlock) (content : List ℕ) → content_of (M.disk machine.old (M.now machine.old)) ≡ Some content
            → Keeps M.now M.disk machine.old machine.new (λ image. chain_of next image ≡ Some nothing_logged) }
        ensures empty { IfOk result (λ log. (next : NextBlock) → Rests (M.disk machine.new (M.now machine.new)) (λ image. chain_of next image ≡ Some nothing_logged)) }
        // If it returns `Ok`, the disk is known exactly if it was known at entry.
        ensures still_known { IfOk result (λ log. is_some (M.disk machine.new (M.now machine.new)) ≡ is_some (M.disk machine.old (M.now machine.old))) }
        ensures told { M.told machine.new ≡ M.told machine.old }
        ensures wire_faults { M.wire_faults machine.new ≡ M.wire_faults machine.old }
        ensures cause { HasCause (M.disk_faults machine.old) (M.disk_faults machine.new) (IsErr result) }
    {
        prepare(machine, self.is_begun)?;
        write_through(machine, 0, &[OPEN_GATE])?;
        Ok(Log {
            gate: FIRST_GATE,
            is_ready: true,
            is_begun: false,
            is_marked: false,
            ..self
        })
    }
}
