//! Marking a log: the mark is written and synced behind a closed gate, which is then opened.

ghost use Rattle.std.specs.{
  Prelude.{◌≡◌, true, false, List, ℕ, Some, IfOk, IsErr},
  Option.{is_some},
};
ghost use Rattle.lc_base.specs.Faults.{HasCause};
ghost use Rattle.disk_model.specs.Disk.{Keeps, Rests, content_of};
ghost use Rattle.block_codec.specs.Reading.{block_in};
ghost use Rattle.block_log.specs.{
  Standing.{Placer, Logged, with_mark, next_block, chain_of},
  Log.{Agrees, StandsBy, IsOldOrMarked, log_with_mark},
};

use crate::error::DiskFault;
use crate::layout::{CLOSED_GATE, OPEN_GATE};
use crate::log::Log;
use crate::steps::write_through;
use disk_model::Disk;

/// The bytes of a mark: the length 0, and the closed gate of the next record.
const MARK: [u8; 5] = [0, 0, 0, 0, CLOSED_GATE];

impl Log {
    /// Marks the log, in two steps of a write and a sync each: it writes a record of no bytes after
    /// the closed gate, ending in a closed gate, then opens the gate before it. From then on the log
    /// takes blocks of the second version, and no others. It takes no memory.
    pub fn mark<M: Disk>(self, machine: &mut M) -> Result<Log, DiskFault>
        requires ready { self.is_ready ≡ true }
        requires unmarked { self.is_marked ≡ false }
        requires agrees { Rests (M.disk machine.old (M.now machine.old)) (Agrees self) }
        ensures marked { IfOk result (λ log. log ≡ log_with_mark self) }
        ensures agrees { IfOk result (λ log. Rests (M.disk machine.new (M.now machine.new)) (Agrees log)) }
        // A crash at any moment of the call leaves the chain of the same blocks, marked or not yet.
        ensures images { (place : Placer) (content : List ℕ) (logged : Logged) → content_of (M.disk machine.old (M.now machine.old)) ≡ Some content
            → StandsBy place content logged → Keeps M.now M.disk machine.old machine.new (IsOldOrMarked (next_block block_in place) logged) }
        ensures stands { IfOk result (λ log. (place : Placer) (content : List ℕ) (logged : Logged) → content_of (M.disk machine.old (M.now machine.old)) ≡ Some content
            → StandsBy place content logged
            → Rests (M.disk machine.new (M.now machine.new)) (λ image. chain_of (next_block block_in place) image ≡ Some (with_mark logged))) }
        ensures still_known { IfOk result (λ log. is_some (M.disk machine.new (M.now machine.new)) ≡ is_some (M.disk machine.old (M.now machine.old))) }
        ensures told { M.told machine.new ≡ M.told machine.old }
        ensures wire_faults { M.wire_faults machine.new ≡ M.wire_faults machine.old }
        ensures cause { HasCause (M.disk_faults machine.old) (M.disk_faults machine.new) (IsErr result) }
    {
        let Log {
            buffer,
            gate,
            count,
            last,
            is_begun,
            ..
        } = self;
        write_through(machine, gate + 1, &MARK)?;
        write_through(machine, gate, &[OPEN_GATE])?;
        Ok(Log {
            buffer,
            gate: gate + 5,
            count,
            last,
            is_ready: true,
            is_begun,
            is_marked: true,
        })
    }
}
