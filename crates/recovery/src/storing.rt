//! Storing a block: a log that isn't there yet is created before the block is appended.

ghost use Rattle.std.specs.{
  Prelude.{◌≡◌, ◌+◌, ℕ, true, false, List, Some, Ok, IfOk, IsErr},
  Option.{is_some},
};
ghost use Rattle.lc_base.specs.Faults.{HasCause};
ghost use Rattle.disk_model.specs.{Disk.{Keeps, Rests, content_of}, Leaving.{LeavesWire}};
ghost use Rattle.block_codec.specs.{
  Placement.{bytes_digest},
  Reading.{block_in},
  declared.block.Block.{Block},
};
ghost use Rattle.block_log.specs.{
  Standing.{Placer, Logged, chain_of, next_block, with_block},
  Log.{Agrees, IsNextAfter, IsNextOf, IsOldOrNew, next_in_log},
};

use block_log::{DiskFault, Log};
use disk_model::Disk;
use lc_base::Digest;

/// Appends the next block, which has these bytes, to a log; `digest` is that of the bytes. The log
/// is created first if the disk has none yet.
pub fn store<M: Disk>(
    log: Log,
    machine: &mut M,
    bytes: &[u8],
    digest: Digest,
) -> Result<Log, DiskFault>
    requires digest { digest ≡ bytes_digest bytes.now }
    requires agrees { Rests (M.disk machine.old (M.now machine.old)) (Agrees log) }
    requires next { IsNextOf log bytes.now }
    requires headless { log.is_ready ≡ false → log.is_marked ≡ false }
    ensures count { IfOk result (λ longer. longer.count ≡ log.count + 1) }
    ensures last { IfOk result (λ longer. longer.last ≡ bytes_digest bytes.now) }
    ensures head { IfOk result (λ longer. longer.is_ready ≡ true) }
    ensures marked { IfOk result (λ longer. longer.is_marked ≡ log.is_marked) }
    ensures agrees { IfOk result
        (λ longer. Rests (M.disk machine.new (M.now machine.new)) (Agrees longer)) }
    ensures images { (place : Placer) (content : List ℕ) (logged : Logged) (block : Block)
        → content_of (M.disk machine.old (M.now machine.old)) ≡ Some content
        → IsNextAfter place content bytes.now logged block
        → Keeps M.now M.disk machine.old machine.new
        (IsOldOrNew (next_block block_in place) logged block) }
    // By the placement of the log, which counts no row, the bytes are its next block.
    ensures log_images { (content : List ℕ) (logged : Logged) (block : Block)
        → content_of (M.disk machine.old (M.now machine.old)) ≡ Some content
        → chain_of next_in_log content ≡ Some logged → block_in bytes.now ≡ Ok block
        → Keeps M.now M.disk machine.old machine.new (IsOldOrNew next_in_log logged block) }
    ensures added { IfOk result
        (λ longer. (place : Placer) (content : List ℕ) (logged : Logged) (block : Block)
        → content_of (M.disk machine.old (M.now machine.old)) ≡ Some content
        → IsNextAfter place content bytes.now logged block
        → Rests (M.disk machine.new (M.now machine.new))
        (λ image. chain_of (next_block block_in place) image ≡ Some (with_block logged block))) }
    ensures still_known { IfOk result
        (λ longer. is_some (M.disk machine.new (M.now machine.new)) ≡ is_some
        (M.disk machine.old (M.now machine.old))) }
    ensures wire { LeavesWire M.told M.wire_faults machine.old machine.new }
    ensures cause { HasCause (M.disk_faults machine.old) (M.disk_faults machine.new) (IsErr result) }
{
    if log.ready() {
        return log.append(machine, bytes, digest);
    }
    let log = log.create(machine)?;
    log.append(machine, bytes, digest)
}
