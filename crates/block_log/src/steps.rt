//! One step of making a log or of appending to it: a write, then a sync.

ghost use Rattle.std.specs.{
  Prelude.{◌≡◌, ◌≤◌, ◌<◌, ◌+◌, ◌^◌, ℕ, List, length, Some, OnOk, IsErr},
  Option.{is_some},
};
ghost use Rattle.lc_base.specs.Faults.{HasCause};
ghost use Rattle.disk_model.specs.Disk.{Keeps, Torn, content_of, settled_disk};
ghost use Rattle.block_log.specs.Steps.{synced_write};

use crate::error::DiskFault;
use disk_model::Disk;

/// Writes the bytes at an offset, over those that are there and past the end, and syncs. After `Ok`
/// nothing is pending. A crash at any moment of the call may leave any bytes in their range, and
/// leaves all others.
pub(crate) fn write_through<M: Disk>(
    machine: &mut M,
    at: u64,
    bytes: &[u8],
) -> Result<(), DiskFault>
    requires within { (content : List ℕ) → content_of (M.disk machine.old (M.now machine.old)) ≡ Some content → at ≤ length content }
    requires fits { at + length bytes.now < 2 ^ 64 }
    ensures disk { OnOk result (M.disk machine.new (M.now machine.new) ≡ synced_write at bytes.now (M.disk machine.old (M.now machine.old))) }
    ensures images { (content : List ℕ) → M.disk machine.old (M.now machine.old) ≡ Some (settled_disk content)
        → Keeps M.now M.disk machine.old machine.new (Torn at (length bytes.now) content) }
    ensures still_known { OnOk result (is_some (M.disk machine.new (M.now machine.new)) ≡ is_some (M.disk machine.old (M.now machine.old))) }
    ensures told { M.told machine.new ≡ M.told machine.old }
    ensures wire_faults { M.wire_faults machine.new ≡ M.wire_faults machine.old }
    ensures cause { HasCause (M.disk_faults machine.old) (M.disk_faults machine.new) (IsErr result) }
{
    machine.write_at(at, bytes)?;
    machine.sync()?;
    Ok(())
}
