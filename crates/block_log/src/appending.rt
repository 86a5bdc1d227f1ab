//! Appending a block: its record is written and synced behind a closed gate, which is then opened.

ghost use Rattle.std.specs.{
  Prelude.{◌≡◌, ◌≤◌, ◌+◌, true, List, ℕ, [], length, take, Some, IfOk, IsErr},
  Option.{is_some},
};
ghost use Rattle.lc_base.specs.Faults.{HasCause};
ghost use Rattle.disk_model.specs.Disk.{Keeps, Rests, content_of};
ghost use Rattle.block_codec.specs.{
  Placement.{bytes_digest},
  Reading.{block_in},
  declared.block.Block.{Block},
  declared.limits.TheConstants.{MAX_BLOCK_BYTES},
};
ghost use Rattle.block_log.specs.{
  declared.layout.TheConstants.{MAX_RECORD_BYTES},
  Standing.{Placer, Logged, with_block, next_block, chain_of},
  Log.{Agrees, IsNextOf, IsNextAfter, IsOldOrNew, log_with_block},
  Steps.{record_bytes},
};

use crate::error::DiskFault;
use crate::layout::{CLOSED_GATE, OPEN_GATE};
use crate::log::Log;
use crate::steps::write_through;
use disk_model::Disk;
use lc_base::Digest;

// Puts a record together at the start of a slice.
#[tactic(auto, unfolding(crate::specs::Steps::record_bytes))]
fn join_record(slice: &mut [u8], bytes: &[u8])
    requires short { length bytes.now ≤ MAX_BLOCK_BYTES }
    requires fits { length bytes.now + 5 ≤ length slice.old }
    ensures record { take (length bytes.now + 5) slice.new ≡ record_bytes bytes.now }
    ensures size { length slice.new ≡ length slice.old }
{
    let size = (bytes.len() as u32).to_be_bytes();
    slice[..4].copy_from_slice(&size);
    slice[4..4 + bytes.len()].copy_from_slice(bytes);
    slice[4 + bytes.len()] = CLOSED_GATE;
}

// Puts a record together at the start of the log's buffer.
fn fill(buffer: &mut Vec<u8>, bytes: &[u8])
    requires short { length bytes.now ≤ MAX_BLOCK_BYTES }
    requires room { length buffer.old.items ≡ MAX_RECORD_BYTES }
    ensures record { take (length bytes.now + 5) buffer.new.items ≡ record_bytes bytes.now }
    ensures room { length buffer.new.items ≡ MAX_RECORD_BYTES }
{
    join_record(buffer, bytes);
}

impl Log {
    /// Appends the next block, which has these bytes, in two steps of a write and a sync each: it
    /// writes the record after the closed gate, ending in a closed gate, then opens the gate before
    /// it. It takes no memory. `digest` is that of the bytes, so nothing is hashed here.
    pub fn append<M: Disk>(
        self,
        machine: &mut M,
        bytes: &[u8],
        digest: Digest,
    ) -> Result<Log, DiskFault>
        requires digest { digest ≡ bytes_digest bytes.now }
        requires ready { self.is_ready ≡ true }
        requires agrees { Rests (M.disk machine.old (M.now machine.old)) (Agrees self) }
        requires next { IsNextOf self bytes.now }
        ensures appended { IfOk result (λ log. log ≡ log_with_block self bytes.now) }
        ensures agrees { IfOk result (λ log. Rests (M.disk machine.new (M.now machine.new)) (Agrees log)) }
        // A crash at any moment of the call leaves the chain without the block or the chain with
        // it.
        ensures images { (place : Placer) (content : List ℕ) (logged : Logged) (block : Block) → content_of (M.disk machine.old (M.now machine.old)) ≡ Some content
            → IsNextAfter place content bytes.now logged block → Keeps M.now M.disk machine.old machine.new (IsOldOrNew (next_block block_in place) logged block) }
        ensures added { IfOk result (λ log. (place : Placer) (content : List ℕ) (logged : Logged) (block : Block) → content_of (M.disk machine.old (M.now machine.old)) ≡ Some content
            → IsNextAfter place content bytes.now logged block
            → Rests (M.disk machine.new (M.now machine.new)) (λ image. chain_of (next_block block_in place) image ≡ Some (with_block logged block))) }
        ensures still_known { IfOk result (λ log. is_some (M.disk machine.new (M.now machine.new)) ≡ is_some (M.disk machine.old (M.now machine.old))) }
        ensures told { M.told machine.new ≡ M.told machine.old }
        ensures wire_faults { M.wire_faults machine.new ≡ M.wire_faults machine.old }
        ensures cause { HasCause (M.disk_faults machine.old) (M.disk_faults machine.new) (IsErr result) }
    {
        let Log {
            mut buffer,
            gate,
            count,
            is_begun,
            is_marked,
            ..
        } = self;
        fill(&mut buffer, bytes);
        write_through(machine, gate + 1, &buffer[..bytes.len() + 5])?;
        write_through(machine, gate, &[OPEN_GATE])?;
        Ok(Log {
            buffer,
            gate: gate + 5 + bytes.len() as u64,
            count: count + 1,
            last: digest,
            is_ready: true,
            is_begun,
            is_marked,
        })
    }
}
