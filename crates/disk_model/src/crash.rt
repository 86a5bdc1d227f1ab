//! What a crash leaves of a machine in memory: the calls up to a moment are made again, then
//! pending bytes are replaced.

ghost use Rattle.std.specs.{
  Prelude.{◌≡◌, ◌+◌, ◌≤◌, ◌&&◌, nat_le, nat_lt, ◌<◌, ◌^◌, reverse, length, IfOk},
  Vec.{vec_len, vec_capacity},
};
ghost use Rattle.lc_io.specs.Disk.{DiskState};
ghost use Rattle.disk_model.specs.{
  Crash.{crash_image, fill_pending, kept_byte, keep_after},
  Disk.{is_pending, settled_disk},
  Machine.{after_call, disk_after_calls},
  Marks.{call_of, calls_of, total_len},
  Replays.{IsReplayed},
};

use crate::mem_machine::{Mark, change, overwrite};
use lc_base::Memory;
use std::alloc::Global;

/// A disk as calls leave it: its content, its length when it was last synced, and the offset and
/// length of each write since then.
#[derive(Drop)]
pub(crate) struct Replayed {
    content: Vec<u8>,
    synced: usize,
    pending: Vec<(u64, usize)>,
}

/// Whether a write, an offset and a length, covers the byte at this offset.
fn is_over(write: &(u64, usize), offset: u64) -> bool
    ensures { result ≡ nat_le write.now.0 offset && nat_lt offset (write.now.0 + write.now.1) }
{
    let (at, len) = *write;
    at <= offset && offset - at < len as u64
}

/// Whether any of these writes, of which the last one is at the end, covers the byte at this
/// offset.
fn is_pending(pending: &[(u64, usize)], offset: u64) -> bool
    ensures { result ≡ is_pending (reverse pending.now) offset }
{
    pending.iter().rev().any(|write| is_over(write, offset))
}

/// The byte that a crash leaves, if `keep` pending bytes are still to be kept.
fn kept_byte(pending: bool, keep: u64, fill: u8, byte: u8) -> u8
    ensures { result ≡ kept_byte pending keep fill byte }
{
    if pending && keep == 0 { fill } else { byte }
}

/// How many pending bytes are still to be kept after this one.
fn keep_after(pending: bool, keep: u64) -> u64
    ensures { result ≡ keep_after pending keep }
{
    if pending {
        keep.saturating_sub(1)
    } else {
        keep
    }
}

/// The content with `fill` in place of all pending bytes but the first `keep`.
fn fill_pending(
    alloc: Global,
    content: &[u8],
    pending: &[(u64, usize)],
    keep: u64,
    fill: u8,
) -> Result<Vec<u8>, Memory>
    ensures { IfOk result (λ bytes. bytes.items ≡ fill_pending (reverse pending.now) fill keep 0 content.now) }
{
    let mut bytes = Vec::with_capacity(alloc, content.len())?;
    let mut left = keep;
    for (offset, byte) in content.iter().enumerate() {
        let pending = is_pending(pending, offset as u64);
        bytes.push(kept_byte(pending, left, fill, *byte))?;
        left = keep_after(pending, left);
    }
    Ok(bytes)
}

impl Replayed {
    /// A disk of these bytes with nothing pending, and memory for `room` more bytes.
    fn new(alloc: Global, first: &[u8], room: usize) -> Result<Replayed, Memory>
        requires { length first.now + room < 2 ^ 64 }
        ensures disk { IfOk result (λ disk. IsReplayed disk (settled_disk first.now)) }
        ensures room { IfOk result (λ disk. length first.now + room ≤ vec_capacity disk.content) }
    {
        let mut content = Vec::with_capacity(alloc, first.len() + room)?;
        overwrite(&mut content, 0, first);
        Ok(Replayed {
            content,
            synced: first.len(),
            pending: Vec::new(alloc),
        })
    }

    /// Makes one more call of the disk.
    fn make(&mut self, mark: &Mark, bytes: &[u8]) -> Result<(), Memory>
        requires room { vec_len self.old.content + length bytes.now ≤ vec_capacity self.old.content }
        ensures disk { IfOk result (λ _. (state : DiskState) → IsReplayed self.old state → IsReplayed self.new (after_call state (call_of mark.now bytes.now))) }
        ensures room { vec_len self.new.content + vec_capacity self.old.content ≤ vec_len self.old.content + length bytes.now + vec_capacity self.new.content }
    {
        change(&mut self.content, mark, bytes);
        match mark {
            Mark::Wrote { at, .. } => self.pending.push((*at, bytes.len()))?,
            Mark::FailedWrite { at, len } => self.pending.push((*at, *len))?,
            Mark::Synced => {
                self.synced = self.content.len();
                self.pending.clear();
            }
            Mark::Told { .. } | Mark::Idle => {}
        }
        Ok(())
    }

    /// What a crash leaves that keeps the first `keep` pending bytes and puts `fill` in place of
    /// the others. If it is `short`, it leaves no more than was synced.
    pub(crate) fn crash(
        &self,
        alloc: Global,
        keep: u64,
        fill: u8,
        short: bool,
    ) -> Result<Vec<u8>, Memory>
        ensures { IfOk result (λ bytes. (state : DiskState) → IsReplayed self.now state → bytes.items ≡ crash_image keep fill short state) }
    {
        let mut bytes = fill_pending(alloc, &self.content, &self.pending, keep, fill)?;
        if short {
            bytes.truncate(self.synced);
        }
        Ok(bytes)
    }
}

/// The disk after these calls, if it held the bytes `first` before them.
pub(crate) fn replay(
    alloc: Global,
    first: &[u8],
    marks: &[Mark],
    bytes: &[u8],
) -> Result<Replayed, Memory>
    requires { total_len marks.now ≤ length bytes.now }
    ensures { IfOk result (λ disk. IsReplayed disk (disk_after_calls (settled_disk first.now) (calls_of marks.now bytes.now))) }
{
    let mut disk = Replayed::new(alloc, first, bytes.len())?;
    let mut rest = bytes;
    for (number, mark) in marks.iter().enumerate() {
        let (own, others) = rest.split_at(mark.kept_len());
        disk.make(mark, own)?;
        rest = others;
    }
    Ok(disk)
}
