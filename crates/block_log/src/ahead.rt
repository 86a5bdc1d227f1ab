//! Bytes that are read ahead, so that one read of the disk serves many records.

ghost use Rattle.std.specs.Prelude.{◌≡◌, ◌≤◌, length, take, drop, [], IfOk, IsErr};
ghost use Rattle.lc_base.specs.Faults.{HasCause};
ghost use Rattle.lc_io.specs.Disk.{Stays};
ghost use Rattle.disk_model.specs.Disk.{content_of};
ghost use Rattle.block_log.specs.{
  declared.ahead.TheConstants.{AHEAD_BYTES},
  Ahead.{IsAhead},
};

use disk_model::Disk;
use lc_io::Failed;
use std::marker::Model;

/// How many bytes are read ahead at once.
pub(crate) const AHEAD_BYTES: usize = 65_536;

/// The bytes of a disk from a gate on, as far as they were read ahead.
#[derive(Drop)]
pub(crate) struct Ahead {
    bytes: Vec<u8>,
    start: usize,
    end: usize,
}

impl Model for Ahead {
    ghost use Rattle.std.specs.Prelude.{◌≡◌, ◌≤◌, ℕ, List, length, take, drop};
    ghost use Rattle.block_log.specs.declared.ahead.TheConstants.{AHEAD_BYTES};

    ghost Value = { List ℕ };

    ghost view = { λ a. drop a.start (take a.end a.bytes.items) };

    ghost invariant = { λ a. (a.start ≤ a.end) × (a.end ≤ length a.bytes.items) × (length a.bytes.items ≡ AHEAD_BYTES) };
}

/// Reads the bytes at an offset, as many as fit the buffer or as there are, and returns how many.
fn read_bytes<M: Disk>(machine: &mut M, buffer: &mut [u8], at: u64) -> Result<usize, Failed>
    ensures bound { IfOk result (λ count. count ≤ length buffer.new) }
    ensures bytes { IfOk result (λ count. IsAhead at (take count buffer.new) (content_of (M.disk machine.old (M.now machine.old)))) }
    ensures size { length buffer.new ≡ length buffer.old }
    ensures disk { Stays M.now M.disk machine.old machine.new }
    ensures told { M.told machine.new ≡ M.told machine.old }
    ensures wire_faults { M.wire_faults machine.new ≡ M.wire_faults machine.old }
    ensures cause { HasCause (M.disk_faults machine.old) (M.disk_faults machine.new) (IsErr result) }
{
    let count = machine.read_at(at, buffer)?;
    Ok(count)
}

impl Ahead {
    /// Nothing was read ahead yet; what is will be in this buffer.
    pub(crate) fn new(buffer: Vec<u8>) -> Ahead
        requires room { length buffer.items ≡ AHEAD_BYTES }
        ensures { result ≡ [] }
    {
        Ahead {
            bytes: buffer,
            start: 0,
            end: 0,
        }
    }

    /// The bytes that were read ahead.
    pub(crate) fn bytes(&self) -> &[u8]
        ensures { result.now ≡ self.now }
    {
        let read = &self.bytes[..self.end];
        &read[self.start..]
    }

    /// Gives up all of them.
    pub(crate) fn clear(&mut self)
        ensures { self.new ≡ [] }
    {
        self.start = 0;
        self.end = 0;
    }

    /// Gives up the first `count` of them, or all, if they are fewer.
    #[tactic(auto, using(crate::proofs::Fronts::skip_some, crate::proofs::Fronts::skip_all))]
    pub(crate) fn skip(&mut self, count: usize)
        ensures { self.new ≡ drop count self.old }
    {
        if count <= self.end - self.start {
            self.start += count;
        } else {
            self.start = self.end;
        }
    }

    /// Reads ahead from the gate at this offset on, in place of what was read before.
    pub(crate) fn fill<M: Disk>(&mut self, machine: &mut M, gate: u64) -> Result<(), Failed>
        ensures filled { IfOk result (λ _. IsAhead gate self.new (content_of (M.disk machine.old (M.now machine.old)))) }
        ensures disk { Stays M.now M.disk machine.old machine.new }
        ensures told { M.told machine.new ≡ M.told machine.old }
        ensures wire_faults { M.wire_faults machine.new ≡ M.wire_faults machine.old }
        ensures cause { HasCause (M.disk_faults machine.old) (M.disk_faults machine.new) (IsErr result) }
    {
        self.start = 0;
        self.end = 0;
        self.end = read_bytes(machine, &mut self.bytes, gate)?;
        Ok(())
    }
}
