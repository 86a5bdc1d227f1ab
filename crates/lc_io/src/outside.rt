//! The traits of the outside. Contracts alone name the meaning of an object; the program sees only
//! what calls return. An optional meaning is `None` if it is not known, and a clause about it then
//! says only that it stays unknown.

ghost use Rattle.std.specs.Prelude.{◌≡◌, ℕ, ◌<◌, ◌≤◌, List, length, Option, IfOk, IsErr};
ghost use Rattle.lc_io.specs.{Disk.{DiskState, Stays}, Outside.{Pulls, Tell, Tells}};
ghost use Rattle.lc_base.specs.Faults.{HasCause};

use lc_base::HostError;

/// A call of the outside failed.
#[derive(Clone, Copy, PartialEq, Eq)]
pub struct Failed;

impl From<Failed> for HostError {
    ghost use Rattle.lc_base.specs.declared.host_error.HostError.TheVariants.{Fault};

    ghost from_gives = { λ _ error. error ≡ Fault };

    fn from(_failed: Failed) -> HostError {
        HostError::Fault
    }
}

/// The clock of a machine, what was printed so far, and what its disk holds.
pub trait Clock {
    /// The present moment. No call lowers it.
    ghost now: { Self → ℕ };
    /// The pieces printed so far, or `None` if they are not known.
    ghost told: { Self → Option (List Tell) };
    /// How many calls of the wire failed, up to the last value of a `u64`.
    ghost wire_faults: { Self → ℕ };
    /// The disk at a moment, or `None` if it is not known.
    ghost disk: { Self → ℕ → Option DiskState };
    /// How many calls of the disk failed, up to the last value of a `u64`.
    ghost disk_faults: { Self → ℕ };
}

/// Bytes that come in.
pub trait Source {
    /// The bytes that are still to come, or `None` if they are not known.
    ghost left: { Self → Option (List ℕ) };
    /// How many pulls failed, up to the last value of a `u64`.
    ghost source_faults: { Self → ℕ };

    /// Takes the next bytes into the prefix of the buffer and returns how many, which is 0 only if
    /// nothing is left. After `Failed` nothing was taken.
    fn pull(&mut self, buffer: &mut [u8]) -> Result<usize, Failed>
        requires { 0 < length buffer.old }
        ensures bound { IfOk result (λ n. n ≤ length buffer.new) }
        ensures bytes { Pulls (left self.old) (left self.new) result buffer.new }
        ensures cause { HasCause (source_faults self.old) (source_faults self.new) (IsErr result) };
}

/// Bytes that go out.
pub trait Wire: Clock {
    /// Prints one piece. After `Failed` some first bytes of it may have been printed. The disk
    /// stays as it was.
    fn tell(&mut self, bytes: &[u8]) -> Result<(), Failed>
        ensures disk { Stays Self.now Self.disk self.old self.new }
        ensures disk_faults { Self.disk_faults self.new ≡ Self.disk_faults self.old }
        ensures told { Tells (Self.now self.old) bytes.now (Self.told self.old) (Self.told self.new) result }
        ensures cause { HasCause (Self.wire_faults self.old) (Self.wire_faults self.new) (IsErr result) };
}
