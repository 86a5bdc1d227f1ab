//! The trait of a disk. As in `lc_io`, contracts alone name the meaning of a disk; if it is not
//! known, a clause about it says only that it stays unknown.

ghost use Rattle.std.specs.Prelude.{◌≡◌, ◌≤◌, ◌<◌, ◌+◌, ◌^◌, ℕ, List, length, take, drop, Some, IfOk, IfSome, IsErr};
ghost use Rattle.lc_base.specs.Faults.{HasCause};
ghost use Rattle.lc_io.specs.Disk.{DiskState, Stays};
ghost use Rattle.disk_model.specs.Disk.{IsImage, Writes, Syncs, content_of};

use lc_io::{Clock, Failed};

/// Bytes that survive the program. What is written is sure to be there after a crash only once a
/// later sync has returned `Ok`; until then a crash may leave any bytes in its place. No call
/// changes what was printed on the machine's wire, or the wire's count of faults.
pub trait Disk: Clock {
    /// The number of bytes of the content.
    fn len(&mut self) -> Result<u64, Failed>
        ensures len { IfOk result (λ n. IfSome (content_of (Self.disk self.old (Self.now self.old))) (λ content. n ≡ length content)) }
        ensures disk { Stays Self.now Self.disk self.old self.new }
        ensures told { Self.told self.new ≡ Self.told self.old }
        ensures wire_faults { Self.wire_faults self.new ≡ Self.wire_faults self.old }
        ensures cause { HasCause (Self.disk_faults self.old) (Self.disk_faults self.new) (IsErr result) };

    /// Reads the bytes at an offset, as many as fit the buffer or as there are, and returns how
    /// many.
    fn read_at(&mut self, at: u64, buffer: &mut [u8]) -> Result<usize, Failed>
        ensures bound { IfOk result (λ n. n ≤ length buffer.new) }
        ensures size { length buffer.new ≡ length buffer.old }
        ensures bytes { IfOk result (λ n. IfSome (content_of (Self.disk self.old (Self.now self.old)))
            (λ content. take n buffer.new ≡ take (length buffer.new) (drop at content))) }
        ensures disk { Stays Self.now Self.disk self.old self.new }
        ensures told { Self.told self.new ≡ Self.told self.old }
        ensures wire_faults { Self.wire_faults self.new ≡ Self.wire_faults self.old }
        ensures cause { HasCause (Self.disk_faults self.old) (Self.disk_faults self.new) (IsErr result) };

    /// Writes the bytes at an offset, over those that are there and past the end. After `Failed`
    /// the range may hold any bytes, or nothing has changed.
    fn write_at(&mut self, at: u64, bytes: &[u8]) -> Result<(), Failed>
        requires within { (content : List ℕ) → content_of (Self.disk self.old (Self.now self.old)) ≡ Some content → at ≤ length content }
        requires fits { at + length bytes.now < 2 ^ 64 }
        ensures disk { Writes Self.now Self.disk self.old self.new at bytes.now result }
        ensures told { Self.told self.new ≡ Self.told self.old }
        ensures wire_faults { Self.wire_faults self.new ≡ Self.wire_faults self.old }
        ensures cause { HasCause (Self.disk_faults self.old) (Self.disk_faults self.new) (IsErr result) };

    /// After `Ok` a crash can leave the content only; after `Failed` the disk is as it was.
    fn sync(&mut self) -> Result<(), Failed>
        ensures disk { Syncs Self.now Self.disk self.old self.new result }
        ensures told { Self.told self.new ≡ Self.told self.old }
        ensures wire_faults { Self.wire_faults self.new ≡ Self.wire_faults self.old }
        ensures cause { HasCause (Self.disk_faults self.old) (Self.disk_faults self.new) (IsErr result) };

    /// Whenever the disk is known, the content itself is among what a crash may leave.
    ghost sound: { (machine : Self) (t : ℕ) (state : DiskState) → Self.Clock.disk machine t ≡ Some state → IsImage state state.content };
}
