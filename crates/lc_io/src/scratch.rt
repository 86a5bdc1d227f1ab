//! The trait of a scratch device. As in `lc_io`, contracts alone name the meaning of a device; if
//! it is not known, a clause about it says only that it stays unknown.

ghost use Rattle.std.specs.Prelude.{◌≡◌, ℕ, true, length, IfOk, OnOk, IsErr};
ghost use Rattle.lc_base.specs.Faults.{HasCause};
ghost use Rattle.lc_io.specs.Scratch.{ScratchState, HoldsAt, IsKeptAt, Retains};

use crate::outside::Failed;

/// A device that keeps bytes as long as the program runs.
pub trait Scratch {
    /// Whether a given number of bytes is kept at a place, which is always known, and which bytes
    /// these are, which may be unknown.
    ghost state: { Self → ScratchState };
    /// How many calls failed, up to the last value of a `u64`.
    ghost scratch_faults: { Self → ℕ };

    /// Keeps the bytes and returns their place. All that was kept stays, also after `Failed`.
    fn put(&mut self, bytes: &[u8]) -> Result<u64, Failed>
        ensures retains { Retains (state self.old) (state self.new) }
        ensures put { IfOk result (λ place. IsKeptAt (state self.new) place bytes.now) }
        ensures cause { HasCause (scratch_faults self.old) (scratch_faults self.new)
            (IsErr result) };

    /// Fills the buffer with the bytes that are kept at a place. All that was kept stays, also
    /// after `Failed`; the buffer may then hold any bytes.
    fn get(&mut self, place: u64, buffer: &mut [u8]) -> Result<(), Failed>
        requires kept { (state self.old).kept place (length buffer.old) ≡ true }
        ensures retains { Retains (state self.old) (state self.new) }
        ensures bytes { OnOk result (HoldsAt (state self.old) place buffer.new) }
        ensures cause { HasCause (scratch_faults self.old) (scratch_faults self.new)
            (IsErr result) };
}
