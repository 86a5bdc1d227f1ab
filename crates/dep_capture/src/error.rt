//! Why a read or a put is refused. No error changes the capture.

ghost use Rattle.std.specs.Prelude.{◌≡◌};

use lc_base::Memory;

/// Why a read or a put was refused.
#[derive(Clone, Copy)]
pub enum CaptureError {
    /// A key that a put names was not read.
    NotRead,
    /// There would be more than `MAX_KEYS_READ` keys read, more than `MAX_KEYS_PUT` keys put, or
    /// more than `MAX_DEPS` dependencies of a put.
    TooMany,
    /// Out of memory.
    Memory,
}

impl From<Memory> for CaptureError {
    ghost use Rattle.dep_capture.specs.declared.error.CaptureError.TheVariants.{Memory};

    ghost from_gives = { λ _ error. error ≡ Memory };

    fn from(_memory: Memory) -> CaptureError {
        CaptureError::Memory
    }
}
