//! A range proof shows nothing for one of two reasons.

ghost use Rattle.std.specs.Prelude.{◌≡◌};
ghost use Rattle.range_verifier.specs.declared.error.RangeError.TheVariants.{Memory as NoMemory};

use lc_base::Memory;
use proof_verifier::RangeReject;

/// Why a range proof shows nothing.
#[derive(Clone, Copy)]
pub enum RangeError {
    /// A check fails.
    Rejected(RangeReject),
    /// Out of memory.
    Memory,
}

impl From<Memory> for RangeError {
    ghost from_gives = { λ _ error. error ≡ NoMemory };

    fn from(_memory: Memory) -> RangeError {
        RangeError::Memory
    }
}
