//! A proof of ancestors shows nothing if a check fails, or if memory runs out in one of two places.

ghost use Rattle.std.specs.Prelude.{◌≡◌};
ghost use Rattle.trace_verifier.specs.declared.error.TraceError.TheVariants.{Memory as NoMemory};

use lc_base::Memory;
use proof_verifier::TraceReject;

/// Why a proof of ancestors shows nothing.
#[derive(Clone, Copy)]
pub enum TraceError {
    /// A check fails.
    Rejected(TraceReject),
    /// Out of memory for a version that the item with this number wants; the start is item 0.
    WantedMemory { item: u32 },
    /// Out of memory for the versions that an accepted proof shows.
    Memory,
}

impl From<Memory> for TraceError {
    ghost from_gives = { λ _ error. error ≡ NoMemory };

    fn from(_memory: Memory) -> TraceError {
        TraceError::Memory
    }
}
