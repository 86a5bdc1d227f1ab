//! The errors of calls that need something from outside: the host failed, or memory ran out.

ghost use Rattle.std.specs.Prelude.{◌≡◌};
ghost use Rattle.lc_base.specs.declared.host_error.HostError.TheVariants as errors;

use crate::memory::Memory;
use std::alloc::{AllocError, AllocFailed};

/// Why a call that needs its host returned no answer. The host is what answers the questions of a
/// contract, or a source or a device that was lent to the call.
#[derive(Clone, Copy, PartialEq, Eq)]
pub enum HostError {
    /// The host failed.
    Fault,
    /// Out of memory.
    Memory,
}

impl From<Memory> for HostError {
    ghost from_gives = { λ _ error. error ≡ errors.Memory };

    fn from(_memory: Memory) -> HostError {
        HostError::Memory
    }
}

impl From<AllocError> for HostError {
    ghost from_gives = { λ _ error. error ≡ errors.Memory };

    fn from(_error: AllocError) -> HostError {
        HostError::Memory
    }
}

impl<T: Drop> From<AllocFailed<T>> for HostError {
    ghost from_gives = { λ _ error. error ≡ errors.Memory };

    fn from(_error: AllocFailed<T>) -> HostError {
        HostError::Memory
    }
}
