//! Why a field could not be read, and where.

ghost use Rattle.std.specs.Prelude.{◌≡◌};
ghost use Rattle.byte_fields.specs.declared.fault.ReadError.TheVariants.{Fault as AtFault, Memory as NoMemory};

use lc_base::Memory;
use std::alloc::AllocError;

/// A field is cut short or breaks its rule.
#[derive(Clone, Copy)]
pub struct Fault {
    /// The number of bytes from the start of the invalid field to the end.
    pub left: usize,
}

/// Why a field was not read into memory.
#[derive(Clone, Copy)]
pub enum ReadError {
    /// The field is invalid.
    Fault(Fault),
    /// Out of memory.
    Memory,
}

impl From<Fault> for ReadError {
    ghost from_gives = { λ fault error. error ≡ AtFault fault };

    fn from(fault: Fault) -> ReadError {
        ReadError::Fault(fault)
    }
}

impl From<Memory> for ReadError {
    ghost from_gives = { λ _ error. error ≡ NoMemory };

    fn from(_memory: Memory) -> ReadError {
        ReadError::Memory
    }
}

impl From<AllocError> for ReadError {
    ghost from_gives = { λ _ error. error ≡ NoMemory };

    fn from(_error: AllocError) -> ReadError {
        ReadError::Memory
    }
}
