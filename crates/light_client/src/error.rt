//! Why no light file was read.

ghost use Rattle.std.specs.Prelude.{◌≡◌};

use lc_base::Memory;
use lc_io::Failed;
use std::alloc::AllocError;

/// Why no light file was read.
#[derive(Clone, Copy)]
pub enum LightError {
    /// The input has fewer than `HEAD_BYTES` bytes, doesn't begin with `MAGIC`, or has fewer than
    /// `BLOCK_ROOT_BYTES` bytes for each of its blocks.
    Form,
    /// The source failed.
    Fault,
    /// Out of memory.
    Memory,
}

impl From<Failed> for LightError {
    ghost use Rattle.light_client.specs.declared.error.LightError.TheVariants.{Fault};

    ghost from_gives = { λ _ error. error ≡ Fault };

    fn from(_failed: Failed) -> LightError {
        LightError::Fault
    }
}

impl From<Memory> for LightError {
    ghost use Rattle.light_client.specs.declared.error.LightError.TheVariants.{Memory};

    ghost from_gives = { λ _ error. error ≡ Memory };

    fn from(_memory: Memory) -> LightError {
        LightError::Memory
    }
}

impl From<AllocError> for LightError {
    ghost use Rattle.light_client.specs.declared.error.LightError.TheVariants.{Memory};

    ghost from_gives = { λ _ error. error ≡ Memory };

    fn from(_error: AllocError) -> LightError {
        LightError::Memory
    }
}
