//! The error of a call that ran out of memory, and a buffer of zeros.

ghost use Rattle.std.specs.Prelude.{◌≡◌, replicate, length, IfOk};

use std::alloc::{AllocError, AllocFailed, Global};

/// Out of memory.
#[derive(Clone, Copy, PartialEq, Eq)]
pub struct Memory;

impl From<AllocError> for Memory {
    fn from(_error: AllocError) -> Memory {
        Memory
    }
}

impl<T: Drop> From<AllocFailed<T>> for Memory {
    fn from(_error: AllocFailed<T>) -> Memory {
        Memory
    }
}

/// `count` zero bytes.
pub fn zeros(alloc: Global, count: usize) -> Result<Vec<u8>, Memory>
    ensures items { IfOk result (λ bytes. bytes.items ≡ replicate count 0) }
    ensures len { IfOk result (λ bytes. length bytes.items ≡ count) }
{
    Ok(vec![in alloc; 0u8; count]?)
}
