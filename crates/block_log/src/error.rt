//! Why a log could not be opened, read or written.

ghost use Rattle.std.specs.Prelude.{◌≡◌};

use lc_base::{HostError, Memory};
use lc_io::Failed;

/// Why a log could not be opened or read.
#[derive(Clone, Copy)]
pub enum LogError {
    /// The disk holds something other than a log.
    NotALog,
    /// At this offset there is neither a closed gate nor an open one with a record of the next
    /// block after it.
    Damaged { at: u64 },
    /// A call of the disk failed.
    DiskFault,
    /// Out of memory.
    Memory,
}

impl From<HostError> for LogError {
    ghost use Rattle.block_log.specs.Reader.{log_error};

    ghost from_gives = { λ failed error. error ≡ log_error failed };

    fn from(error: HostError) -> LogError {
        match error {
            HostError::Fault => LogError::DiskFault,
            HostError::Memory => LogError::Memory,
        }
    }
}

impl From<Failed> for LogError {
    ghost use Rattle.block_log.specs.declared.error.LogError.TheVariants.{DiskFault};

    ghost from_gives = { λ _ error. error ≡ DiskFault };

    fn from(_failed: Failed) -> LogError {
        LogError::DiskFault
    }
}

impl From<Memory> for LogError {
    ghost use Rattle.block_log.specs.declared.error.LogError.TheVariants.{Memory};

    ghost from_gives = { λ _ error. error ≡ Memory };

    fn from(_memory: Memory) -> LogError {
        LogError::Memory
    }
}

/// A call of the disk failed.
#[derive(Clone, Copy)]
pub struct DiskFault;

impl From<Failed> for DiskFault {
    fn from(_: Failed) -> Self {
        DiskFault
    }
}
