//! Why a block was not written, and why a frame was not taken.

ghost use Rattle.std.specs.Prelude.{◌≡◌};

use lc_base::Memory;
use lc_io::Failed;

/// Why a block was not written.
#[derive(Clone, Copy)]
pub enum EncodeError {
    /// It has no spelling: it has another version than `FIRST_VERSION` and `SECOND_VERSION`, more
    /// than `MAX_TXS` transactions or `MAX_BLOCK_BYTES` bytes, or a transaction has a value or an
    /// argument that is gone or a text that is longer than `text_limit` of the version, more than
    /// `MAX_DEPS` dependency keys, more than `MAX_SOURCE_BYTES` bytes of source, more than
    /// `MAX_ARGS` arguments or a budget above `MAX_CALL_BUDGET`.
    Limit,
    /// Out of memory.
    Memory,
}

/// Why the next frame was not taken.
#[derive(Clone, Copy)]
pub enum FrameError {
    /// The input ends within the frame.
    Truncated,
    /// The length that the frame states, which is not from 1 to `MAX_BLOCK_BYTES`.
    Length(u32),
    /// The input has more than `MAX_FRAMES` frames.
    Many,
    /// The source failed.
    Fault,
    /// Out of memory.
    Memory,
}

impl From<Memory> for EncodeError {
    ghost use Rattle.block_codec.specs.declared.error.EncodeError.TheVariants.{Memory};

    ghost from_gives = { λ _ error. error ≡ Memory };

    fn from(_memory: Memory) -> EncodeError {
        EncodeError::Memory
    }
}

impl From<Memory> for FrameError {
    ghost use Rattle.block_codec.specs.declared.error.FrameError.TheVariants.{Memory};

    ghost from_gives = { λ _ error. error ≡ Memory };

    fn from(_memory: Memory) -> FrameError {
        FrameError::Memory
    }
}

impl From<Failed> for FrameError {
    ghost use Rattle.block_codec.specs.declared.error.FrameError.TheVariants.{Fault};

    ghost from_gives = { λ _ error. error ≡ Fault };

    fn from(_failed: Failed) -> FrameError {
        FrameError::Fault
    }
}
