ghost use Rattle.chain_input.specs.Turns.{IsCauseOf};

use block_codec::FrameError;
use chain_replay::Refusal;

/// Why a frame of the input is refused.
#[derive(Clone, Copy)]
pub enum Cause {
    /// The input ends within it.
    Truncated,
    /// No frame may have this length, in bytes.
    Length(u32),
    /// It follows `MAX_FRAMES` frames, the most that an input may have.
    Many,
    /// The chain refuses its bytes, for this reason.
    Block(Refusal),
}

/// The cause for which a frame is refused, or an error that says nothing of the input: `fault` if
/// reading failed, and `memory` if memory ran out.
pub fn cause_of<E: Copy>(error: FrameError, fault: E, memory: E) -> Result<Cause, E>
    ensures { IsCauseOf fault memory error result }
{
    match error {
        FrameError::Truncated => Ok(Cause::Truncated),
        FrameError::Length(count) => Ok(Cause::Length(count)),
        FrameError::Many => Ok(Cause::Many),
        FrameError::Fault => Err(fault),
        FrameError::Memory => Err(memory),
    }
}
