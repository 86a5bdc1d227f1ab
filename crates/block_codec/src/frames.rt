//! The frames of a block file: each is a length of four bytes, then that many bytes.

ghost use Rattle.std.specs.Prelude.{◌≡◌, ◌≤◌, IfSome, IsErrOf};
ghost use Rattle.lc_base.specs.Faults.{HasCause};
ghost use Rattle.block_codec.specs.{
  Frames.{frame_of, IsBody, IsFrameAnswer, CountsFrame},
  declared.limits.TheConstants.{MAX_FRAMES},
};

use crate::error::FrameError;
use crate::limits::{MAX_BLOCK_BYTES, MAX_FRAMES};
use lc_base::{Bytes, zeros};
use lc_io::{Source, fill};
use std::alloc::Global;
use std::marker::Model;

/// Takes the frames of one input, in order.
#[derive(Drop)]
pub struct Frames {
    taken: u32,
}

impl Model for Frames {
    ghost use Rattle.std.specs.Prelude.{ℕ, ◌≤◌};
    ghost use Rattle.block_codec.specs.declared.limits.TheConstants.{MAX_FRAMES};

    ghost Value = { ℕ };

    ghost view = { λ frames. frames.taken };

    ghost invariant = { λ frames. frames.taken ≤ MAX_FRAMES };
}

/// The next `count` bytes of the source, or `Truncated` if it has fewer.
fn body<I: Source>(alloc: Global, source: &mut I, count: u32) -> Result<Bytes, FrameError>
    ensures bytes { IfSome (I.left source.old) (λ input. IsBody (frame_of count input) result (I.left source.new)) }
    ensures cause { HasCause (I.source_faults source.old) (I.source_faults source.new) (IsErrOf result FrameError.Fault) }
{
    let mut bytes = zeros(alloc, count as usize)?;
    let filled = fill(source, &mut bytes)?;
    if filled < bytes.len() {
        return Err(FrameError::Truncated);
    }
    Ok(Bytes::from_vec(bytes))
}

impl Frames {
    /// No frame has been taken.
    pub fn new() -> Frames
        ensures { result ≡ 0 }
    {
        Frames { taken: 0 }
    }

    /// How many frames have been taken, at most `MAX_FRAMES`.
    pub fn count(&self) -> u32
        ensures count { result ≡ self.now }
        ensures bound { result ≤ MAX_FRAMES }
    {
        self.taken
    }

    /// The bytes of the next frame, 1 to `MAX_BLOCK_BYTES`, and the frames after it; `None` if the
    /// input ends before the frame.
    #[tactic(auto, unfolding(crate::specs::Frames::frame_step))]
    pub fn next<I: Source>(
        self,
        alloc: Global,
        source: &mut I,
    ) -> Result<Option<(Bytes, Frames)>, FrameError>
        ensures answer { IfSome (I.left source.old) (λ input. IsFrameAnswer self input result (I.left source.new)) }
        ensures count { CountsFrame self result }
        ensures cause { HasCause (I.source_faults source.old) (I.source_faults source.new) (IsErrOf result FrameError.Fault) }
    {
        let mut header = [0u8; 4];
        let filled = fill(source, &mut header)?;
        if filled == 0 {
            return Ok(None);
        }
        if filled < header.len() {
            return Err(FrameError::Truncated);
        }
        let count = u32::from_be_bytes(header);
        if count == 0 || count > MAX_BLOCK_BYTES as u32 {
            return Err(FrameError::Length(count));
        }
        if self.taken == MAX_FRAMES {
            return Err(FrameError::Many);
        }
        let bytes = body(alloc, source, count)?;
        Ok(Some((
            bytes,
            Frames {
                taken: self.taken + 1,
            },
        )))
    }
}
