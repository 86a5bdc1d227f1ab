//! The blocks that wait for those before them, and which blocks are to wait.

ghost use Rattle.std.specs.Prelude.{◌≡◌, IfOk};
ghost use Rattle.block_codec.specs.Reading.{block_in};
ghost use Rattle.follower_steps.specs.Steps.{arrival_in, arrival_of, position_of};

use crate::cause::Cause;
use crate::limits::MAX_AHEAD;
use block_codec::{DecodeError, decode};
use chain_replay::Refusal;
use lc_base::{Bytes, Memory};
use std::alloc::Global;

/// A block that waits for those before it.
#[derive(Drop)]
pub struct Waiting {
    /// The index of its frame in the input, from 0.
    pub index: u32,
    /// Its number.
    pub number: u32,
    /// Its bytes, at most `MAX_BLOCK_BYTES`.
    pub bytes: Bytes,
}

/// What is to become of a block that arrives, by its number, and of bytes that spell none.
#[derive(Clone, Copy)]
pub enum Arrival {
    /// Its number, this one, is held: it is known, or a fork.
    Held { number: u32 },
    /// It is the next block: the chain decides.
    Due,
    /// It waits for the blocks before it. This is its number.
    Early { number: u32 },
    /// It is dropped.
    Dropped(Cause),
}

/// The index of the first block with this number among those that wait; `None` exactly if none has
/// it.
pub fn position_of(waiting: &[Waiting], number: u32) -> Option<usize>
    ensures { result ≡ position_of number waiting.now }
{
    waiting.iter().position(|frame| frame.number == number)
}

/// What is to become of a block with this number, if `held` blocks are held and these wait. A block
/// with a held number is known or a fork. Otherwise it is dropped if it is too far ahead, and then
/// if one with its number waits; and what remains is early, or due as the next block.
pub fn arrival_of(held: u32, waiting: &[Waiting], number: u32) -> Arrival
    ensures { result ≡ arrival_of held waiting.now number }
{
    if number < held {
        return Arrival::Held { number };
    }
    if number - held > MAX_AHEAD {
        return Arrival::Dropped(Cause::Far { held });
    }
    if position_of(waiting, number).is_some() {
        return Arrival::Dropped(Cause::Taken);
    }
    if number > held {
        return Arrival::Early { number };
    }
    Arrival::Due
}

/// What is to become of the block that these bytes spell; if they spell none, they are dropped as
/// malformed.
pub fn arrival_in(
    alloc: Global,
    held: u32,
    waiting: &[Waiting],
    bytes: &[u8],
) -> Result<Arrival, Memory>
    ensures { IfOk result
        (λ arrival. arrival ≡ arrival_in held waiting.now (block_in bytes.now)) }
{
    match decode(alloc, bytes) {
        Ok(block) => Ok(arrival_of(held, waiting, block.number)),
        Err(DecodeError::Malformed { at }) => {
            Ok(Arrival::Dropped(Cause::Refused(Refusal::Malformed(at))))
        }
        Err(DecodeError::Memory) => Err(Memory),
    }
}
