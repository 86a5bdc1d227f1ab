//! The loop over the frames of an input, whatever takes them.

ghost use Rattle.std.specs.Prelude.{◌≡◌, ℕ, List, Result, Ok, IsErrOf};
ghost use Rattle.lc_base.specs.Faults.{HasCause};
ghost use Rattle.chain_input.specs.{
  Taking.{TakesInput},
  declared.taking.Turn.{Turn as TurnOf},
  declared.taking.Turn.TheVariants.{Taken},
};

use crate::cause::{Cause, cause_of};
use block_codec::Frames;
use chain_replay::Refusal;
use lc_io::Source;
use std::alloc::Global;

/// What becomes of a frame.
#[derive(Drop)]
pub enum Turn<C> {
    /// It is taken, and this is the chain after it.
    Taken(C),
    /// It is refused for this reason, and the chain is discarded.
    Refused(Refusal),
}

/// How the frames of an input end.
#[derive(Drop)]
pub enum InputEnd<C> {
    /// All frames were taken, and this is the chain after them.
    Whole(C),
    /// A frame was refused: its number, from 0, and the cause. The chain was discarded.
    Refused { frame: u32, cause: Cause },
}

/// Why no further frame was taken, though none was refused.
#[derive(Clone, Copy)]
pub enum InputStop<E> {
    /// Reading the input failed.
    Fault,
    /// Memory ran out.
    Memory,
    /// The taker stopped.
    Taker(E),
}

/// Takes frames into a chain, one at a time.
pub trait FrameTaker {
    /// What is kept of the chain from one frame to the next.
    type Chain: Drop;

    /// Why the taker stops.
    type Stop: Copy;

    /// Whether the taker can take frames into this chain.
    ghost ready: { Self → Self.Chain → Type 0 };

    /// Whether the second is the first one later: it has been lent the same things.
    ghost same: { Self → Self → Type 0 };

    /// What a frame's turn is: the taker and the chain before it, the bytes of the frame, the taker
    /// after it, and what is returned.
    ghost turn: { Self → Self.Chain → List ℕ → Self → Result (TurnOf Self.Chain) Self.Stop → Type 0 };

    /// Takes one frame.
    fn take(
        &mut self,
        alloc: Global,
        chain: Self::Chain,
        frame: &[u8],
    ) -> Result<Turn<Self::Chain>, Self::Stop>
        requires ready { ready self.old chain }
        ensures same { same self.old self.new }
        ensures turn { turn self.old chain frame.now self.new result };

    ghost same_refl: { (s : Self) → same s s };

    ghost same_trans: { (s t u : Self) → same s t → same t u → same s u };

    ghost turn_ready: { (s : Self) (chain : Self.Chain) (frame : List ℕ) (t : Self) (longer : Self.Chain) → turn s chain frame t (Ok (Taken longer)) → ready t longer };
}

/// Takes the frames of an input one after another, up to the first that is refused.
pub fn take_frames<I: Source, T: FrameTaker>(
    alloc: Global,
    source: &mut I,
    taker: &mut T,
    chain: T::Chain,
) -> Result<InputEnd<T::Chain>, InputStop<T::Stop>>
    requires ready { T.ready taker.old chain }
    ensures same { T.same taker.old taker.new }
    ensures takes { TakesInput T.turn (record { left = I.left source.old; taker = taker.old; chain = chain }) (I.left source.new) taker.new result }
    ensures cause { HasCause (I.source_faults source.old) (I.source_faults source.new) (IsErrOf result InputStop.Fault) }
{
    let mut chain = chain;
    let mut frames = Frames::new();
    'turns: loop {
        let frame = frames.count();
        match frames.next(alloc, source) {
            Ok(None) => return Ok(InputEnd::Whole(chain)),
            Ok(Some((bytes, more))) => match taker.take(alloc, chain, bytes.as_bytes()) {
                Ok(Turn::Taken(longer)) => {
                    chain = longer;
                    frames = more;
                }
                Ok(Turn::Refused(refusal)) => {
                    let cause = Cause::Block(refusal);
                    return Ok(InputEnd::Refused { frame, cause });
                }
                Err(stop) => return Err(InputStop::Taker(stop)),
            },
            Err(error) => match cause_of(error, InputStop::Fault, InputStop::Memory) {
                Ok(cause) => return Ok(InputEnd::Refused { frame, cause }),
                Err(stop) => return Err(stop),
            },
        }
    }
}
