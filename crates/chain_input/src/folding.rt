//! Folding an input into a chain: its frames are judged and taken in order, until one is refused.

ghost use Rattle.lc_base.specs.Faults.{HasCause};
ghost use Rattle.std.specs.Prelude.{◌≡◌, List, IfOk, IfSome, IsErrOf};
ghost use Rattle.block_codec.specs.{Reading.{block_in}, declared.block.Block.{Block as Blocks}};
ghost use Rattle.chain_replay.specs.{
  chain_exec.Compiled.{compiled_in},
  Chain.{placement_in},
  Judging.{judgement_of, IsJudged, IfNext, IsNextBlock},
};
ghost use Rattle.chain_input.specs.{
  Folding.{fold_input},
  Turns.{IsFolderTurn, IsFoldResult, IsWithin, StandsWithLast},
};

use crate::cause::Cause;
use crate::taking::{FrameTaker, InputEnd, InputStop, Turn, take_frames};
use block_codec::FIRST_VERSION;
use chain_replay::{Chain, Judged, Marking, Replay};
use lc_base::{HostError, Memory, Resources};
use lc_io::Source;
use std::alloc::Global;

/// How the frames of an input end.
#[derive(Drop)]
pub enum Folded {
    /// All frames were taken, and make this chain.
    Whole(Chain),
    /// A frame was refused: its number, from 0, and the cause.
    Refused { frame: u32, cause: Cause },
}

/// Takes frames into a chain that no log keeps, and keeps nothing of what their blocks did.
#[derive(Drop)]
struct Folder {
    /// The version of the last block, or `FIRST_VERSION` if there is none.
    last: u8,
}

/// Judges bytes by the versions of the chain's blocks, the last of which has the version `last`.
fn judge_by_versions(alloc: Global, chain: &Chain, last: u8, bytes: &[u8]) -> Result<Judged, Memory>
    requires { IsWithin last chain.now }
    ensures judged { IfOk result (λ answer. (blocks : List Blocks) → StandsWithLast chain.now last blocks → IsJudged answer (judgement_of (placement_in compiled_in) blocks (block_in bytes.now))) }
    ensures next { IfOk result (λ answer. IfNext answer (IsNextBlock (Marking.OfVersions last) chain.now bytes.now)) }
{
    match chain.judge(alloc, bytes, Marking::OfVersions { last }) {
        Ok(judged) => Ok(judged),
        Err(Memory) => Err(Memory),
    }
}

impl FrameTaker for Folder {
    type Chain = Chain;

    type Stop = Memory;

    ghost ready = { λ folder chain. IsWithin folder.last chain };

    ghost same = { λ _ _. Unit {0} };

    ghost turn = { λ folder chain frame later result. IfOk result (IsFolderTurn folder.last chain frame later.last) };

    /// Takes a frame into the chain: its block is added if it is the next one, and the chain is
    /// unchanged if it holds the block already. If the frame is refused, the chain is discarded.
    fn take(&mut self, alloc: Global, chain: Chain, frame: &[u8]) -> Result<Turn<Chain>, Memory>
        requires ready { IsWithin self.old.last chain }
        ensures turn { IfOk result (IsFolderTurn self.old.last chain frame.now self.new.last) }
    {
        match judge_by_versions(alloc, &chain, self.last, frame) {
            Ok(Judged::Known { .. }) => Ok(Turn::Taken(chain)),
            Ok(Judged::Next { block, digest }) => {
                let (chain, _) = chain.with_block(alloc, &block, digest)?;
                self.last = block.version;
                Ok(Turn::Taken(chain))
            }
            Ok(Judged::Refused(refusal)) => {
                chain.give_up();
                Ok(Turn::Refused(refusal))
            }
            Err(Memory) => {
                chain.give_up();
                Err(Memory)
            }
        }
    }

    ghost same_refl = { λ _. tt };

    ghost same_trans = { λ _ _ _ _ _. tt };

    ghost turn_ready = { λ _ _ _ _ _ turn. turn.within };
}

/// Takes the frames of an input one after another, starting from the chain of no block.
pub fn fold<I: Source>(resources: Resources, source: &mut I) -> Result<Folded, HostError>
    ensures fold { IfSome (I.left source.old) (λ input. IfOk result (λ folded. IsFoldResult folded (I.left source.new) (fold_input block_in (placement_in compiled_in) input))) }
    ensures cause { HasCause (I.source_faults source.old) (I.source_faults source.new) (IsErrOf result HostError.Fault) }
{
    let chain = Chain::new(resources);
    let mut folder = Folder {
        last: FIRST_VERSION,
    };
    match take_frames(resources.alloc, source, &mut folder, chain) {
        Ok(InputEnd::Whole(chain)) => Ok(Folded::Whole(chain)),
        Ok(InputEnd::Refused { frame, cause }) => Ok(Folded::Refused { frame, cause }),
        Err(InputStop::Fault) => Err(HostError::Fault),
        Err(InputStop::Memory | InputStop::Taker(Memory)) => Err(HostError::Memory),
    }
}
