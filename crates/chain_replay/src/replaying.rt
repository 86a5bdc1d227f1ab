//! What every chain can do, wherever it keeps its rows: place a block, judge bytes, and run the
//! next block.

ghost use Rattle.std.specs.Prelude.{
  ◌≡◌,
  ◌≤◌,
  Bool,
  false,
  List,
  [],
  ◌∷◌,
  ◌++◌,
  length,
  IfOk,
  IsErrOf,
};
ghost use Rattle.lc_base.specs.{
  Faults.{HasCause},
  declared.host_error.HostError.TheVariants.{Fault},
};
ghost use Rattle.block_codec.specs.{
  Reading.{block_in},
  Spelling.{IsBlock},
  Placement.{digest_of, most_blocks},
  declared.block.Block.{Block as Blocks},
};
ghost use Rattle.chain_exec.specs.Compiled.{compiled_in};
ghost use Rattle.chain_replay.specs.{
  Chain.{ChainState, nothing_kept, placement_by_mark, placement_in, placement_kept, HasRoom, IsKnownFor, StandsFor},
  Judging.{judgement_kept, judgement_of, most_blocks_for, placement_for},
  Judging.{IsJudged, IfNext, IsNextBlock},
};
ghost use Rattle.lc_io.specs.Scratch.{ScratchState, Retains};

use crate::judging::{Judged, judge_block};
use crate::marking::Marking;
use crate::refusal::Refusal;
use block_codec::{Block, DecodeError, Placement, block_digest, decode};
use lc_base::{Digest, HostError, Memory, Resources};
use lc_io::Scratch;
use std::alloc::Global;

/// What is kept of a chain while its blocks run one after another. A scratch device may keep a part
/// of it.
pub trait Replay: Drop {
    /// The state that is kept of the chain.
    ghost kept: { Self → ChainState };

    /// Whether the chain calls the device.
    ghost calls_scratch: { Bool };

    /// Whether the chain agrees with the device.
    ghost agrees: { Self → ScratchState → Type 0 };

    /// The chain of no block. It agrees with every device.
    fn start(resources: Resources) -> Result<Self, Memory>
        ensures kept { IfOk result (λ chain. kept chain ≡ nothing_kept) }
        ensures agrees { IfOk result (λ chain. (scratch : ScratchState) → agrees chain scratch) };

    /// The placement of a block with this digest in the chain, which is `marked` or isn't, and has
    /// at most as many blocks as such a chain may have.
    fn place(&self, block: &Block, digest: Digest, marked: bool) -> Placement
        requires is_block { IsBlock block.now }
        requires few { length (kept self.now).digests ≤ most_blocks marked }
        ensures placement { result ≡ placement_kept marked (kept self.now) block.now digest }
        ensures stands { (blocks : List Blocks) → StandsFor (kept self.now) blocks → digest ≡ digest_of block.now → result ≡ placement_by_mark compiled_in marked blocks block.now }
        ensures room { result ≡ Placement.Next → HasRoom (kept self.now) block.now };

    /// Runs the next block and returns the chain with it after the others. On an error the chain is
    /// discarded.
    fn replay<S: Scratch>(
        self,
        alloc: Global,
        scratch: &mut S,
        block: &Block,
        digest: Digest,
    ) -> Result<Self, HostError>
        requires room { HasRoom (kept self) block.now }
        requires is_block { IsBlock block.now }
        requires agrees { agrees self (S.state scratch.old) }
        // Holds if the device is not called, or if it is known which bytes it holds.
        ensures stands { IfOk result (λ longer. IsKnownFor calls_scratch (S.state scratch.old) → (blocks : List Blocks) → StandsFor (kept self) blocks → digest ≡ digest_of block.now → placement_in compiled_in blocks block.now ≡ Placement.Next → StandsFor (kept longer) (blocks ++ block.now ∷ [])) }
        // Holds in either case.
        ensures digests { IfOk result (λ longer. (kept longer).digests ≡ (kept self).digests ++ digest ∷ []) }
        ensures agrees { IfOk result (λ longer. agrees longer (S.state scratch.new)) }
        ensures retains { Retains (S.state scratch.old) (S.state scratch.new) }
        ensures cause { HasCause (S.scratch_faults scratch.old) (S.scratch_faults scratch.new) (IsErrOf result Fault) }
        ensures unused { calls_scratch ≡ false → (scratch.new ≡ scratch.old) × (IsErrOf result Fault → ⊥) };

    /// Discards the chain. What it keeps has many parts, and a function that discards it by this
    /// call, instead of at the end of its scope, is checked in much less time.
    fn give_up(self);

    /// Judges bytes: decodes them and places the block that they spell; `marking` says which version
    /// is next, and so how many blocks there may be. What is kept decides, whatever blocks it stands
    /// for.
    final fn judge(&self, alloc: Global, bytes: &[u8], marking: Marking) -> Result<Judged, Memory>
        requires few { length (kept self.now).digests ≤ most_blocks_for marking }
        ensures judged { IfOk result (λ answer. (blocks : List Blocks) → StandsFor (kept self.now) blocks → IsJudged answer (judgement_of (placement_for compiled_in marking) blocks (block_in bytes.now))) }
        ensures kept { IfOk result (λ answer. IsJudged answer (judgement_kept marking (kept self.now) (block_in bytes.now))) }
        ensures next { IfOk result (λ answer. IfNext answer (IsNextBlock marking (kept self.now) bytes.now)) }
    {
        match decode(alloc, bytes) {
            Ok(block) => {
                let digest = block_digest(bytes);
                let marked = marking.is_marked_for(&block);
                let placement = self.place(&block, digest, marked);
                Ok(judge_block(block, digest, placement))
            }
            Err(DecodeError::Malformed { at }) => Ok(Judged::Refused(Refusal::Malformed(at))),
            Err(DecodeError::Memory) => Err(Memory),
        }
    }
}
