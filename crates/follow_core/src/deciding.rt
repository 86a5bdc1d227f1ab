//! What becomes of a block whose number is held, and of one about which the chain decides.

ghost use Rattle.std.specs.{
  Prelude.{◌≡◌, ℕ, ◌<◌, List, Some, Ok, slice_get, length, false, true, IfOk, IsErrOf},
  Option.{is_some},
};
ghost use Rattle.lc_base.specs.{
  Faults.{HasCause},
  declared.digest.Digest.{Digest as Digests},
};
ghost use Rattle.block_codec.specs.{
  Placement.{bytes_digest, digest_of},
  Reading.{block_in},
  declared.block.Block.{Block as Blocks},
};
ghost use Rattle.disk_model.specs.{Disk.{Keeps, content_of}, Leaving.{LeavesWire}};
ghost use Rattle.lc_io.specs.Scratch.{is_known, Serves};
ghost use Rattle.recovery.specs.Node.{HandsBack, IsReady, KeepsLog, is_refusal, stored_placement};
ghost use Rattle.follower_steps.specs.Steps.{AreAhead, State, decided, position_of};
ghost use Rattle.follow_core.specs.{
  Follower.{HasMade, IsFollowerOf, IsTurnImage},
  Turning.{IsDecided, adds, held_turn, node_turn, reaches_disk, refused_turn, turn_of},
  Turning.{with_waiting},
};

use crate::follower::Follower;
use crate::turn::{FollowFault, Turn};
use block_codec::{Misplaced, block_digest};
use disk_model::Disk;
use follower_steps::{Cause, Refusal, Waiting};
use lc_base::Digest;
use lc_io::Scratch;
use recovery::{AppendError, Appended, Node};
use std::alloc::Global;

/// What became of a block that was not refused.
fn turn_of(appended: Appended) -> Turn
    ensures { result ≡ turn_of appended }
{
    match appended {
        Appended::Known { number } => Turn::Known { number },
        Appended::Added {
            number,
            rows,
            receipts,
            root,
        } => Turn::Block {
            number,
            rows,
            receipts,
            root,
        },
    }
}

/// What is returned if the node did not take the block of the frame `index`. A refused block is
/// dropped, and the node goes on.
fn refused_turn(
    back: Option<Node>,
    error: AppendError,
    index: u32,
) -> Result<(Node, Turn), FollowFault>
    requires { is_some back ≡ is_refusal error }
    ensures { result ≡ refused_turn index back error }
{
    match back {
        Some(node) => match error {
            AppendError::Refused(refusal) => {
                let cause = Cause::Refused(refusal);
                Ok((node, Turn::Dropped { index, cause }))
            }
            AppendError::DiskFault | AppendError::ScratchFault | AppendError::Memory => {
                unreachable!()
            }
        },
        None => match error {
            AppendError::Refused(_) => unreachable!(),
            AppendError::DiskFault => Err(FollowFault::DiskFault),
            AppendError::ScratchFault => Err(FollowFault::ScratchFault),
            AppendError::Memory => Err(FollowFault::Memory),
        },
    }
}

/// What becomes of the block of the frame `index`, whose number is held, by the digest of the held
/// one and by its own: it is known, or dropped as a fork.
fn held_turn(index: u32, number: u32, have: Digest, digest: Digest) -> Turn
    ensures { result ≡ held_turn index number have digest }
{
    if have == digest {
        return Turn::Known { number };
    }
    let cause = Cause::Refused(Refusal::Placed(Misplaced::Fork { have }));
    Turn::Dropped { index, cause }
}

/// What is returned for the block of the frame `index`, by what its node returned.
fn node_turn(
    answer: Result<(Node, Appended), (Option<Node>, AppendError)>,
    index: u32,
) -> Result<(Node, Turn), FollowFault>
    requires { HandsBack answer }
    ensures { result ≡ node_turn index answer }
{
    match answer {
        Ok((node, appended)) => Ok((node, turn_of(appended))),
        Err((back, error)) => refused_turn(back, error, index),
    }
}

/// The follower of a node that these blocks wait for.
fn with_waiting(
    answer: Result<(Node, Turn), FollowFault>,
    waiting: Vec<Waiting>,
) -> Result<(Follower, Turn), FollowFault>
    requires { IfOk answer (λ done. AreAhead (length done.0.chain.digests) waiting.items) }
    ensures { result ≡ with_waiting waiting.items answer }
{
    match answer {
        Ok((node, turn)) => Ok((Follower { node, waiting }, turn)),
        Err(fault) => Err(fault),
    }
}

impl Follower {
    /// What becomes of the bytes of the frame `index`, which spell a block whose number is held: it
    /// is known if they have the digest of the held one, else dropped as a fork.
    pub(crate) fn known_or_fork(&self, index: u32, number: u32, bytes: &[u8]) -> Turn
        requires held { number < length self.now.node.chain.digests }
        ensures turn { (have : Digests) × (slice_get self.now.node.chain.digests number ≡ Some have)
            × (result ≡ held_turn index number have (bytes_digest bytes.now)) }
        // The digest of bytes that spell a block is that of the block.
        ensures spelled { (block : Blocks) → block_in bytes.now ≡ Ok block
            → bytes_digest bytes.now ≡ digest_of block }
    {
        match self.node.digest(number) {
            Some(have) => held_turn(index, number, have, block_digest(bytes)),
            None => unreachable!(),
        }
    }

    /// The chain decides about the bytes of the frame `index`: a block is added, known or dropped.
    pub(crate) fn decided<M: Disk, S: Scratch>(
        self,
        alloc: Global,
        machine: &mut M,
        scratch: &mut S,
        index: u32,
        bytes: &[u8],
    ) -> Result<(Follower, Turn), FollowFault>
        requires ready { IsReady self.node (M.disk machine.old (M.now machine.old))
            (S.state scratch.old) }
        // The next block doesn't wait, so if one is added, none that waits has its number.
        requires free { is_some (position_of (length self.node.chain.digests) self.waiting)
            ≡ false }
        ensures answer { is_known (S.state scratch.old) ≡ true → (state : State)
            → IsFollowerOf self (M.disk machine.old (M.now machine.old)) state
            → HasMade (M.disk machine.new (M.now machine.new)) state.blocks
            (decided stored_placement state index bytes.now) result }
        ensures images { is_known (S.state scratch.old) ≡ true
            → (state : State) (content : List ℕ)
            → IsFollowerOf self (M.disk machine.old (M.now machine.old)) state
            → content_of (M.disk machine.old (M.now machine.old)) ≡ Some content
            → Keeps M.now M.disk machine.old machine.new
            (IsTurnImage state (decided stored_placement state index bytes.now).state) }
        ensures log_images { KeepsLog M.now M.disk machine.old machine.new bytes.now }
        ensures turn { IfOk result
            (λ done. IsDecided self.node index bytes.now done.0.node done.1) }
        ensures ready { IfOk result (λ done. IsReady done.0.node
            (M.disk machine.new (M.now machine.new)) (S.state scratch.new)) }
        ensures marked { IfOk result
            (λ done. done.0.node.log.is_marked ≡ self.node.log.is_marked) }
        ensures waiting { IfOk result (λ done. done.0.waiting ≡ self.waiting) }
        ensures untouched { reaches_disk adds result ≡ false → machine.new ≡ machine.old }
        ensures only_image { reaches_disk adds result ≡ false → (content : List ℕ)
            → content_of (M.disk machine.old (M.now machine.old)) ≡ Some content
            → Keeps M.now M.disk machine.old machine.new (λ image. image ≡ content) }
        ensures wire { LeavesWire M.told M.wire_faults machine.old machine.new }
        ensures disk_cause { HasCause (M.disk_faults machine.old) (M.disk_faults machine.new)
            (IsErrOf result FollowFault.DiskFault) }
        ensures scratch { Serves S.state S.scratch_faults scratch.old scratch.new
            (IsErrOf result FollowFault.ScratchFault) }
    {
        let Follower { node, waiting } = self;
        let answer = node.append(alloc, machine, scratch, bytes);
        with_waiting(node_turn(answer, index), waiting)
    }
}
