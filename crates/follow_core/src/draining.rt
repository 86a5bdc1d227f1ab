//! A further turn of a delivery.

ghost use Rattle.std.specs.{
  Prelude.{◌≡◌, ℕ, List, Some, None, Ok, length, false, true, IfOk, IsErrOf},
  Option.{is_some},
};
ghost use Rattle.lc_base.specs.Faults.{HasCause};
ghost use Rattle.disk_model.specs.{Disk.{Keeps, content_of}, Leaving.{LeavesWire}};
ghost use Rattle.lc_io.specs.Scratch.{is_known, Serves};
ghost use Rattle.recovery.specs.Node.{IsReady, stored_placement};
ghost use Rattle.follower_steps.specs.{
  Steps.{State, further_turn, position_of},
  Events.{state_after},
};
ghost use Rattle.follow_core.specs.{
  Follower.{HasMadeAny, IsFollowerOf, IsTurnImage},
  Turning.{IsFurtherTurn, KeepsLogOf, adds_any, due_in, made, reaches_disk, waiting_without},
};

use crate::follower::Follower;
use crate::turn::{FollowFault, Turn};
use disk_model::Disk;
use follower_steps::position_of;
use lc_io::Scratch;
use std::alloc::Global;

/// A turn that was made, where there may be none.
fn made(
    answer: Result<(Follower, Turn), FollowFault>,
) -> Result<(Follower, Option<Turn>), FollowFault>
    ensures { result ≡ made answer }
{
    match answer {
        Ok((follower, turn)) => Ok((follower, Some(turn))),
        Err(fault) => Err(fault),
    }
}

impl Follower {
    /// A further turn of a delivery: the waiting block whose number is the number of held blocks is
    /// taken out, and the chain decides about it. `None` exactly if no such block waits.
    ///
    /// The follower is discarded if the disk or the scratch device fails, or if memory runs out.
    pub fn drain<M: Disk, S: Scratch>(
        self,
        alloc: Global,
        machine: &mut M,
        scratch: &mut S,
    ) -> Result<(Follower, Option<Turn>), FollowFault>
        requires ready { IsReady self.node (M.disk machine.old (M.now machine.old))
            (S.state scratch.old) }
        // If it is known which bytes the scratch device holds: the follower makes the further turn,
        // and reports it, unless a device fails or memory runs out.
        ensures answer { is_known (S.state scratch.old) ≡ true → (state : State)
            → IsFollowerOf self (M.disk machine.old (M.now machine.old)) state
            → HasMadeAny (M.disk machine.new (M.now machine.new)) state
            (further_turn stored_placement state) result }
        // A crash at any moment leaves the chain from before the turn, or that from after it.
        ensures images { is_known (S.state scratch.old) ≡ true
            → (state : State) (content : List ℕ)
            → IsFollowerOf self (M.disk machine.old (M.now machine.old)) state
            → content_of (M.disk machine.old (M.now machine.old)) ≡ Some content
            → Keeps M.now M.disk machine.old machine.new
            (IsTurnImage state (state_after state (further_turn stored_placement state))) }
        // Whether or not that is known: a crash at any moment leaves the chain from before the
        // call, or that with the block that is taken out, if rows are not counted.
        ensures log_images { KeepsLogOf M.now M.disk machine.old machine.new
            (due_in (length self.node.chain.digests) self.waiting) }
        // A follower that is returned is ready for the next call, its log is marked exactly if it
        // was, and what waits is without the block that was taken out, if there was one.
        ensures ready { IfOk result (λ done. IsReady done.0.node
            (M.disk machine.new (M.now machine.new)) (S.state scratch.new)) }
        ensures marked { IfOk result
            (λ done. done.0.node.log.is_marked ≡ self.node.log.is_marked) }
        ensures waiting { IfOk result (λ done. done.0.waiting ≡ waiting_without self.waiting
            (position_of (length self.node.chain.digests) self.waiting)) }
        // Whatever is known of the devices, the chain decides about the block that is taken out. If
        // there is none, nothing is done: no device is called, and memory doesn't run out.
        ensures turn { IfOk result (λ done. IsFurtherTurn self.node
            (due_in (length self.node.chain.digests) self.waiting) done.0.node done.1) }
        ensures none { position_of (length self.node.chain.digests) self.waiting ≡ None
            → (result ≡ Ok (self, None)) × (machine.new ≡ machine.old)
            × (scratch.new ≡ scratch.old) }
        ensures any { IfOk result (λ done. is_some done.1
            ≡ is_some (position_of (length self.node.chain.digests) self.waiting)) }
        // If no block was stored and the disk did not fail, the disk was not touched, and the
        // content at entry is all that a crash could have left.
        ensures untouched { reaches_disk adds_any result ≡ false → machine.new ≡ machine.old }
        ensures only_image { reaches_disk adds_any result ≡ false → (content : List ℕ)
            → content_of (M.disk machine.old (M.now machine.old)) ≡ Some content
            → Keeps M.now M.disk machine.old machine.new (λ image. image ≡ content) }
        ensures wire { LeavesWire M.told M.wire_faults machine.old machine.new }
        ensures disk_cause { HasCause (M.disk_faults machine.old) (M.disk_faults machine.new)
            (IsErrOf result FollowFault.DiskFault) }
        ensures scratch { Serves S.state S.scratch_faults scratch.old scratch.new
            (IsErrOf result FollowFault.ScratchFault) }
    {
        let held = self.node.blocks();
        match position_of(self.waiting.as_slice(), held) {
            None => Ok((self, None)),
            Some(at) => {
                let Follower { node, mut waiting } = self;
                let block = waiting.remove(at);
                let rest = Follower { node, waiting };
                let bytes = block.bytes.as_bytes();
                made(rest.decided(alloc, machine, scratch, block.index, bytes))
            }
        }
    }
}
