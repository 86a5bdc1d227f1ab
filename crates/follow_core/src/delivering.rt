//! The first turn of a delivery.

ghost use Rattle.std.specs.{
  Prelude.{◌≡◌, ℕ, List, Some, [], ◌∷◌, ◌++◌, length, false, true, IfOk, IsErrOf},
};
ghost use Rattle.lc_base.specs.Faults.{HasCause};
ghost use Rattle.disk_model.specs.{Disk.{Keeps, content_of}, Leaving.{LeavesWire}};
ghost use Rattle.lc_io.specs.Scratch.{is_known, Serves};
ghost use Rattle.block_codec.specs.Reading.{block_in};
ghost use Rattle.recovery.specs.Node.{IsReady, KeepsLog, stored_placement};
ghost use Rattle.follower_steps.specs.Steps.{State, arrival_in, first_turn};
ghost use Rattle.follow_core.specs.{
  Follower.{HasMade, IsFollowerOf, IsTurnImage},
  Turning.{IsFirstTurn, adds, is_due, reaches_disk, waiting_with},
};

use crate::follower::Follower;
use crate::turn::{FollowFault, Turn};
use disk_model::Disk;
use follower_steps::{Arrival, Waiting, arrival_in};
use lc_base::{Bytes, Memory};
use lc_io::Scratch;
use std::alloc::Global;

impl Follower {
    /// What is to become of these bytes.
    fn arrival(&self, alloc: Global, bytes: &[u8]) -> Result<Arrival, Memory>
        ensures { IfOk result (λ arrival. arrival
            ≡ arrival_in (length self.now.node.chain.digests) self.now.waiting
            (block_in bytes.now)) }
    {
        let held = self.node.blocks();
        arrival_in(alloc, held, self.waiting.as_slice(), bytes)
    }

    /// Keeps a block until those before it are held. If memory runs out the follower is discarded.
    fn kept(self, index: u32, number: u32, bytes: Bytes) -> Result<(Follower, Turn), FollowFault>
        requires early { arrival_in (length self.node.chain.digests) self.waiting (block_in bytes)
            ≡ Arrival.Early number }
        ensures node { IfOk result (λ done. done.0.node ≡ self.node) }
        ensures waiting { IfOk result (λ done. done.0.waiting
            ≡ self.waiting ++ record { index = index; number = number; bytes = bytes } ∷ []) }
        ensures turn { IfOk result (λ done. done.1 ≡ Turn.Kept number) }
        ensures no_disk_fault { IsErrOf result FollowFault.DiskFault → ⊥ }
        ensures no_scratch_fault { IsErrOf result FollowFault.ScratchFault → ⊥ }
    {
        let Follower { node, mut waiting } = self;
        let block = Waiting {
            index,
            number,
            bytes,
        };
        match waiting.push(block) {
            Ok(()) => Ok((Follower { node, waiting }, Turn::Kept { number })),
            Err(_) => {
                node.give_up();
                Err(FollowFault::Memory)
            }
        }
    }

    /// The first turn of the delivery of the frame `index`, which has these bytes. A block whose
    /// number is held is known, or dropped as a fork. About the next block the chain decides: it is
    /// added, or dropped. A block that comes early waits. Bytes that spell no block are dropped,
    /// and so is a block that is too far ahead, or has the number of one that waits.
    ///
    /// The follower is discarded if the disk or the scratch device fails, or if memory runs out.
    pub fn deliver<M: Disk, S: Scratch>(
        self,
        alloc: Global,
        machine: &mut M,
        scratch: &mut S,
        index: u32,
        bytes: Bytes,
    ) -> Result<(Follower, Turn), FollowFault>
        requires ready { IsReady self.node (M.disk machine.old (M.now machine.old))
            (S.state scratch.old) }
        // If it is known which bytes the scratch device holds: the follower makes the first turn,
        // and reports it, unless a device fails or memory runs out.
        ensures answer { is_known (S.state scratch.old) ≡ true → (state : State)
            → IsFollowerOf self (M.disk machine.old (M.now machine.old)) state
            → HasMade (M.disk machine.new (M.now machine.new)) state.blocks
            (first_turn stored_placement state index bytes) result }
        // A crash at any moment leaves the chain from before the turn, or that from after it.
        ensures images { is_known (S.state scratch.old) ≡ true
            → (state : State) (content : List ℕ)
            → IsFollowerOf self (M.disk machine.old (M.now machine.old)) state
            → content_of (M.disk machine.old (M.now machine.old)) ≡ Some content
            → Keeps M.now M.disk machine.old machine.new
            (IsTurnImage state (first_turn stored_placement state index bytes).state) }
        // Whether or not that is known: a crash at any moment leaves the chain from before the
        // call, or that with the block that the bytes spell, if rows are not counted.
        ensures log_images { KeepsLog M.now M.disk machine.old machine.new bytes }
        // Whatever is known of the devices: if the bytes spell no block, or one that isn't due,
        // the turn is told by the digests of the held blocks and by what waits, the node is as it
        // was, and no device is called. If the block is due, the chain decides.
        ensures turn { IfOk result
            (λ done. IsFirstTurn self.node index bytes
            (arrival_in (length self.node.chain.digests) self.waiting (block_in bytes))
            done.0.node done.1) }
        ensures unused { is_due
            (arrival_in (length self.node.chain.digests) self.waiting (block_in bytes)) ≡ false
            → (machine.new ≡ machine.old) × (scratch.new ≡ scratch.old) }
        // A follower that is returned is ready for the next call, its log is marked exactly if it
        // was, and the block waits exactly if it came early.
        ensures ready { IfOk result (λ done. IsReady done.0.node
            (M.disk machine.new (M.now machine.new)) (S.state scratch.new)) }
        ensures marked { IfOk result
            (λ done. done.0.node.log.is_marked ≡ self.node.log.is_marked) }
        ensures waiting { IfOk result
            (λ done. done.0.waiting ≡ waiting_with self.waiting index bytes
            (arrival_in (length self.node.chain.digests) self.waiting (block_in bytes))) }
        // If no block was stored and the disk did not fail, the disk was not touched, and the
        // content at entry is all that a crash could have left.
        ensures untouched { reaches_disk adds result ≡ false → machine.new ≡ machine.old }
        ensures only_image { reaches_disk adds result ≡ false → (content : List ℕ)
            → content_of (M.disk machine.old (M.now machine.old)) ≡ Some content
            → Keeps M.now M.disk machine.old machine.new (λ image. image ≡ content) }
        ensures wire { LeavesWire M.told M.wire_faults machine.old machine.new }
        ensures disk_cause { HasCause (M.disk_faults machine.old) (M.disk_faults machine.new)
            (IsErrOf result FollowFault.DiskFault) }
        ensures scratch { Serves S.state S.scratch_faults scratch.old scratch.new
            (IsErrOf result FollowFault.ScratchFault) }
    {
        match self.arrival(alloc, bytes.as_bytes()) {
            Ok(Arrival::Held { number }) => {
                let turn = self.known_or_fork(index, number, bytes.as_bytes());
                Ok((self, turn))
            }
            Ok(Arrival::Due) => self.decided(alloc, machine, scratch, index, bytes.as_bytes()),
            Ok(Arrival::Early { number }) => self.kept(index, number, bytes),
            Ok(Arrival::Dropped(cause)) => Ok((self, Turn::Dropped { index, cause })),
            Err(Memory) => {
                self.give_up();
                Err(FollowFault::Memory)
            }
        }
    }
}
