//! Taking one frame: it is delivered to the follower.

ghost use Rattle.std.{
  specs.Prelude.{◌≡◌, refl},
  proofs.Common.{◌∙◌},
};
ghost use Rattle.cli_promises.specs.recovery.Node.{IsReady};
ghost use Rattle.cli_append.specs.FollowSteps.{FollowsFrame};

use crate::turning::deliver;
use chain_input::{FrameTaker, Turn};
use cli_promises::RunStop;
use disk_model::Disk;
use follow_core::Follower;
use lc_io::{Scratch, Wire};
use std::alloc::Global;

/// What goes on from one frame to the next: the follower, and the index of the next frame.
#[derive(Drop)]
pub struct Following {
    pub follower: Follower,
    pub next: u32,
}

/// The machine and the scratch device that a follower is kept on, lent to deliver frames.
#[derive(Drop)]
pub struct Deliverer<'a, M: Disk + Wire, S: Scratch> {
    pub machine: &'a mut M,
    pub scratch: &'a mut S,
}

impl<'a, M: Disk + Wire, S: Scratch> FrameTaker for Deliverer<'a, M, S> {
    type Chain = Following;

    type Stop = RunStop;

    ghost ready = { λ s following. IsReady following.follower.node
        (M.disk s.machine.now (M.now s.machine.now)) (S.state s.scratch.now) };

    // Both fields are still the references that it was made with, so whoever lent them has them
    // back.
    ghost same = { λ s t. (t.machine.ghost_name ≡ s.machine.ghost_name)
        × (t.scratch.ghost_name ≡ s.scratch.ghost_name) };

    ghost turn = { λ s following frame t result. FollowsFrame M.now M.disk M.told M.disk_faults
        M.wire_faults S.state S.scratch_faults (s.machine.now, s.scratch.now) following frame
        (t.machine.now, t.scratch.now) result };

    fn take(
        &mut self,
        alloc: Global,
        chain: Following,
        frame: &[u8],
    ) -> Result<Turn<Following>, RunStop>
        requires ready { IsReady chain.follower.node
            (M.disk self.old.machine.now (M.now self.old.machine.now))
            (S.state self.old.scratch.now) }
        ensures same { (self.new.machine.ghost_name ≡ self.old.machine.ghost_name)
            × (self.new.scratch.ghost_name ≡ self.old.scratch.ghost_name) }
        ensures turn { FollowsFrame M.now M.disk M.told M.disk_faults M.wire_faults S.state
            S.scratch_faults (self.old.machine.now, self.old.scratch.now) chain frame.now
            (self.new.machine.now, self.new.scratch.now) result }
    {
        let Following { follower, next } = chain;
        match deliver(alloc, self.machine, self.scratch, follower, next, frame) {
            Ok(follower) => {
                let next = next.saturating_add(1);
                Ok(Turn::Taken(Following { follower, next }))
            }
            Err(stop) => Err(stop),
        }
    }

    ghost same_refl = { λ s. (refl, refl) };

    ghost same_trans = { λ s t u p q. (q.0 ∙ p.0, q.1 ∙ p.1) };

    ghost turn_ready = { λ s chain frame t longer turn. turn.ready };
}
