//! Taking one frame: its line is printed only after the node has taken it.

ghost use Rattle.std.{
  specs.Prelude.{◌≡◌, true, ℕ, List, Some, IsErrOf, refl},
  proofs.Common.{◌∙◌},
};
ghost use Rattle.lc_base.specs.Faults.{HasCause};
ghost use Rattle.disk_model.specs.Disk.{Keeps, content_of};
ghost use Rattle.block_codec.specs.{Reading.{block_in}, declared.block.Block.{Block}};
ghost use Rattle.block_log.specs.Log.{next_in_log};
ghost use Rattle.chain_replay.specs.Judging.{judgement_of};
ghost use Rattle.lc_io.specs.Scratch.{is_known, Retains};
ghost use Rattle.cli_promises.specs.{
  recovery.Node.{IsNodeOf, IsReady, logged_in, stored_placement},
  Appending.{Grows},
  Lines.{appended_text},
};
ghost use Rattle.cli_append.specs.Steps.{AppendsFrame, IfLonger, Takes, TellsLine};

use crate::telling::tell_frame;
use chain_input::{FrameTaker, Turn};
use cli_promises::{AppendError, Appended, Node, RunStop, appended_line};
use disk_model::Disk;
use lc_base::Memory;
use lc_io::{Scratch, Wire};
use std::alloc::Global;

/// Discards the node that an error returned, if any.
fn give_up(back: Option<Node>) {
    if let Some(node) = back {
        node.give_up();
    }
}

/// Prints the line of a frame that was taken.
fn tell_appended<M: Disk + Wire>(
    alloc: Global,
    machine: &mut M,
    appended: &Appended,
) -> Result<(), RunStop>
    ensures { TellsLine M.now M.disk M.told M.disk_faults M.wire_faults machine.old machine.new
        (appended_text appended.now) result }
{
    let is_known = matches!(appended, Appended::Known { .. });
    match appended_line(alloc, appended) {
        Ok(line) => tell_frame(machine, line.as_bytes(), is_known),
        Err(Memory) => Err(RunStop::Memory),
    }
}

/// Takes a frame: its block is stored if it is the next one, and then its line is printed.
pub fn take_frame<M: Disk + Wire, S: Scratch>(
    alloc: Global,
    machine: &mut M,
    scratch: &mut S,
    node: Node,
    frame: &[u8],
) -> Result<Turn<Node>, RunStop>
    requires ready { IsReady node (M.disk machine.old (M.now machine.old)) (S.state scratch.old) }
    ensures takes { is_known (S.state scratch.old) ≡ true → (blocks : List Block) → IsNodeOf node
        (M.disk machine.old (M.now machine.old)) blocks
        → Takes M.now M.disk M.told machine.old machine.new (logged_in node.log blocks)
        (judgement_of (stored_placement node.log.is_marked) blocks (block_in frame.now)) result }
    ensures log_goes_on { (content : List ℕ) → content_of (M.disk machine.old (M.now machine.old))
        ≡ Some content → Keeps M.now M.disk machine.old machine.new (Grows next_in_log content) }
    ensures ready { IfLonger (λ longer. IsReady longer (M.disk machine.new (M.now machine.new))
        (S.state scratch.new)) result }
    ensures retains { Retains (S.state scratch.old) (S.state scratch.new) }
    ensures disk_fault { HasCause (M.disk_faults machine.old) (M.disk_faults machine.new)
        (IsErrOf result RunStop.DiskFault) }
    ensures scratch_fault { HasCause (S.scratch_faults scratch.old) (S.scratch_faults scratch.new)
        (IsErrOf result RunStop.ScratchFault) }
    ensures untold { HasCause (M.wire_faults machine.old) (M.wire_faults machine.new)
        (IsErrOf result RunStop.Untold) }
    ensures reads { IsErrOf result RunStop.Unreadable → ⊥ }
{
    match node.append(alloc, machine, scratch, frame) {
        Ok((longer, appended)) => match tell_appended(alloc, machine, &appended) {
            Ok(()) => Ok(Turn::Taken(longer)),
            Err(stop) => {
                longer.give_up();
                Err(stop)
            }
        },
        Err((back, error)) => {
            give_up(back);
            match error {
                AppendError::Refused(refusal) => Ok(Turn::Refused(refusal)),
                AppendError::DiskFault => Err(RunStop::DiskFault),
                AppendError::ScratchFault => Err(RunStop::ScratchFault),
                AppendError::Memory => Err(RunStop::Memory),
            }
        }
    }
}

/// The machine and the scratch device that a node is kept on, lent to take frames.
#[derive(Drop)]
pub struct Appender<'a, M: Disk + Wire, S: Scratch> {
    pub machine: &'a mut M,
    pub scratch: &'a mut S,
}

impl<'a, M: Disk + Wire, S: Scratch> FrameTaker for Appender<'a, M, S> {
    type Chain = Node;

    type Stop = RunStop;

    ghost ready = { λ s node. IsReady node (M.disk s.machine.now (M.now s.machine.now))
        (S.state s.scratch.now) };

    // Both fields are still the references that it was made with, so whoever lent them has them
    // back.
    ghost same = { λ s t. (t.machine.ghost_name ≡ s.machine.ghost_name)
        × (t.scratch.ghost_name ≡ s.scratch.ghost_name) };

    ghost turn = { λ s node frame t result. AppendsFrame M.now M.disk M.told M.disk_faults
        M.wire_faults S.state S.scratch_faults (s.machine.now, s.scratch.now) node frame
        (t.machine.now, t.scratch.now) result };

    fn take(&mut self, alloc: Global, chain: Node, frame: &[u8]) -> Result<Turn<Node>, RunStop>
        requires ready { IsReady chain (M.disk self.old.machine.now (M.now self.old.machine.now))
            (S.state self.old.scratch.now) }
        ensures same { (self.new.machine.ghost_name ≡ self.old.machine.ghost_name)
            × (self.new.scratch.ghost_name ≡ self.old.scratch.ghost_name) }
        ensures turn { AppendsFrame M.now M.disk M.told M.disk_faults M.wire_faults S.state
            S.scratch_faults (self.old.machine.now, self.old.scratch.now) chain frame.now
            (self.new.machine.now, self.new.scratch.now) result }
    {
        take_frame(alloc, self.machine, self.scratch, chain, frame)
    }

    ghost same_refl = { λ s. (refl, refl) };

    ghost same_trans = { λ s t u p q. (q.0 ∙ p.0, q.1 ∙ p.1) };

    ghost turn_ready = { λ s chain frame t longer turn. turn.ready };
}
