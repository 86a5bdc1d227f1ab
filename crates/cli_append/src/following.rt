//! Following an input: all of its frames are delivered, and a block is stored before its line is
//! printed.

ghost use Rattle.std.specs.Prelude.{◌≡◌, true, ℕ, List, [], ◌∷◌, length, Some, IfOk};
ghost use Rattle.std.specs.Prelude.{IsErrOf, is_ok};
ghost use Rattle.lc_base.specs.Faults.{HasCause};
ghost use Rattle.block_codec.specs.declared.block.Block.{Block};
ghost use Rattle.block_log.specs.{Log.{next_in_log}, Standing.{NextBlock}};
ghost use Rattle.chain_exec.specs.Compiled.{compiled_in};
ghost use Rattle.chain_input.specs.Taking.{TakesInput};
ghost use Rattle.lc_io.specs.{Disk.{Stays}, Scratch.{is_known, Retains}};
ghost use Rattle.cli_promises.specs.{
  recovery.Node.{IsNodeOf, IsReady, logged_in, stored_placement},
  Promises.{plain, Telling},
  Appending.{GoesFrom, Grows, IsKnown},
  Following.{FollowsAll, follow_all},
  FollowLines.{follow_line as follow_text},
};
ghost use Rattle.disk_model.specs.Disk.{Keeps, content_of};
ghost use Rattle.cli_append.specs.FollowSteps.{FollowsFrame};

use crate::follow_lines::follow_line;
use crate::follow_taking::{Deliverer, Following};
use crate::telling::{refuse, tell_held};
use chain_input::{InputEnd, InputStop, take_frames};
use cli_promises::{Node, RunEnd, RunStop};
use disk_model::Disk;
use follow_core::Follower;
use lc_base::Memory;
use lc_io::{Scratch, Source, Wire};
use std::alloc::Global;

/// Prints the last line: how many blocks are held, and how many wait.
fn tell_end<M: Disk + Wire>(
    alloc: Global,
    machine: &mut M,
    follower: Follower,
) -> Result<RunEnd, RunStop>
    ensures lines { (next : NextBlock) → Telling next M.now M.disk M.told machine.old machine.new
        (plain (follow_text (length follower.node.chain.digests) (length follower.waiting)) ∷ [])
        (is_ok result) }
    ensures end { IfOk result (λ end. end ≡ RunEnd.Whole) }
    ensures disk { Stays M.now M.disk machine.old machine.new }
    ensures disk_fault { HasCause (M.disk_faults machine.old) (M.disk_faults machine.new)
        (IsErrOf result RunStop.DiskFault) }
    ensures untold { HasCause (M.wire_faults machine.old) (M.wire_faults machine.new)
        (IsErrOf result RunStop.Untold) }
    ensures reads { IsErrOf result RunStop.Unreadable → ⊥ }
    ensures keeps { IsErrOf result RunStop.ScratchFault → ⊥ }
{
    let blocks = follower.node().blocks();
    let waiting = follower.waiting();
    follower.give_up();
    match follow_line(alloc, blocks, waiting) {
        Ok(line) => match tell_held(machine, line.as_bytes()) {
            Ok(()) => Ok(RunEnd::Whole),
            Err(stop) => Err(stop),
        },
        Err(Memory) => Err(RunStop::Memory),
    }
}

/// Delivers the frames of the input one after another, and says how they end. The last line is not
/// printed.
fn deliver_all<I: Source, M: Disk + Wire, S: Scratch>(
    alloc: Global,
    source: &mut I,
    machine: &mut M,
    scratch: &mut S,
    node: Node,
) -> Result<InputEnd<Following>, InputStop<RunStop>>
    requires ready { IsReady node (M.disk machine.old (M.now machine.old)) (S.state scratch.old) }
    ensures takes { TakesInput (FollowsFrame M.now M.disk M.told M.disk_faults M.wire_faults S.state
        S.scratch_faults) (record {
          left = I.left source.old;
          taker = (machine.old, scratch.old);
          chain = record { follower = record { node = node; waiting = [] }; next = 0 };
        }) (I.left source.new) (machine.new, scratch.new) result }
    ensures goes_on { is_known (S.state scratch.old) ≡ true → (blocks : List Block) → IsNodeOf node
        (M.disk machine.old (M.now machine.old)) blocks
        → IsKnown (M.disk machine.old (M.now machine.old)) → Keeps M.now M.disk machine.old
        machine.new (GoesFrom (logged_in node.log blocks)) }
    ensures log_goes_on { (content : List ℕ) → content_of (M.disk machine.old (M.now machine.old))
        ≡ Some content → Keeps M.now M.disk machine.old machine.new (Grows next_in_log content) }
    ensures retains { Retains (S.state scratch.old) (S.state scratch.new) }
    ensures unreadable { HasCause (I.source_faults source.old) (I.source_faults source.new)
        (IsErrOf result InputStop.Fault) }
    ensures disk_fault { HasCause (M.disk_faults machine.old) (M.disk_faults machine.new)
        (IsErrOf result (InputStop.Taker RunStop.DiskFault)) }
    ensures scratch_fault { HasCause (S.scratch_faults scratch.old) (S.scratch_faults scratch.new)
        (IsErrOf result (InputStop.Taker RunStop.ScratchFault)) }
    ensures untold { HasCause (M.wire_faults machine.old) (M.wire_faults machine.new)
        (IsErrOf result (InputStop.Taker RunStop.Untold)) }
    ensures reads { IsErrOf result (InputStop.Taker RunStop.Unreadable) → ⊥ }
{
    let mut deliverer = Deliverer { machine, scratch };
    let follower = Follower::new(alloc, node);
    take_frames(
        alloc,
        source,
        &mut deliverer,
        Following { follower, next: 0 },
    )
}

/// Delivers the frames of the input to a follower, one after another, up to the first of bad form,
/// and then prints how many blocks are held and how many wait. Blocks may come in any order: one
/// that comes early waits, and one that cannot be taken is dropped. A block is stored before its
/// line is printed.
pub fn follow<I: Source, M: Disk + Wire, S: Scratch>(
    alloc: Global,
    source: &mut I,
    machine: &mut M,
    scratch: &mut S,
    node: Node,
) -> Result<RunEnd, RunStop>
    requires ready { IsReady node (M.disk machine.old (M.now machine.old)) (S.state scratch.old) }
    // If it is known what the source has left, and which bytes the scratch device holds, the frames
    // are delivered, and the lines of all turns printed, as the fold of the input says, by the mark
    // of the log.
    ensures follows { is_known (S.state scratch.old) ≡ true → (blocks : List Block) (input : List ℕ)
        → IsNodeOf node (M.disk machine.old (M.now machine.old)) blocks → I.left source.old
        ≡ Some input
        → FollowsAll M.now M.disk M.told machine.old machine.new (I.left source.new)
        (logged_in node.log blocks)
        (follow_all compiled_in stored_placement (logged_in node.log blocks) input) result }
    // Whether or not it is known what the source has left, if it is known which bytes the scratch
    // device holds: a crash at any moment leaves the chain from before, and any blocks after it.
    ensures goes_on { is_known (S.state scratch.old) ≡ true → (blocks : List Block) → IsNodeOf node
        (M.disk machine.old (M.now machine.old)) blocks
        → IsKnown (M.disk machine.old (M.now machine.old)) → Keeps M.now M.disk machine.old
        machine.new (GoesFrom (logged_in node.log blocks)) }
    // Whatever the source has left and the scratch device returns, if the disk is known: a crash at
    // any moment leaves the chain from before, and any blocks after it, with rows not counted.
    ensures log_goes_on { (content : List ℕ) → content_of (M.disk machine.old (M.now machine.old))
        ≡ Some content → Keeps M.now M.disk machine.old machine.new (Grows next_in_log content) }
    // What was on the scratch device stays there.
    ensures retains { Retains (S.state scratch.old) (S.state scratch.new) }
    // A source, a disk, a scratch device or a wire is blamed exactly if it failed.
    ensures unreadable { HasCause (I.source_faults source.old) (I.source_faults source.new)
        (IsErrOf result RunStop.Unreadable) }
    ensures disk_fault { HasCause (M.disk_faults machine.old) (M.disk_faults machine.new)
        (IsErrOf result RunStop.DiskFault) }
    ensures scratch_fault { HasCause (S.scratch_faults scratch.old) (S.scratch_faults scratch.new)
        (IsErrOf result RunStop.ScratchFault) }
    ensures untold { HasCause (M.wire_faults machine.old) (M.wire_faults machine.new)
        (IsErrOf result RunStop.Untold) }
{
    match deliver_all(alloc, source, machine, scratch, node) {
        Ok(InputEnd::Whole(following)) => tell_end(alloc, machine, following.follower),
        Ok(InputEnd::Refused { frame, cause }) => refuse(alloc, machine, frame, cause),
        Err(InputStop::Fault) => Err(RunStop::Unreadable),
        Err(InputStop::Memory) => Err(RunStop::Memory),
        Err(InputStop::Taker(stop)) => Err(stop),
    }
}
