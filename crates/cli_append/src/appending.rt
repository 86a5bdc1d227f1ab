//! Taking all frames of an input: a block is stored before its line is printed.

ghost use Rattle.std.specs.Prelude.{◌≡◌, true, ◌+◌, ℕ, List, Some, IsErrOf};
ghost use Rattle.lc_base.specs.Faults.{HasCause};
ghost use Rattle.block_codec.specs.{
  Reading.{block_in},
  declared.block.Block.{Block},
  declared.limits.TheConstants.{MAX_FRAMES},
};
ghost use Rattle.block_log.specs.Log.{next_in_log};
ghost use Rattle.chain_input.specs.{Folding.{fold_from}, Taking.{TakesInput}};
ghost use Rattle.lc_io.specs.Scratch.{is_known, Retains};
ghost use Rattle.cli_promises.specs.{
  recovery.Node.{IsNodeOf, IsReady, logged_in, stored_placement},
  Appending.{AppendsAll, GoesFrom, Grows, IsKnown},
};
ghost use Rattle.disk_model.specs.Disk.{Keeps, content_of};
ghost use Rattle.cli_append.specs.Steps.{AppendsFrame};

use crate::taking::Appender;
use crate::telling::{end_whole, refuse};
use chain_input::{InputEnd, InputStop, take_frames};
use cli_promises::{Node, RunEnd, RunStop};
use disk_model::Disk;
use lc_io::{Scratch, Source, Wire};
use std::alloc::Global;

/// Takes the frames of the input one after another, and says how they end. The line of a refused
/// frame is not printed.
fn take_all<I: Source, M: Disk + Wire, S: Scratch>(
    alloc: Global,
    source: &mut I,
    machine: &mut M,
    scratch: &mut S,
    node: Node,
) -> Result<InputEnd<Node>, InputStop<RunStop>>
    requires ready { IsReady node (M.disk machine.old (M.now machine.old)) (S.state scratch.old) }
    ensures takes { TakesInput (AppendsFrame M.now M.disk M.told M.disk_faults M.wire_faults S.state
        S.scratch_faults) (record {
          left = I.left source.old;
          taker = (machine.old, scratch.old);
          chain = node;
        }) (I.left source.new) (machine.new, scratch.new) result }
    ensures goes_on { is_known (S.state scratch.old) ≡ true → (blocks : List Block) → IsNodeOf node
        (M.disk machine.old (M.now machine.old)) blocks
        → IsKnown (M.disk machine.old (M.now machine.old)) → Keeps M.now M.disk machine.old
        machine.new (GoesFrom (logged_in node.log blocks)) }
    ensures log_goes_on { (content : List ℕ) → content_of (M.disk machine.old (M.now machine.old))
        ≡ Some content → Keeps M.now M.disk machine.old machine.new (Grows next_in_log content) }
    ensures retains { Retains (S.state scratch.old) (S.state scratch.new) }
    ensures unreadable { HasCause (I.source_faults source.old) (I.source_faults source.new)
        (IsErrOf result InputStop.Fault) }
    ensures disk_fault { HasCause (M.disk_faults machine.old) (M.disk_faults machine.new)
        (IsErrOf result (InputStop.Taker RunStop.DiskFault)) }
    ensures scratch_fault { HasCause (S.scratch_faults scratch.old) (S.scratch_faults scratch.new)
        (IsErrOf result (InputStop.Taker RunStop.ScratchFault)) }
    ensures untold { HasCause (M.wire_faults machine.old) (M.wire_faults machine.new)
        (IsErrOf result (InputStop.Taker RunStop.Untold)) }
    ensures reads { IsErrOf result (InputStop.Taker RunStop.Unreadable) → ⊥ }
{
    let mut appender = Appender { machine, scratch };
    take_frames(alloc, source, &mut appender, node)
}

/// Takes the frames of the input one after another, up to the first that is refused: a block that
/// is the chain's next one is stored, and then its line is printed.
pub fn append<I: Source, M: Disk + Wire, S: Scratch>(
    alloc: Global,
    source: &mut I,
    machine: &mut M,
    scratch: &mut S,
    node: Node,
) -> Result<RunEnd, RunStop>
    requires ready { IsReady node (M.disk machine.old (M.now machine.old)) (S.state scratch.old) }
    // If it is known what the source has left, and which bytes the scratch device holds, the frames
    // are taken, and their lines printed, as the fold of the input says, by the mark of the log.
    ensures appends { is_known (S.state scratch.old) ≡ true → (blocks : List Block) (input : List ℕ)
        → IsNodeOf node (M.disk machine.old (M.now machine.old)) blocks → I.left source.old
        ≡ Some input
        → AppendsAll M.now M.disk M.told machine.old machine.new (I.left source.new)
        (logged_in node.log blocks) (fold_from block_in (stored_placement node.log.is_marked)
        (MAX_FRAMES + 1) blocks input) result }
    // Whether or not it is known what the source has left, if it is known which bytes the scratch
    // device holds: a crash at any moment leaves the chain from before, and any blocks after it.
    ensures goes_on { is_known (S.state scratch.old) ≡ true → (blocks : List Block) → IsNodeOf node
        (M.disk machine.old (M.now machine.old)) blocks
        → IsKnown (M.disk machine.old (M.now machine.old)) → Keeps M.now M.disk machine.old
        machine.new (GoesFrom (logged_in node.log blocks)) }
    // Whatever the source has left and the scratch device returns, if the disk is known: a crash at
    // any moment leaves the chain from before, and any blocks after it, with rows not counted.
    ensures log_goes_on { (content : List ℕ) → content_of (M.disk machine.old (M.now machine.old))
        ≡ Some content → Keeps M.now M.disk machine.old machine.new (Grows next_in_log content) }
    // What was on the scratch device stays there.
    ensures retains { Retains (S.state scratch.old) (S.state scratch.new) }
    // A source, a disk, a scratch device or a wire is blamed exactly if it failed.
    ensures unreadable { HasCause (I.source_faults source.old) (I.source_faults source.new)
        (IsErrOf result RunStop.Unreadable) }
    ensures disk_fault { HasCause (M.disk_faults machine.old) (M.disk_faults machine.new)
        (IsErrOf result RunStop.DiskFault) }
    ensures scratch_fault { HasCause (S.scratch_faults scratch.old) (S.scratch_faults scratch.new)
        (IsErrOf result RunStop.ScratchFault) }
    ensures untold { HasCause (M.wire_faults machine.old) (M.wire_faults machine.new)
        (IsErrOf result RunStop.Untold) }
{
    match take_all(alloc, source, machine, scratch, node) {
        Ok(InputEnd::Whole(longer)) => {
            longer.give_up();
            end_whole(machine)
        }
        Ok(InputEnd::Refused { frame, cause }) => refuse(alloc, machine, frame, cause),
        Err(InputStop::Fault) => Err(RunStop::Unreadable),
        Err(InputStop::Memory) => Err(RunStop::Memory),
        Err(InputStop::Taker(stop)) => Err(stop),
    }
}
