//! Marking a log, of a node or by itself: from then on its blocks have the second version.

ghost use Rattle.std.specs.{
  Prelude.{◌≡◌, ℕ, true, false, List, Some, IfOk, IsErr},
  Option.{is_some},
};
ghost use Rattle.lc_base.specs.Faults.{HasCause};
ghost use Rattle.disk_model.specs.{Disk.{Keeps, Rests, content_of}, Leaving.{LeavesWire}};
ghost use Rattle.lc_io.specs.Scratch.{ScratchState};
ghost use Rattle.block_codec.specs.{Reading.{block_in}, declared.block.Block.{Block}};
ghost use Rattle.block_log.specs.{
  Standing.{Placer, Logged, chain_of, next_block, with_mark},
  Log.{Agrees, IsOldOrMarked, StandsBy},
};
ghost use Rattle.recovery.specs.Node.{IsMarkedLog, IsNodeOf, IsReady, IsUpgraded};

use crate::node::Node;
use block_log::{DiskFault, Log};
use disk_model::Disk;
use rooted_chain::Replay;

/// Marks a log. It is created first if the disk has none yet.
pub(crate) fn mark_log<M: Disk>(log: Log, machine: &mut M) -> Result<Log, DiskFault>
    requires unmarked { log.is_marked ≡ false }
    requires agrees { Rests (M.disk machine.old (M.now machine.old)) (Agrees log) }
    ensures marked { IfOk result (IsMarkedLog log) }
    ensures agrees { IfOk result
        (λ marked. Rests (M.disk machine.new (M.now machine.new)) (Agrees marked)) }
    ensures images { (place : Placer) (content : List ℕ) (logged : Logged)
        → content_of (M.disk machine.old (M.now machine.old)) ≡ Some content
        → StandsBy place content logged
        → Keeps M.now M.disk machine.old machine.new
        (IsOldOrMarked (next_block block_in place) logged) }
    ensures stands { IfOk result
        (λ marked. (place : Placer) (content : List ℕ) (logged : Logged)
        → content_of (M.disk machine.old (M.now machine.old)) ≡ Some content
        → StandsBy place content logged
        → Rests (M.disk machine.new (M.now machine.new))
        (λ image. chain_of (next_block block_in place) image ≡ Some (with_mark logged))) }
    ensures still_known { IfOk result
        (λ marked. is_some (M.disk machine.new (M.now machine.new)) ≡ is_some
        (M.disk machine.old (M.now machine.old))) }
    ensures wire { LeavesWire M.told M.wire_faults machine.old machine.new }
    ensures cause { HasCause (M.disk_faults machine.old) (M.disk_faults machine.new) (IsErr result) }
{
    if log.ready() {
        return log.mark(machine);
    }
    let log = log.create(machine)?;
    log.mark(machine)
}

impl Node {
    /// Marks the log of the node: from then on it takes blocks of the second version, and no
    /// others. A log that isn't there yet is created first. No block runs, and no memory is taken.
    pub fn upgrade<M: Disk>(self, machine: &mut M) -> Result<Node, DiskFault>
        requires unmarked { self.log.is_marked ≡ false }
        requires agrees { Rests (M.disk machine.old (M.now machine.old)) (Agrees self.log) }
        // The node has the same chain, and its log is marked.
        ensures upgraded { IfOk result (IsUpgraded self) }
        ensures agrees { IfOk result
            (λ node. Rests (M.disk machine.new (M.now machine.new)) (Agrees node.log)) }
        // It is the node of the same blocks as before, and ready if it was.
        ensures of { IfOk result (λ node. (blocks : List Block)
            → IsNodeOf self (M.disk machine.old (M.now machine.old)) blocks
            → IsNodeOf node (M.disk machine.new (M.now machine.new)) blocks) }
        ensures ready { IfOk result (λ node. (scratch : ScratchState)
            → IsReady self (M.disk machine.old (M.now machine.old)) scratch
            → IsReady node (M.disk machine.new (M.now machine.new)) scratch) }
        // A crash at any moment leaves the chain of the same blocks, marked or as it was, whether
        // rows are counted or not.
        ensures images { (place : Placer) (content : List ℕ) (logged : Logged)
            → content_of (M.disk machine.old (M.now machine.old)) ≡ Some content
            → StandsBy place content logged
            → Keeps M.now M.disk machine.old machine.new
            (IsOldOrMarked (next_block block_in place) logged) }
        // At `Ok` nothing is pending, and the content is marked.
        ensures stands { IfOk result
            (λ node. (place : Placer) (content : List ℕ) (logged : Logged)
            → content_of (M.disk machine.old (M.now machine.old)) ≡ Some content
            → StandsBy place content logged
            → Rests (M.disk machine.new (M.now machine.new))
            (λ image. chain_of (next_block block_in place) image ≡ Some (with_mark logged))) }
        ensures still_known { IfOk result
            (λ node. is_some (M.disk machine.new (M.now machine.new)) ≡ is_some
            (M.disk machine.old (M.now machine.old))) }
        ensures wire { LeavesWire M.told M.wire_faults machine.old machine.new }
        ensures cause { HasCause (M.disk_faults machine.old) (M.disk_faults machine.new)
            (IsErr result) }
    {
        let Node { chain, log } = self;
        match mark_log(log, machine) {
            Ok(log) => Ok(Node { chain, log }),
            Err(DiskFault) => {
                chain.give_up();
                Err(DiskFault)
            }
        }
    }
}
