//! Starting to append: the disk is synced before anything is read, so nothing is then pending.

ghost use Rattle.std.specs.Prelude.{◌≡◌, true, ℕ, List, Some, IfOk, IsErr, IsErrOf};
ghost use Rattle.lc_base.specs.Faults.{HasCause};
ghost use Rattle.lc_io.specs.{Disk.{DiskState, Stays}, Scratch.{is_known, Serves}};
ghost use Rattle.disk_model.specs.{
  Disk.{IsImage, IsSettled, Keeps, Syncs, content_of},
  Leaving.{LeavesWire},
};
ghost use Rattle.block_log.specs.Standing.{standing};
ghost use Rattle.cli_promises.specs.recovery.Node.{IsReady, IsNodeStarted, next_in_chain};

use cli_promises::{Node, StartError};
use disk_model::Disk;
use lc_base::Resources;
use lc_io::{Failed, Scratch};

/// Syncs a disk, whatever is pending. An earlier run may have ended between a write and its sync,
/// and without this a loss of power could still take what it wrote.
pub(crate) fn settle<M: Disk>(machine: &mut M) -> Result<(), Failed>
    // After Ok nothing is pending; after Err the disk is as it was;
    ensures disk { Syncs M.now M.disk machine.old machine.new result }
    ensures settled { IfOk result (λ done. IsSettled (M.disk machine.new (M.now machine.new))) }
    // either way it has the content that it had, and a crash at any moment leaves what one at entry
    // could have left.
    ensures content { content_of (M.disk machine.new (M.now machine.new)) ≡ content_of
        (M.disk machine.old (M.now machine.old)) }
    ensures images { (state : DiskState) → M.disk machine.old (M.now machine.old) ≡ Some state
        → Keeps M.now M.disk machine.old machine.new (IsImage state) }
    ensures wire { LeavesWire M.told M.wire_faults machine.old machine.new }
    ensures cause { HasCause (M.disk_faults machine.old) (M.disk_faults machine.new) (IsErr result) }
{
    machine.sync()
}

/// The node of the log on a disk, for a caller who appends. It writes nothing, and syncs the disk
/// first, whatever is pending at entry: what is then printed of the content, or written after it,
/// rests on bytes that no crash can take.
pub fn start<M: Disk, S: Scratch>(
    resources: Resources,
    machine: &mut M,
    scratch: &mut S,
) -> Result<Node, StartError>
    // If a node is returned, nothing is pending.
    ensures settled { IfOk result (λ node. IsSettled (M.disk machine.new (M.now machine.new))) }
    // If it is known which bytes the scratch device holds, the node is that of the chain that the
    // content at entry stands for, or the content stands for no chain.
    ensures answer { is_known (S.state scratch.old) ≡ true → (content : List ℕ)
        → content_of (M.disk machine.old (M.now machine.old)) ≡ Some content
        → IsNodeStarted (M.disk machine.new (M.now machine.new)) (standing next_in_chain content)
        result }
    // Whether or not it is known what the disk and the device hold, the node is ready to take
    // blocks.
    ensures ready { IfOk result (λ node. IsReady node (M.disk machine.new (M.now machine.new))
        (S.state scratch.new)) }
    // Whatever is returned: the content is as it was; a crash at any moment leaves what one at
    // entry could have left; and if nothing was pending at entry, the disk stays as it is.
    ensures content { content_of (M.disk machine.new (M.now machine.new)) ≡ content_of
        (M.disk machine.old (M.now machine.old)) }
    ensures images { (state : DiskState) → M.disk machine.old (M.now machine.old) ≡ Some state
        → Keeps M.now M.disk machine.old machine.new (IsImage state) }
    ensures stays { IsSettled (M.disk machine.old (M.now machine.old)) → Stays M.now M.disk
        machine.old machine.new }
    ensures wire { LeavesWire M.told M.wire_faults machine.old machine.new }
    ensures disk_fault { HasCause (M.disk_faults machine.old) (M.disk_faults machine.new)
        (IsErrOf result StartError.DiskFault) }
    ensures scratch { Serves S.state S.scratch_faults scratch.old scratch.new
        (IsErrOf result StartError.ScratchFault) }
{
    match settle(machine) {
        Ok(()) => Node::start(resources, machine, scratch),
        Err(Failed) => Err(StartError::DiskFault),
    }
}
