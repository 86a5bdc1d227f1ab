//! Opening the log on a disk: nothing is written, and its blocks run as they are read.

ghost use Rattle.std.specs.Prelude.{◌≡◌, ℕ, true, List, Some, IfOk, IsErrOf};
ghost use Rattle.lc_io.specs.Scratch.{is_known, Serves};
ghost use Rattle.disk_model.specs.Disk.{IsSettled, Rests, content_of};
ghost use Rattle.block_codec.specs.declared.block.Block.{Block as Blocks};
ghost use Rattle.block_log.specs.{Standing.{standing}, Log.{Agrees}};
ghost use Rattle.rooted_chain.specs.{
  chain_replay.Chain.{IsKnownFor, StandsFor},
  merkle_dag.Lineage.{AgreesWith},
  Roots.{kept_in, lineage_in},
};
ghost use Rattle.recovery.specs.{
  Node.{AreOfBlocks, AreOfLogged, AreOfOneChain, IsStarted, IsChainStored, next_in_chain},
  Restoring.{ReadsLog, RunsOn},
};

use crate::errors::StartError;
use crate::no_scratch::NoScratch;
use crate::restoring::restore;
use block_log::{Log, Opened};
use disk_model::Disk;
use lc_base::Resources;
use lc_io::Scratch;
use rooted_chain::{AllRootsChain, Chain, Replay};

/// Opens the log on a disk: the chain of the blocks that it holds, and the log. It writes nothing
/// to the disk.
pub fn open<C: Replay, M: Disk, S: Scratch>(
    resources: Resources,
    machine: &mut M,
    scratch: &mut S,
) -> Result<(C, Log), StartError>
    requires settled { IsSettled (M.disk machine.old (M.now machine.old)) }
    // Holds if the scratch device is not called, or if it is known which bytes it holds.
    ensures answer { IsKnownFor C.calls_scratch (S.state scratch.old) → (content : List ℕ)
        → content_of (M.disk machine.old (M.now machine.old)) ≡ Some content
        → IsStarted (λ opened. AreOfLogged (C.kept opened.0) opened.1
        (M.disk machine.new (M.now machine.new))) (standing next_in_chain content) result }
    ensures blocks { IsKnownFor C.calls_scratch (S.state scratch.old)
        → IfOk result (λ opened. (blocks : List Blocks)
        × AreOfBlocks (C.kept opened.0) opened.1 (M.disk machine.new (M.now machine.new)) blocks) }
    // Holds in either case.
    ensures agrees { IfOk result (λ opened. C.agrees opened.0 (S.state scratch.new)) }
    ensures log { IfOk result
        (λ opened. Rests (M.disk machine.new (M.now machine.new)) (Agrees opened.1)) }
    ensures one_chain { IfOk result (λ opened. AreOfOneChain (C.kept opened.0) opened.1) }
    ensures machine { ReadsLog M.now M.disk M.disk_faults M.told M.wire_faults machine.old
        machine.new (IsErrOf result StartError.DiskFault) }
    ensures scratch { RunsOn C.calls_scratch S.state S.scratch_faults scratch.old scratch.new
        (IsErrOf result StartError.ScratchFault) }
{
    match Log::start(resources.alloc, machine)? {
        Opened::Records { reader } => restore(resources, machine, scratch, reader),
        Opened::Blank { log } => {
            let chain = C::start(resources)?;
            Ok((chain, log))
        }
    }
}

/// Opens the log on a disk over plain rows, without roots: so no scratch device is called.
pub(crate) fn open_plain<M: Disk>(
    resources: Resources,
    machine: &mut M,
) -> Result<(Chain, Log), StartError>
    requires settled { IsSettled (M.disk machine.old (M.now machine.old)) }
    ensures answer { (content : List ℕ)
        → content_of (M.disk machine.old (M.now machine.old)) ≡ Some content
        → IsStarted (λ opened. AreOfLogged opened.0 opened.1
        (M.disk machine.new (M.now machine.new))) (standing next_in_chain content) result }
    ensures blocks { IfOk result (λ opened. (blocks : List Blocks)
        × AreOfBlocks opened.0 opened.1 (M.disk machine.new (M.now machine.new)) blocks) }
    ensures log { IfOk result
        (λ opened. Rests (M.disk machine.new (M.now machine.new)) (Agrees opened.1)) }
    ensures one_chain { IfOk result (λ opened. AreOfOneChain opened.0 opened.1) }
    ensures machine { ReadsLog M.now M.disk M.disk_faults M.told M.wire_faults machine.old
        machine.new (IsErrOf result StartError.DiskFault) }
    ensures no_scratch_fault { IsErrOf result StartError.ScratchFault → ⊥ }
{
    let mut scratch = NoScratch { faults: 0 };
    open::<Chain, M, NoScratch>(resources, machine, &mut scratch)
}

/// The chain of the blocks that the log on a disk holds, for a caller who only reads it: plain
/// rows, without roots. It writes nothing, and needs no scratch device.
pub fn stored_chain<M: Disk>(resources: Resources, machine: &mut M) -> Result<Chain, StartError>
    requires settled { IsSettled (M.disk machine.old (M.now machine.old)) }
    // The chain is the one that the content stands for, or the content stands for no chain.
    ensures answer { (content : List ℕ)
        → content_of (M.disk machine.old (M.now machine.old)) ≡ Some content
        → IsChainStored (standing next_in_chain content) result }
    // Whether or not the disk is known, it is the chain of some blocks.
    ensures blocks { IfOk result (λ chain. (blocks : List Blocks) × StandsFor chain blocks) }
    ensures machine { ReadsLog M.now M.disk M.disk_faults M.told M.wire_faults machine.old
        machine.new (IsErrOf result StartError.DiskFault) }
    ensures no_scratch_fault { IsErrOf result StartError.ScratchFault → ⊥ }
{
    match open_plain(resources, machine) {
        Ok((chain, _log)) => Ok(chain),
        Err(error) => Err(error),
    }
}

/// The chain of the blocks that the log on a disk holds, for a caller who asks for the root of each:
/// they are made as the blocks run. It writes nothing to the disk.
pub fn stored_roots<M: Disk, S: Scratch>(
    resources: Resources,
    machine: &mut M,
    scratch: &mut S,
) -> Result<AllRootsChain, StartError>
    requires settled { IsSettled (M.disk machine.old (M.now machine.old)) }
    // If it is known which bytes the scratch device holds, the chain is the one that the content
    // stands for, or the content stands for no chain.
    ensures answer { is_known (S.state scratch.old) ≡ true → (content : List ℕ)
        → content_of (M.disk machine.old (M.now machine.old)) ≡ Some content
        → IsStarted (λ chain logged. StandsFor (kept_in chain) logged.blocks)
        (standing next_in_chain content) result }
    // Holds in either case.
    ensures agrees { IfOk result (λ chain. AgreesWith (lineage_in chain) (S.state scratch.new)) }
    ensures machine { ReadsLog M.now M.disk M.disk_faults M.told M.wire_faults machine.old
        machine.new (IsErrOf result StartError.DiskFault) }
    ensures scratch { Serves S.state S.scratch_faults scratch.old scratch.new
        (IsErrOf result StartError.ScratchFault) }
{
    match open::<AllRootsChain, M, S>(resources, machine, scratch) {
        Ok((chain, _log)) => Ok(chain),
        Err(error) => Err(error),
    }
}
