//! Restoring a chain from a log: each block runs as soon as it is read, so one is held at a time.

ghost use Rattle.std.specs.Prelude.{◌≡◌, ◌≤◌, [], ◌∷◌, ◌++◌, List, length, IfOk, IsErrOf};
ghost use Rattle.disk_model.specs.Disk.{content_of};
ghost use Rattle.block_codec.specs.{
  Spelling.{IsBlock},
  Placement.{digest_of, most_blocks, FitsVersions},
  declared.block.Block.{Block as Blocks},
};
ghost use Rattle.block_log.specs.Reader.{AreRead};
ghost use Rattle.rooted_chain.specs.chain_replay.Chain.{IsKnownFor, StandsFor};
ghost use Rattle.recovery.specs.Restoring.{
  HasRead,
  IfMade,
  IsRestored,
  IsRun,
  ReadsLog,
  RunsOn,
  start_error,
};
ghost use Rattle.recovery.specs.declared.errors.StartError.TheVariants as starts;

use crate::errors::StartError;
use block_codec::Placement;
use block_log::{Log, LogError, LogReader, Stored, Turn};
use disk_model::Disk;
use lc_base::{HostError, Memory, Resources};
use lc_io::Scratch;
use rooted_chain::Replay;
use std::alloc::Global;

impl From<LogError> for StartError {
    ghost from_gives = { λ failed error. error ≡ start_error failed };

    fn from(error: LogError) -> StartError {
        match error {
            LogError::NotALog => StartError::NotALog,
            LogError::Damaged { at } => StartError::Damaged { at },
            LogError::DiskFault => StartError::DiskFault,
            LogError::Memory => StartError::Memory,
        }
    }
}

impl From<Memory> for StartError {
    ghost from_gives = { λ _ error. error ≡ starts.Memory };

    fn from(_memory: Memory) -> StartError {
        StartError::Memory
    }
}

/// Runs a block of a log and returns the chain with it. The offset of its gate is returned instead
/// if it is not the next block, as those before it wrote too many rows. `marked` says whether the
/// mark of the log stands before it.
fn run_stored<C: Replay, S: Scratch>(
    alloc: Global,
    chain: C,
    scratch: &mut S,
    next: &Stored,
    marked: bool,
) -> Result<Result<C, u64>, HostError>
    requires is_block { IsBlock next.now.block }
    requires few { length (C.kept chain).digests ≤ most_blocks marked }
    requires agrees { C.agrees chain (S.state scratch.old) }
    ensures run { IsKnownFor C.calls_scratch (S.state scratch.old) → (blocks : List Blocks)
        → StandsFor (C.kept chain) blocks → FitsVersions marked blocks
        → next.now.digest ≡ digest_of next.now.block
        → IfOk result (IsRun C.kept marked blocks next.now) }
    ensures digests { IfOk result
        (IfMade (λ longer. (C.kept longer).digests ≡ (C.kept chain).digests ++ next.now.digest ∷
        [])) }
    ensures agrees { IfOk result (IfMade (λ longer. C.agrees longer (S.state scratch.new))) }
    ensures scratch { RunsOn C.calls_scratch S.state S.scratch_faults scratch.old scratch.new
        (IsErrOf result HostError.Fault) }
{
    match chain.place(&next.block, next.digest, marked) {
        Placement::Next => {
            let longer = chain.replay(alloc, scratch, &next.block, next.digest)?;
            Ok(Ok(longer))
        }
        _ => {
            chain.give_up();
            Ok(Err(next.place))
        }
    }
}

/// The chain of the blocks of a log, from its first block on, and the log. Each block runs as soon
/// as it is read, so one is held at a time.
pub fn restore<C: Replay, M: Disk, S: Scratch>(
    resources: Resources,
    machine: &mut M,
    scratch: &mut S,
    first: LogReader,
) -> Result<(C, Log), StartError>
    requires none_read { AreRead first (content_of (M.disk machine.old (M.now machine.old))) [] }
    ensures restored { IsKnownFor C.calls_scratch (S.state scratch.old)
        → IsRestored C.kept (content_of (M.disk machine.new (M.now machine.new))) result }
    ensures read { IfOk result
        (λ opened. HasRead (C.kept opened.0) opened.1
        (content_of (M.disk machine.new (M.now machine.new)))) }
    ensures agrees { IfOk result (λ opened. C.agrees opened.0 (S.state scratch.new)) }
    ensures machine { ReadsLog M.now M.disk M.disk_faults M.told M.wire_faults machine.old
        machine.new (IsErrOf result StartError.DiskFault) }
    ensures scratch { RunsOn C.calls_scratch S.state S.scratch_faults scratch.old scratch.new
        (IsErrOf result StartError.ScratchFault) }
{
    let mut chain = C::start(resources)?;
    let mut reader = first;
    loop {
        let marked = reader.marked();
        match reader.next(resources.alloc, machine)? {
            Turn::End { log } => return Ok((chain, log)),
            Turn::Mark { reader: further } => reader = further,
            Turn::Block {
                next,
                reader: further,
            } => match run_stored(resources.alloc, chain, scratch, &next, marked) {
                Ok(Ok(longer)) => {
                    chain = longer;
                    reader = further;
                }
                Ok(Err(at)) => return Err(StartError::Damaged { at }),
                Err(HostError::Fault) => return Err(StartError::ScratchFault),
                Err(HostError::Memory) => return Err(StartError::Memory),
            },
        }
    }
}
