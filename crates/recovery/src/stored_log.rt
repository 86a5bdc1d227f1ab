//! A log without its chain, for a caller who marks it.

ghost use Rattle.std.specs.{
  Prelude.{◌≡◌, ℕ, false, List, Some, IfOk, IsErr, IsErrOf},
  Option.{is_some},
};
ghost use Rattle.lc_base.specs.Faults.{HasCause};
ghost use Rattle.disk_model.specs.{
  Disk.{IsSettled, Keeps, Rests, content_of},
  Leaving.{LeavesWire},
};
ghost use Rattle.block_codec.specs.Reading.{block_in};
ghost use Rattle.block_log.specs.{
  Standing.{Placer, Logged, chain_of, next_block, standing, with_mark},
  Log.{Agrees, IsOldOrMarked, StandsBy},
};
ghost use Rattle.recovery.specs.{
  Node.{IsLogStored, next_in_chain},
  Restoring.{ReadsLog},
};

use crate::errors::StartError;
use crate::opening::open_plain;
use crate::upgrading::mark_log;
use block_log::{DiskFault, Log};
use disk_model::Disk;
use lc_base::Resources;
use std::marker::Model;

/// A log, and the number of its blocks. It keeps no chain, so it takes no block.
#[derive(Drop)]
pub struct StoredLog {
    blocks: u32,
    log: Log,
}

impl Model for StoredLog {
    ghost use Rattle.std.specs.Prelude.{◌≡◌};
    ghost use Rattle.block_log.specs.Log.{LogState};

    ghost Value = { LogState };

    ghost view = { λ stored. stored.log };

    ghost invariant = { λ stored. stored.blocks ≡ stored.log.count };
}

impl StoredLog {
    /// Opens the log on a disk. Its blocks run into plain rows as they are read, and these are
    /// dropped. It writes nothing, and needs no scratch device.
    pub fn open<M: Disk>(resources: Resources, machine: &mut M) -> Result<StoredLog, StartError>
        requires settled { IsSettled (M.disk machine.old (M.now machine.old)) }
        // The log is that of the chain that the content stands for, or the content stands for no
        // chain.
        ensures answer { (content : List ℕ)
            → content_of (M.disk machine.old (M.now machine.old)) ≡ Some content
            → IsLogStored (M.disk machine.new (M.now machine.new)) (standing next_in_chain content)
            result }
        // Whether or not the disk is known, the log agrees with it.
        ensures agrees { IfOk result
            (λ log. Rests (M.disk machine.new (M.now machine.new)) (Agrees log)) }
        ensures machine { ReadsLog M.now M.disk M.disk_faults M.told M.wire_faults machine.old
            machine.new (IsErrOf result StartError.DiskFault) }
        ensures no_scratch_fault { IsErrOf result StartError.ScratchFault → ⊥ }
    {
        match open_plain(resources, machine) {
            Ok((chain, log)) => Ok(StoredLog {
                blocks: chain.len(),
                log,
            }),
            Err(error) => Err(error),
        }
    }

    /// The number of its blocks, at most `MAX_BLOCKS`, or `MAX_MARKED_BLOCKS` if it is marked.
    pub fn blocks(&self) -> u32
        ensures { result ≡ self.now.count }
    {
        self.blocks
    }

    /// Whether it is marked, so that its next block has the second version. Else it has the first.
    pub fn marked(&self) -> bool
        ensures { result ≡ self.now.is_marked }
    {
        self.log.marked()
    }

    /// Marks the log: from then on it takes blocks of the second version, and no others. A log that
    /// isn't there yet is created first. No block runs, and no memory is taken.
    pub fn mark<M: Disk>(self, machine: &mut M) -> Result<(), DiskFault>
        requires unmarked { self.is_marked ≡ false }
        requires agrees { Rests (M.disk machine.old (M.now machine.old)) (Agrees self) }
        // A crash at any moment leaves the chain of the same blocks, marked or as it was, whether
        // rows are counted or not.
        ensures images { (place : Placer) (content : List ℕ) (logged : Logged)
            → content_of (M.disk machine.old (M.now machine.old)) ≡ Some content
            → StandsBy place content logged
            → Keeps M.now M.disk machine.old machine.new
            (IsOldOrMarked (next_block block_in place) logged) }
        // At `Ok` nothing is pending, and the content is marked.
        ensures stands { IfOk result
            (λ done. (place : Placer) (content : List ℕ) (logged : Logged)
            → content_of (M.disk machine.old (M.now machine.old)) ≡ Some content
            → StandsBy place content logged
            → Rests (M.disk machine.new (M.now machine.new))
            (λ image. chain_of (next_block block_in place) image ≡ Some (with_mark logged))) }
        ensures still_known { IfOk result
            (λ done. is_some (M.disk machine.new (M.now machine.new)) ≡ is_some
            (M.disk machine.old (M.now machine.old))) }
        ensures wire { LeavesWire M.told M.wire_faults machine.old machine.new }
        ensures cause { HasCause (M.disk_faults machine.old) (M.disk_faults machine.new)
            (IsErr result) }
    {
        let StoredLog { log, .. } = self;
        match mark_log(log, machine) {
            Ok(_marked) => Ok(()),
            Err(DiskFault) => Err(DiskFault),
        }
    }
}
