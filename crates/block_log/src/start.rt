//! Opening a disk as a log. Nothing is written.

ghost use Rattle.std.specs.Prelude.{◌≡◌, false, length, IfOk, IsErrOf};
ghost use Rattle.lc_base.specs.Faults.{HasCause};
ghost use Rattle.lc_io.specs.Disk.{Stays};
ghost use Rattle.disk_model.specs.Disk.{content_of};
ghost use Rattle.block_codec.specs.Placement.{no_parent};
ghost use Rattle.block_log.specs.{
  declared.layout.TheConstants.{FIRST_GATE, MAX_RECORD_BYTES},
  Reader.{IsOpened, blank_log, reader_at},
};

use crate::ahead::{AHEAD_BYTES, Ahead};
use crate::error::LogError;
use crate::layout::{FIRST_GATE, MAX_RECORD_BYTES};
use crate::log::Log;
use crate::reader::LogReader;
use crate::reading::{Head, read_head};
use block_codec::NO_PARENT;
use disk_model::Disk;
use lc_base::{Memory, zeros};
use std::alloc::Global;

/// What a disk holds.
#[derive(Drop)]
pub enum Opened {
    /// A log, whose blocks are still to be read.
    Records { reader: LogReader },
    /// No log yet.
    Blank { log: Log },
}

/// A buffer of `count` bytes. Its callers need only its length: if they knew that it holds zeros,
/// their proofs would carry a list of all of them.
fn buffer_of(alloc: Global, count: usize) -> Result<Vec<u8>, Memory>
    ensures { IfOk result (λ bytes. length bytes.items ≡ count) }
{
    zeros(alloc, count)
}

/// A reader of a log of which no block has been read.
fn first_reader(buffer: Vec<u8>, ahead: Ahead) -> LogReader
    requires room { length buffer.items ≡ MAX_RECORD_BYTES }
    ensures { result ≡ reader_at FIRST_GATE 0 no_parent false ahead }
{
    let log = blank_log(buffer, false);
    LogReader {
        log: Log {
            is_ready: true,
            ..log
        },
        ahead,
    }
}

/// A log without a head.
fn blank_log(buffer: Vec<u8>, is_begun: bool) -> Log
    requires room { length buffer.items ≡ MAX_RECORD_BYTES }
    ensures { result ≡ blank_log is_begun }
{
    Log {
        buffer,
        gate: FIRST_GATE,
        count: 0,
        last: NO_PARENT,
        is_ready: false,
        is_begun,
        is_marked: false,
    }
}

impl Log {
    /// What a disk holds: a log, whose blocks are then read one after another, or, if there is none
    /// yet, a log that is not ready. It writes nothing, and takes memory for the buffer that the
    /// log keeps.
    pub fn start<M: Disk>(alloc: Global, machine: &mut M) -> Result<Opened, LogError>
        ensures answer { IsOpened (content_of (M.disk machine.new (M.now machine.new))) result }
        ensures disk { Stays M.now M.disk machine.old machine.new }
        ensures told { M.told machine.new ≡ M.told machine.old }
        ensures wire_faults { M.wire_faults machine.new ≡ M.wire_faults machine.old }
        ensures cause { HasCause (M.disk_faults machine.old) (M.disk_faults machine.new) (IsErrOf result LogError.DiskFault) }
    {
        let buffer = buffer_of(alloc, MAX_RECORD_BYTES)?;
        let ahead = Ahead::new(buffer_of(alloc, AHEAD_BYTES)?);
        match read_head(machine)? {
            Head::Log => Ok(Opened::Records {
                reader: first_reader(buffer, ahead),
            }),
            Head::Blank { is_begun } => Ok(Opened::Blank {
                log: blank_log(buffer, is_begun),
            }),
            Head::Other => Err(LogError::NotALog),
        }
    }
}
