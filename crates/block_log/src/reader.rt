//! Reading the blocks of a log, one after another.

ghost use Rattle.std.specs.{
  Prelude.{◌≡◌, ℕ, ◌+◌, ◌*◌, ◌^◌, ◌≤◌, ◌<◌, false, List, length, take, drop, Option, IfOk, IfSome, IsErrOf},
  Option.{is_some, option_map},
};
ghost use Rattle.lc_base.specs.Faults.{HasCause};
ghost use Rattle.lc_io.specs.Disk.{Stays};
ghost use Rattle.disk_model.specs.Disk.{content_of};
ghost use Rattle.block_codec.specs.{
  Spelling.{IsBlock},
  Placement.{digest_of, most_blocks, new_placement},
  declared.limits.TheConstants.{MAX_BLOCK_BYTES, MAX_MARKED_BLOCKS},
};
ghost use Rattle.block_log.specs.{
  declared.layout.Stored.{Stored as Storeds},
  declared.layout.TheConstants.{FIRST_GATE, MAX_RECORD_BYTES},
  Standing.{if_next},
  Log.{IsSmall},
  Ahead.{IsAhead},
  Reading.{record_of, record_size},
  Reader.{AreRead, AreReadTo, IsTurn, IsFound, IsRecordAt, IfBlock, IfNear, found_mark, log_at, next_of, stored_at},
};

use crate::ahead::Ahead;
use crate::error::LogError;
use crate::layout::{MAX_RECORD_BYTES, Stored};
use crate::log::Log;
use crate::reading::{PREFIX_BYTES, Record, is_broken, look_ahead, read_record, record_size};
use block_codec::{Block, DecodeError, Placement, block_digest, decode, place};
use disk_model::Disk;
use lc_base::{Digest, HostError, Memory};
use std::alloc::Global;
use std::marker::Model;

/// What is found at a gate.
#[derive(Drop)]
pub(crate) enum Found {
    /// The gate is closed.
    Closed,
    /// There is no gate, or it is open and no record of the next block follows it.
    Broken,
    /// The gate is open, and the mark follows, then the gate at the offset `after`.
    Mark { after: u64 },
    /// The gate is open, and the next block follows, then the gate at the offset `after`.
    Next { next: Stored, after: u64 },
}

/// Whether a block with this digest is the next one after `count` blocks, the last of which has the
/// digest `last`, in a log that is marked or isn't. A block with the number of a held one is not,
/// whichever block is held.
fn is_next(count: u32, last: Digest, block: &Block, digest: Digest, marked: bool) -> bool
    requires lawful { IsBlock block.now }
    ensures { result ≡ is_some (if_next block.now (new_placement marked count 0 last block.now)) }
{
    block.number == count
        && matches!(
            place(count, 0, None, last, block, digest, marked),
            Placement::Next
        )
}

/// The block that the bytes after the gate at this offset spell, if it is the next one after
/// `count` blocks, the last of which has the digest `last`, in a log that is marked or isn't.
fn next_stored(
    alloc: Global,
    gate: u64,
    count: u32,
    last: Digest,
    marked: bool,
    bytes: &[u8],
) -> Result<Option<Stored>, Memory>
    ensures next { IfOk result (λ found. found ≡ option_map (stored_at gate) (next_of count last marked bytes.now)) }
    ensures lawful { IfOk result (λ found. IfSome found (λ next. IsBlock next.block)) }
{
    let block = match decode(alloc, bytes) {
        Ok(block) => block,
        Err(DecodeError::Malformed { .. }) => return Ok(None),
        Err(DecodeError::Memory) => return Err(Memory),
    };
    let digest = block_digest(bytes);
    if is_next(count, last, &block, digest, marked) {
        Ok(Some(Stored {
            place: gate,
            digest,
            block,
        }))
    } else {
        Ok(None)
    }
}

/// What a record of length 0 at the gate at this offset is: the mark, if none stands before it.
fn mark_found(gate: u64, marked: bool) -> Found
    requires { gate + 5 < 2 ^ 64 }
    ensures { result ≡ found_mark gate marked }
{
    if marked {
        Found::Broken
    } else {
        Found::Mark {
            after: gate + PREFIX_BYTES as u64,
        }
    }
}

/// The bytes of the block of a record that is at the gate with which these bytes begin.
#[tactic(auto, using(crate::proofs::Fronts::body_there))]
fn body_in(bytes: &[u8], found: Record) -> &[u8]
    requires there { record_of bytes.now ≡ found }
    ensures { result.now ≡ take (record_size found) (drop 5 bytes.now) }
{
    let size = record_size(found);
    if size == 0 {
        return &bytes[..0];
    }
    let body = &bytes[PREFIX_BYTES..];
    &body[..size]
}

/// What a record at the gate at this offset, whose block has these bytes, is after `count` blocks,
/// the last of which has the digest `last`, in a log that is marked or isn't.
fn judge(
    alloc: Global,
    gate: u64,
    count: u32,
    last: Digest,
    marked: bool,
    found: Record,
    body: &[u8],
) -> Result<Found, Memory>
    requires few { count ≤ MAX_MARKED_BLOCKS }
    requires near { gate ≤ FIRST_GATE + 5 + count * MAX_RECORD_BYTES }
    requires unmarked { marked ≡ false → IsSmall gate count }
    requires small { record_size found ≤ MAX_BLOCK_BYTES }
    ensures found { IfOk result (λ next. (content : Option (List ℕ)) (stored : List Storeds) → AreReadTo (log_at gate count last marked) content stored
        → IsRecordAt gate found body.now content → IsFound content (log_at gate count last marked) stored next) }
    ensures near { IfOk result (IfNear gate count marked) }
{
    let size = match found {
        Record::Closed => return Ok(Found::Closed),
        Record::Broken => return Ok(Found::Broken),
        Record::Open { size } => size,
    };
    if size == 0 {
        return Ok(mark_found(gate, marked));
    }
    match next_stored(alloc, gate, count, last, marked, body)? {
        Some(next) => Ok(Found::Next {
            next,
            after: gate + (PREFIX_BYTES + size) as u64,
        }),
        None => Ok(Found::Broken),
    }
}

/// Reads, through the buffer, what is at the gate at this offset, after `count` blocks, the last of
/// which has the digest `last`, in a log that is marked or isn't.
fn read_next<M: Disk>(
    alloc: Global,
    machine: &mut M,
    buffer: &mut [u8],
    gate: u64,
    count: u32,
    last: Digest,
    marked: bool,
) -> Result<Found, HostError>
    requires room { length buffer.old ≡ MAX_RECORD_BYTES }
    requires few { count ≤ MAX_MARKED_BLOCKS }
    requires near { gate ≤ FIRST_GATE + 5 + count * MAX_RECORD_BYTES }
    requires unmarked { marked ≡ false → IsSmall gate count }
    ensures found { (content : Option (List ℕ)) → content_of (M.disk machine.old (M.now machine.old)) ≡ content
        → IfOk result (λ next. (stored : List Storeds) → AreReadTo (log_at gate count last marked) content stored → IsFound content (log_at gate count last marked) stored next) }
    ensures near { IfOk result (IfNear gate count marked) }
    ensures room { length buffer.new ≡ length buffer.old }
    ensures disk { Stays M.now M.disk machine.old machine.new }
    ensures told { M.told machine.new ≡ M.told machine.old }
    ensures wire_faults { M.wire_faults machine.new ≡ M.wire_faults machine.old }
    ensures cause { HasCause (M.disk_faults machine.old) (M.disk_faults machine.new) (IsErrOf result HostError.Fault) }
{
    let found = read_record(machine, buffer, gate)?;
    let size = record_size(found);
    let next = judge(alloc, gate, count, last, marked, found, &buffer[..size])?;
    Ok(next)
}

/// Finds what is at the gate at this offset, after `count` blocks, the last of which has the digest
/// `last`, in a log that is marked or isn't: in the bytes that are read ahead or, if the record is
/// too long for these, through the buffer.
fn find_next<M: Disk>(
    alloc: Global,
    machine: &mut M,
    ahead: &mut Ahead,
    buffer: &mut [u8],
    gate: u64,
    count: u32,
    last: Digest,
    marked: bool,
) -> Result<Found, HostError>
    requires room { length buffer.old ≡ MAX_RECORD_BYTES }
    requires few { count ≤ MAX_MARKED_BLOCKS }
    requires near { gate ≤ FIRST_GATE + 5 + count * MAX_RECORD_BYTES }
    requires unmarked { marked ≡ false → IsSmall gate count }
    ensures found { (content : Option (List ℕ)) → content_of (M.disk machine.old (M.now machine.old)) ≡ content → IsAhead gate ahead.old content
        → IfOk result (λ next. (stored : List Storeds) → AreReadTo (log_at gate count last marked) content stored → IsFound content (log_at gate count last marked) stored next) }
    ensures ahead { (content : Option (List ℕ)) → content_of (M.disk machine.old (M.now machine.old)) ≡ content → IsAhead gate ahead.old content
        → IfOk result (λ next. IsAhead gate ahead.new content) }
    ensures near { IfOk result (IfNear gate count marked) }
    ensures room { length buffer.new ≡ length buffer.old }
    ensures disk { Stays M.now M.disk machine.old machine.new }
    ensures told { M.told machine.new ≡ M.told machine.old }
    ensures wire_faults { M.wire_faults machine.new ≡ M.wire_faults machine.old }
    ensures cause { HasCause (M.disk_faults machine.old) (M.disk_faults machine.new) (IsErrOf result HostError.Fault) }
{
    let found = look_ahead(machine, ahead, gate)?;
    if is_broken(found) {
        ahead.clear();
        let next = read_next(alloc, machine, buffer, gate, count, last, marked)?;
        return Ok(next);
    }
    let body = body_in(ahead.bytes(), found);
    let next = judge(alloc, gate, count, last, marked, found, body)?;
    Ok(next)
}

/// The blocks of a log that are still to be read. It holds the bytes of one block and some that are
/// read ahead, and none of the blocks that it has returned.
#[derive(Drop)]
pub struct LogReader {
    pub(crate) log: Log,
    pub(crate) ahead: Ahead,
}

impl Model for LogReader {
    ghost use Rattle.std.specs.Prelude.{◌≡◌, true, false};
    ghost use Rattle.block_log.specs.Ahead.{ReaderState};

    ghost Value = { ReaderState };

    ghost view = { λ reader. record { gate = reader.log.gate; count = reader.log.count; last = reader.log.last; is_marked = reader.log.is_marked; ahead = reader.ahead } };

    ghost invariant = { λ reader. (reader.log.is_ready ≡ true) × (reader.log.is_begun ≡ false) };
}

/// What the next step of reading a log returns.
#[derive(Drop)]
pub enum Turn {
    /// The next block, and the reader of those after it.
    Block { next: Stored, reader: LogReader },
    /// The mark, and the reader of the blocks after it, which have the second version.
    Mark { reader: LogReader },
    /// All blocks have been read, and this is the log of them.
    End { log: Log },
}

impl LogReader {
    /// Whether the mark has been read, so that the next block has the second version.
    pub fn marked(&self) -> bool
        ensures is { result ≡ self.now.is_marked }
        ensures few { self.now.count ≤ most_blocks self.now.is_marked }
    {
        self.log.marked()
    }

    /// Reads the next block of the log, or the mark, or finds its end. It writes nothing, and takes
    /// memory for the block only.
    pub fn next<M: Disk>(self, alloc: Global, machine: &mut M) -> Result<Turn, LogError>
        // Also if the content is not known, the blocks returned so far are a chain, each with its
        // digest, and the log holds their number and the last digest.
        ensures answer { (stored : List Storeds) → AreRead self (content_of (M.disk machine.old (M.now machine.old))) stored
            → IsTurn (content_of (M.disk machine.new (M.now machine.new))) stored result }
        ensures block { IfOk result (IfBlock self) }
        ensures disk { Stays M.now M.disk machine.old machine.new }
        ensures told { M.told machine.new ≡ M.told machine.old }
        ensures wire_faults { M.wire_faults machine.new ≡ M.wire_faults machine.old }
        ensures cause { HasCause (M.disk_faults machine.old) (M.disk_faults machine.new) (IsErrOf result LogError.DiskFault) }
    {
        let mut log = self.log;
        let mut ahead = self.ahead;
        match find_next(
            alloc,
            machine,
            &mut ahead,
            &mut log.buffer,
            log.gate,
            log.count,
            log.last,
            log.is_marked,
        )? {
            Found::Closed => Ok(Turn::End { log }),
            Found::Broken => Err(LogError::Damaged { at: log.gate }),
            Found::Mark { after } => {
                ahead.skip((after - log.gate) as usize);
                let log = Log {
                    gate: after,
                    is_marked: true,
                    ..log
                };
                Ok(Turn::Mark {
                    reader: LogReader { log, ahead },
                })
            }
            Found::Next { next, after } => {
                ahead.skip((after - log.gate) as usize);
                let log = Log {
                    gate: after,
                    count: log.count + 1,
                    last: next.digest,
                    ..log
                };
                Ok(Turn::Block {
                    next,
                    reader: LogReader { log, ahead },
                })
            }
        }
    }
}
