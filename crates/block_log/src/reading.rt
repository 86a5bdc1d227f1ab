//! Reading the head of a log, and single records.

ghost use Rattle.std.specs.Prelude.{◌≡◌, ℕ, ◌+◌, ◌^◌, ◌≤◌, ◌<◌, ◌==◌, List, length, take, drop, get_or, Some, IfOk, IsErr};
ghost use Rattle.lc_base.specs.Faults.{HasCause};
ghost use Rattle.lc_io.specs.Disk.{Stays};
ghost use Rattle.disk_model.specs.Disk.{content_of};
ghost use Rattle.block_codec.specs.declared.limits.TheConstants.{MAX_BLOCK_BYTES};
ghost use Rattle.block_log.specs.{
  declared.layout.TheConstants.{MAX_RECORD_BYTES},
  Standing.{is_log, is_blank},
  Ahead.{IsAhead},
  Reading.{has_magic, head_of, sized_record, opened_record, gate_of, whole_record, record_of, record_size, is_broken, IsBuffered, IsBody},
};
ghost use Rattle.block_log.specs.declared.reading.Record.TheVariants as records;

use crate::ahead::Ahead;
use crate::layout::{CLOSED_GATE, FIRST_GATE, MAGIC, OPEN_GATE};
use block_codec::MAX_BLOCK_BYTES;
use disk_model::Disk;
use lc_io::Failed;

/// The number of bytes that distinguish a log from other bytes.
const HEAD_BYTES: usize = FIRST_GATE as usize + 1;

/// The number of bytes of a gate and the length after it.
pub(crate) const PREFIX_BYTES: usize = 5;

/// What the head of some bytes says they are.
#[derive(Clone, Copy)]
pub(crate) enum Head {
    Log,
    /// No log yet; `is_begun` says whether the first byte is 0.
    Blank { is_begun: bool },
    /// Something other than a log.
    Other,
}

/// What is at a gate.
#[derive(Clone, Copy)]
pub(crate) enum Record {
    /// The gate is closed.
    Closed,
    /// There is no gate, or it is open and no whole record follows it.
    Broken,
    /// The gate is open, and a record follows whose block has `size` bytes. A mark has none.
    Open { size: usize },
}

/// The byte at an index, or `other` past the end.
fn byte_or(bytes: &[u8], index: usize, other: u8) -> u8
    ensures { result ≡ get_or bytes.now index other }
{
    bytes.get(index).copied().unwrap_or(other)
}

/// Whether the bytes have the magic, and the gate of the first record.
fn has_magic(image: &[u8]) -> bool
    ensures { result ≡ has_magic image.now }
{
    image.len() >= HEAD_BYTES && image[1..].starts_with(&MAGIC)
}

fn is_log(image: &[u8]) -> bool
    ensures { result ≡ is_log image.now }
{
    has_magic(image) && byte_or(image, 0, CLOSED_GATE) == OPEN_GATE
}

fn is_blank(image: &[u8]) -> bool
    ensures { result ≡ is_blank image.now }
{
    image.len() <= 1
        || byte_or(image, 0, 1) == 0
        || (has_magic(image)
            && byte_or(image, 0, OPEN_GATE) != OPEN_GATE
            && byte_or(image, FIRST_GATE as usize, OPEN_GATE) != OPEN_GATE)
}

#[tactic(auto, unfolding(crate::specs::Reading::head_of))]
fn head_in(image: &[u8]) -> Head
    ensures { result ≡ head_of image.now }
{
    if is_log(image) {
        Head::Log
    } else if is_blank(image) {
        Head::Blank {
            is_begun: byte_or(image, 0, 1) == 0,
        }
    } else {
        Head::Other
    }
}

/// What the head of the disk's bytes says they are.
#[tactic(auto, using(crate::proofs::Heads::head_prefix))]
pub(crate) fn read_head<M: Disk>(machine: &mut M) -> Result<Head, Failed>
    ensures head { (content : List ℕ) → content_of (M.disk machine.old (M.now machine.old)) ≡ Some content → IfOk result (λ head. head ≡ head_of content) }
    ensures disk { Stays M.now M.disk machine.old machine.new }
    ensures told { M.told machine.new ≡ M.told machine.old }
    ensures wire_faults { M.wire_faults machine.new ≡ M.wire_faults machine.old }
    ensures cause { HasCause (M.disk_faults machine.old) (M.disk_faults machine.new) (IsErr result) }
{
    let mut image = [0; HEAD_BYTES];
    let count = machine.read_at(0, &mut image)?;
    Ok(head_in(&image[..count]))
}

/// A record whose block has `size` bytes, if a block may have that many. A mark has none.
fn record_of_size(size: u32) -> Record
    ensures { result ≡ sized_record size }
{
    let size = size as usize;
    if size <= MAX_BLOCK_BYTES {
        Record::Open { size }
    } else {
        Record::Broken
    }
}

/// What the gate and the length at the start of these bytes say.
#[tactic(auto, unfolding(crate::specs::Reading::gate_of))]
fn gate_in(bytes: &[u8]) -> Record
    ensures { result ≡ gate_of bytes.now }
{
    match bytes {
        [] => Record::Broken,
        [gate, ..] if *gate != OPEN_GATE => Record::Closed,
        [_, a, b, c, d, ..] => record_of_size(u32::from_be_bytes([*a, *b, *c, *d])),
        _ => Record::Broken,
    }
}

/// What the gate at this offset and the length after it say.
#[tactic(auto, using(crate::proofs::Turns::gate_prefix, crate::proofs::Turns::gate_small))]
fn read_gate<M: Disk>(machine: &mut M, at: u64) -> Result<Record, Failed>
    ensures gate { (content : List ℕ) → content_of (M.disk machine.old (M.now machine.old)) ≡ Some content → IfOk result (λ found. found ≡ gate_of (drop at content)) }
    ensures small { IfOk result (λ found. record_size found ≤ MAX_BLOCK_BYTES) }
    ensures disk { Stays M.now M.disk machine.old machine.new }
    ensures told { M.told machine.new ≡ M.told machine.old }
    ensures wire_faults { M.wire_faults machine.new ≡ M.wire_faults machine.old }
    ensures cause { HasCause (M.disk_faults machine.old) (M.disk_faults machine.new) (IsErr result) }
{
    let mut prefix = [0; PREFIX_BYTES];
    let count = machine.read_at(at, &mut prefix)?;
    Ok(gate_in(&prefix[..count]))
}

/// The number of bytes of the block of a record.
pub(crate) fn record_size(found: Record) -> usize
    ensures { result ≡ record_size found }
{
    match found {
        Record::Closed | Record::Broken => 0,
        Record::Open { size } => size,
    }
}

/// Whether there is no whole record.
pub(crate) fn is_broken(found: Record) -> bool
    ensures { result ≡ is_broken found }
{
    matches!(found, Record::Broken)
}

/// A record whose block has `size` bytes, if these bytes have as many after its length, and one
/// more.
#[tactic(auto, using(crate::proofs::Fronts::rest_after))]
fn whole_record(size: usize, bytes: &[u8]) -> Record
    ensures { result ≡ whole_record (records.Open size) (drop 5 bytes.now) }
{
    if size < bytes.len().saturating_sub(PREFIX_BYTES) {
        Record::Open { size }
    } else {
        Record::Broken
    }
}

/// What is at the gate with which these bytes begin.
#[tactic(auto, using(crate::proofs::Turns::gate_small), unfolding(crate::specs::Reading::record_of))]
fn record_in(bytes: &[u8]) -> Record
    ensures found { result ≡ record_of bytes.now }
    ensures small { record_size result ≤ MAX_BLOCK_BYTES }
{
    match gate_in(bytes) {
        Record::Closed => Record::Closed,
        Record::Broken => Record::Broken,
        Record::Open { size } => whole_record(size, bytes),
    }
}

/// What is at the gate at this offset, as far as bytes that are read ahead say it. They are read
/// again from there on if those that were read before don't say it.
pub(crate) fn look_ahead<M: Disk>(
    machine: &mut M,
    ahead: &mut Ahead,
    gate: u64,
) -> Result<Record, Failed>
    ensures found { IfOk result (λ found. found ≡ record_of ahead.new) }
    ensures small { IfOk result (λ found. record_size found ≤ MAX_BLOCK_BYTES) }
    ensures ahead { IsAhead gate ahead.old (content_of (M.disk machine.old (M.now machine.old)))
        → IfOk result (λ _. IsAhead gate ahead.new (content_of (M.disk machine.old (M.now machine.old)))) }
    ensures disk { Stays M.now M.disk machine.old machine.new }
    ensures told { M.told machine.new ≡ M.told machine.old }
    ensures wire_faults { M.wire_faults machine.new ≡ M.wire_faults machine.old }
    ensures cause { HasCause (M.disk_faults machine.old) (M.disk_faults machine.new) (IsErr result) }
{
    let found = record_in(ahead.bytes());
    if !is_broken(found) {
        return Ok(found);
    }
    ahead.fill(machine, gate)?;
    Ok(record_in(ahead.bytes()))
}

/// Reads the bytes of a record's block, whose gate is at this offset, to the front of the buffer.
/// It returns whether all of them are there, and at least one more byte.
fn read_body<M: Disk>(
    machine: &mut M,
    buffer: &mut [u8],
    gate: u64,
    size: usize,
) -> Result<bool, Failed>
    requires room { size < length buffer.old }
    requires fits { gate + 5 < 2 ^ 64 }
    ensures body { (content : List ℕ) → content_of (M.disk machine.old (M.now machine.old)) ≡ Some content → IfOk result (λ is_whole. IsBody is_whole size buffer.new (drop 5 (drop gate content))) }
    ensures room { length buffer.new ≡ length buffer.old }
    ensures disk { Stays M.now M.disk machine.old machine.new }
    ensures told { M.told machine.new ≡ M.told machine.old }
    ensures wire_faults { M.wire_faults machine.new ≡ M.wire_faults machine.old }
    ensures cause { HasCause (M.disk_faults machine.old) (M.disk_faults machine.new) (IsErr result) }
{
    let count = machine.read_at(gate + PREFIX_BYTES as u64, &mut buffer[..size + 1])?;
    Ok(count > size)
}

/// Reads what is at the gate at this offset, and the block of a record to the front of the buffer.
#[tactic(auto, unfolding(crate::specs::Reading::record_of))]
pub(crate) fn read_record<M: Disk>(
    machine: &mut M,
    buffer: &mut [u8],
    gate: u64,
) -> Result<Record, Failed>
    requires room { length buffer.old ≡ MAX_RECORD_BYTES }
    requires fits { gate + 5 < 2 ^ 64 }
    ensures found { (content : List ℕ) → content_of (M.disk machine.old (M.now machine.old)) ≡ Some content → IfOk result (λ found. found ≡ record_of (drop gate content)) }
    ensures buffered { (content : List ℕ) → content_of (M.disk machine.old (M.now machine.old)) ≡ Some content → IfOk result (λ found. IsBuffered found buffer.new (drop 5 (drop gate content))) }
    ensures small { IfOk result (λ found. record_size found ≤ MAX_BLOCK_BYTES) }
    ensures room { length buffer.new ≡ length buffer.old }
    ensures disk { Stays M.now M.disk machine.old machine.new }
    ensures told { M.told machine.new ≡ M.told machine.old }
    ensures wire_faults { M.wire_faults machine.new ≡ M.wire_faults machine.old }
    ensures cause { HasCause (M.disk_faults machine.old) (M.disk_faults machine.new) (IsErr result) }
{
    match read_gate(machine, gate)? {
        Record::Closed => Ok(Record::Closed),
        Record::Broken => Ok(Record::Broken),
        Record::Open { size } => {
            if read_body(machine, buffer, gate, size)? {
                Ok(Record::Open { size })
            } else {
                Ok(Record::Broken)
            }
        }
    }
}
