//! The source, the machine and the scratch device of a case, from the fields of its line.

ghost use Rattle.std.specs.Prelude.{◌<◌, ◌≤◌, length, None, IfOk, IsErr};
ghost use Rattle.lc_base.specs.Faults.{HasCause};
ghost use Rattle.lc_io.specs.Outside.{Pulls};
ghost use Rattle.disk_model.specs.{Disk.{IsSettled}, Machine.{disk_of, now_of}};

use crate::case::{CaseError, cut};
use disk_model::MemMachine;
use lc_base::Seq;
use lc_io::{Failed, MemScratch, MemSource, Room, Source};
use std::alloc::Global;

/// Room for the calls of a case, and for what it prints and writes.
const ROOM: Room = Room {
    calls: 4096,
    bytes: 1_048_576,
};

/// Room for the bodies of versions that a case keeps.
const SCRATCH_ROOM: Room = Room {
    calls: 1_048_576,
    bytes: 16_777_216,
};

/// The prefix of the numbers of pulls that return no bytes.
const PAUSE: &str = "pause ";

/// A source that returns no bytes at some of its pulls, as at the end of an input, and then goes
/// on, as a terminal may. So what it has left isn't known.
#[derive(Drop)]
pub struct PausingSource {
    source: MemSource,
    /// The number of pulls so far.
    pulls: u64,
    /// The numbers of the pulls, from 0, that return no bytes.
    pauses: Seq<u64>,
}

impl PausingSource {
    /// The number of bytes that are left.
    pub fn remaining(&self) -> usize {
        self.source.rest().len()
    }
}

impl Source for PausingSource {
    ghost left = { λ _. None };

    ghost source_faults = { λ s. s.source.faults };

    fn pull(&mut self, buffer: &mut [u8]) -> Result<usize, Failed>
        requires { 0 < length buffer.old }
        ensures bound { IfOk result (λ n. n ≤ length buffer.new) }
        ensures bytes { Pulls None None result buffer.new }
        ensures cause { HasCause self.old.source.faults self.new.source.faults (IsErr result) }
    {
        let number = self.pulls;
        self.pulls = self.pulls.saturating_add(1);
        if self.pauses.as_slice().contains(&number) {
            return Ok(0);
        }
        self.source.pull(buffer)
    }
}

/// The number that a text spells.
pub fn number_of(text: &str) -> Result<u64, CaseError> {
    match text.parse::<u64>() {
        Ok(number) => Ok(number),
        Err(_) => Err(CaseError::Malformed),
    }
}

/// The bytes that digits in hex spell.
pub fn decoded(alloc: Global, digits: &str) -> Result<Vec<u8>, CaseError> {
    match hex::decode(alloc, digits) {
        Ok(bytes) => Ok(bytes),
        Err(_) => Err(CaseError::Malformed),
    }
}

/// Adds bytes `count` times.
fn add_times(
    alloc: Global,
    bytes: &mut Vec<u8>,
    once: &[u8],
    count: usize,
) -> Result<(), CaseError> {
    let all = once.repeat(alloc, count)?;
    Ok(bytes.extend_from_slice(&all)?)
}

/// Adds a part: bytes in hex, or `HEX*COUNT` for these bytes `COUNT` times.
fn add_part(alloc: Global, bytes: &mut Vec<u8>, part: &str) -> Result<(), CaseError> {
    let (digits, count) = match part.split_once('*') {
        None => (part, 1),
        Some((digits, count)) => (digits, number_of(count)? as usize),
    };
    let once = decoded(alloc, digits)?;
    add_times(alloc, bytes, &once, count)
}

/// The bytes of a text: parts with a `+` between each two.
pub fn bytes_of(alloc: Global, text: &str) -> Result<Vec<u8>, CaseError> {
    let mut bytes = Vec::new(alloc);
    for part in text.split('+') {
        add_part(alloc, &mut bytes, part)?;
    }
    Ok(bytes)
}

/// Numbers with a comma between each two; an empty text has no numbers.
fn numbers_of(alloc: Global, text: &str) -> Result<Seq<u64>, CaseError> {
    let mut numbers = Seq::new(alloc);
    if !text.is_empty() {
        for number in text.split(',') {
            numbers.push(number_of(number)?)?;
        }
    }
    Ok(numbers)
}

/// A source of these bytes, of which the pulls of these numbers fail.
fn source_over(
    alloc: Global,
    piece: u64,
    input: &[u8],
    failing: &str,
) -> Result<MemSource, CaseError> {
    let failing = numbers_of(alloc, failing)?;
    Ok(MemSource::new(alloc, input, (piece as usize).max(1), failing.as_slice())?)
}

/// A source of the bytes of an input, of which the pulls of these numbers fail.
fn failing_source_of(
    alloc: Global,
    piece: &str,
    input: &str,
    failing: &str,
) -> Result<MemSource, CaseError> {
    let piece = number_of(piece)?;
    let input = bytes_of(alloc, input)?;
    source_over(alloc, piece, input.as_slice(), failing)
}

/// A source of an input, which returns at most `piece` bytes at once. The pulls of these numbers
/// fail; if the text begins with `pause`, they return no bytes.
pub fn source_of(
    alloc: Global,
    piece: &str,
    input: &str,
    pulls: &str,
) -> Result<PausingSource, CaseError> {
    let (failing, pauses) = match pulls.strip_prefix(PAUSE) {
        None => (pulls, ""),
        Some(pauses) => ("", pauses),
    };
    let pauses = numbers_of(alloc, pauses)?;
    match failing_source_of(alloc, piece, input, failing) {
        Ok(source) => Ok(PausingSource {
            source,
            pulls: 0,
            pauses,
        }),
        Err(error) => Err(error),
    }
}

/// A machine whose disk holds these bytes, with nothing pending. Its calls of these numbers fail.
fn machine_over(alloc: Global, image: &[u8], calls: &str) -> Result<MemMachine, CaseError>
    ensures settled { IfOk result (λ machine. IsSettled (disk_of machine (now_of machine))) }
{
    let calls = numbers_of(alloc, calls)?;
    match MemMachine::new(alloc, image, ROOM, calls.as_slice()) {
        Ok(machine) => Ok(machine),
        Err(_) => Err(CaseError::Memory),
    }
}

/// A machine whose disk holds the bytes of an image, with nothing pending. Its calls of these
/// numbers fail.
pub fn machine_of(alloc: Global, image: &str, calls: &str) -> Result<MemMachine, CaseError>
    ensures settled { IfOk result (λ machine. IsSettled (disk_of machine (now_of machine))) }
{
    let image = bytes_of(alloc, image)?;
    machine_over(alloc, image.as_slice(), calls)
}

/// A room: how many calls fit, and after a `/` how many bytes.
fn room_of(text: &str) -> Result<Room, CaseError> {
    let (calls, bytes) = cut(text, '/');
    match (calls.parse::<u32>(), bytes.parse::<u32>()) {
        (Ok(calls), Ok(bytes)) => Ok(Room { calls, bytes }),
        _ => Err(CaseError::Malformed),
    }
}

/// A scratch device that keeps nothing yet. Its calls of these numbers fail; its room may follow
/// after a `/`.
pub fn scratch_of(alloc: Global, text: &str) -> Result<MemScratch, CaseError> {
    let (failing, room) = match text.split_once('/') {
        None => (text, SCRATCH_ROOM),
        Some((failing, room)) => (failing, room_of(room)?),
    };
    let failing = numbers_of(alloc, failing)?;
    Ok(MemScratch::new(alloc, room, failing.as_slice())?)
}
