//! Cases of crashes: the moment at which a command began to print each piece, and what a crash at a
//! moment leaves of the disk.

use crate::case::{Case, CaseError, cut};
use crate::command::run_case;
use crate::printed::{print_held, print_told};
use crate::streams::{bytes_of, number_of};
use disk_model::MemMachine;
use lc_base::Resources;
use std::alloc::Global;
use std::io::Write;

/// The last word of a crash that cuts the disk to the length that was synced.
const SHORT: &str = "short";

/// A crash of a machine.
#[derive(Clone, Copy)]
struct Crash {
    moment: u64,
    /// How many of the bytes that are not synced are kept.
    keep: u64,
    /// The byte that replaces the others.
    fill: u8,
    /// Whether the disk is cut to the length that was synced.
    short: bool,
}

/// The byte that two digits in hex spell.
fn byte_of(alloc: Global, digits: &str) -> Result<u8, CaseError> {
    let bytes = bytes_of(alloc, digits)?;
    match bytes.first() {
        Some(byte) => Ok(*byte),
        None => Err(CaseError::Malformed),
    }
}

/// The crash that four words say: its moment, how many bytes are kept, the byte in hex that
/// replaces the others, and `short` if the disk is cut to the length that was synced.
fn crash_of(alloc: Global, text: &str) -> Result<Crash, CaseError> {
    let (moment, rest) = cut(text, ' ');
    let (keep, rest) = cut(rest, ' ');
    let (fill, length) = cut(rest, ' ');
    Ok(Crash {
        moment: number_of(moment)?,
        keep: number_of(keep)?,
        fill: byte_of(alloc, fill)?,
        short: length == SHORT,
    })
}

/// The bytes that a crash of a machine leaves of its disk.
fn left_by(alloc: Global, machine: &MemMachine, crash: Crash) -> Result<Vec<u8>, CaseError> {
    if crash.moment > machine.moment() {
        return Err(CaseError::Malformed);
    }
    let crashed = machine.crash(alloc, crash.moment, crash.keep, crash.fill, crash.short)?;
    match Vec::from_slice(alloc, crashed.image()) {
        Ok(image) => Ok(image),
        Err(_) => Err(CaseError::Memory),
    }
}

/// Prints what each crash leaves of the disk of a machine, in hex, or `same` if it is what the
/// crash before it left; the first one is compared with what the disk held at first.
fn print_crashes<W: Write>(
    alloc: Global,
    out: &mut W,
    machine: &MemMachine,
    first: &str,
    crashes: &str,
) -> Result<(), CaseError> {
    let mut before = bytes_of(alloc, first)?;
    for text in crashes.split(',') {
        let after = left_by(alloc, machine, crash_of(alloc, text)?)?;
        print_held(alloc, out, "image", before.as_slice(), after.as_slice())?;
        before = after;
    }
    Ok(())
}

/// Prints the number of a command's status, its words, when it printed each piece, and what crashes
/// leave.
fn print_run<W: Write>(
    alloc: Global,
    out: &mut W,
    case: &Case<'_>,
    number: u8,
    machine: &MemMachine,
) -> Result<(), CaseError> {
    writeln!(out, "== {number} {}", case.words)?;
    print_told(alloc, out, machine, true)?;
    writeln!(out, "moment {}", machine.moment())?;
    print_crashes(alloc, out, machine, case.image, case.further)
}

/// Runs a command, the words of the case without the first, and prints what crashes leave of it.
pub fn run_crashes<W: Write>(
    resources: Resources,
    out: &mut W,
    command: &str,
    case: &Case<'_>,
) -> Result<(), CaseError> {
    let ended = run_case(resources, command, case, "")?;
    print_run(resources.alloc, out, case, ended.number, &ended.machine)
}
