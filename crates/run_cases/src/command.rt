//! Cases of commands: the words and the input, the status, what was printed, and what became of the
//! log.

use crate::case::{Case, CaseError};
use crate::printed::{print_held, print_told};
use crate::streams::{PausingSource, bytes_of, machine_of, scratch_of, source_of};
use chain_cli::run::run;
use disk_model::MemMachine;
use lc_base::{Resources, Seq};
use lc_io::MemScratch;
use std::alloc::Global;
use std::io::Write;

/// A command that has ended.
#[derive(Drop)]
pub struct Ended {
    /// The number of its status.
    pub number: u8,
    /// The number of bytes of its input that are left.
    pub left: usize,
    pub machine: MemMachine,
}

/// The words of a text that has a blank between each two.
fn words_of(alloc: Global, text: &str) -> Result<Seq<String>, CaseError> {
    let mut words = Seq::new(alloc);
    if !text.is_empty() {
        for word in text.split(' ') {
            words.push(String::from_str(alloc, word)?)?;
        }
    }
    Ok(words)
}

/// Runs words over a machine that is made for it.
fn run_on_machine(
    resources: Resources,
    words: &[String],
    source: &mut PausingSource,
    scratch: &mut MemScratch,
    case: &Case<'_>,
) -> Result<Ended, CaseError> {
    let mut machine = machine_of(resources.alloc, case.image, case.calls)?;
    let number = run(resources, words, source, &mut machine, scratch).number();
    let left = source.remaining();
    Ok(Ended {
        number,
        left,
        machine,
    })
}

/// Runs words over a source that is made for them.
fn run_on_source(
    resources: Resources,
    words: &[String],
    scratch: &mut MemScratch,
    case: &Case<'_>,
) -> Result<Ended, CaseError> {
    let mut source = source_of(resources.alloc, case.piece, case.input, case.pulls)?;
    run_on_machine(resources, words, &mut source, scratch, case)
}

/// Runs words over a scratch device that is made for them.
fn run_on_scratch(
    resources: Resources,
    words: &[String],
    case: &Case<'_>,
    scratch: &str,
) -> Result<Ended, CaseError> {
    let mut scratch = scratch_of(resources.alloc, scratch)?;
    run_on_source(resources, words, &mut scratch, case)
}

/// Runs a command over what the fields of its case say.
pub fn run_case(
    resources: Resources,
    command: &str,
    case: &Case<'_>,
    scratch: &str,
) -> Result<Ended, CaseError> {
    let words = words_of(resources.alloc, command)?;
    run_on_scratch(resources, words.as_slice(), case, scratch)
}

/// Prints what a disk holds, or that it is what it held at first.
fn print_log<W: Write>(
    alloc: Global,
    out: &mut W,
    image: &str,
    after: &[u8],
) -> Result<(), CaseError> {
    let before = bytes_of(alloc, image)?;
    print_held(alloc, out, "log", before.as_slice(), after)
}

/// Prints the number of a command's status, its words, and what it printed. Then, if the case says
/// which calls fail, how many bytes of the input are left; and if it says what the disk held, what
/// it holds.
fn print_outcome<W: Write>(
    alloc: Global,
    out: &mut W,
    case: &Case<'_>,
    ended: &Ended,
) -> Result<(), CaseError> {
    writeln!(out, "== {} {}", ended.number, case.words)?;
    print_told(alloc, out, &ended.machine, false)?;
    if case.has_calls() {
        writeln!(out, "left {}", ended.left)?;
    }
    if case.has_image() {
        print_log(alloc, out, case.image, ended.machine.image())?;
    }
    Ok(())
}

/// Runs a command, and prints what became of it.
pub fn run_command<W: Write>(
    resources: Resources,
    out: &mut W,
    case: &Case<'_>,
) -> Result<(), CaseError> {
    let ended = run_case(resources, case.words, case, case.further)?;
    print_outcome(resources.alloc, out, case, &ended)
}
