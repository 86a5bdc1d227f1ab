//! Runs cases, each a line of standard input, and prints the outcome of each. README.md has the
//! forms of lines.
#![tactic(auto)]

mod blocks;
mod case;
mod command;
mod crashes;
mod printed;
mod scanning;
mod streams;
mod trees;

use crate::blocks::run_blocks;
use crate::case::{CaseError, case_of};
use crate::command::run_command;
use crate::crashes::run_crashes;
use crate::trees::run_tree;
use lc_base::{Resources, Zeros};
use std::io::{self, BufRead, BufReader, BufWriter, Write};

/// The prefix of a case whose blocks are run one by one.
const BLOCKS: &str = "blocks ";

/// The prefix of a case whose command is stopped by crashes.
const CRASH: &str = "crash ";

/// The prefix of a case of a tree.
const TREE: &str = "tree ";

/// Runs the case of a line.
fn run_line<W: Write>(resources: Resources, out: &mut W, line: &str) -> Result<(), CaseError> {
    let case = case_of(line);
    if case.words.starts_with(TREE) {
        return run_tree(resources.alloc, out, &case);
    }
    if case.words.starts_with(BLOCKS) {
        return run_blocks(resources, out, &case);
    }
    match case.words.strip_prefix(CRASH) {
        Some(command) => run_crashes(resources, out, command, &case),
        None => run_command(resources, out, &case),
    }
}

fn main(rt: HostRuntime) -> Result<(), CaseError> {
    let alloc = rt.alloc();
    let resources = Resources::new(alloc, &Zeros)?;
    let mut out = BufWriter::new(alloc, io::writer(&rt))?;
    for line in BufReader::new(alloc, rt.reader())?.lines(alloc) {
        let line = line?;
        run_line(resources, &mut out, line.as_str())?;
    }
    out.flush()?;
    Ok(())
}
