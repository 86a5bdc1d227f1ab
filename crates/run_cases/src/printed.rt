//! What is printed of a case.

use crate::case::CaseError;
use disk_model::MemMachine;
use std::alloc::Global;
use std::io::Write;

/// Whether a piece is a line, of printable bytes and line ends only.
fn is_line(piece: &[u8]) -> bool {
    piece
        .iter()
        .all(|byte| *byte == b'\n' || (b' ' <= *byte && *byte <= b'~'))
}

/// Prints a word and bytes in hex.
pub fn print_hex<W: Write>(
    alloc: Global,
    out: &mut W,
    word: &str,
    bytes: &[u8],
) -> Result<(), CaseError> {
    let digits = hex::encode(alloc, bytes)?;
    Ok(writeln!(out, "{word} {digits}")?)
}

/// Prints a line as it is, and any other piece, which is a frame, in hex.
fn print_piece<W: Write>(alloc: Global, out: &mut W, piece: &[u8]) -> Result<(), CaseError> {
    if is_line(piece) {
        Ok(out.write_all(piece)?)
    } else {
        print_hex(alloc, out, "hex", piece)
    }
}

/// Prints the pieces that were printed on a machine, in order; if `timed`, each after the moment at
/// which printing it began.
pub fn print_told<W: Write>(
    alloc: Global,
    out: &mut W,
    machine: &MemMachine,
    timed: bool,
) -> Result<(), CaseError> {
    for i in 0..machine.told_count() {
        let Some((moment, piece)) = machine.told_at(i) else {
            return Err(CaseError::Wrong);
        };
        if timed {
            write!(out, "at {moment} ")?;
        }
        print_piece(alloc, out, piece)?;
    }
    Ok(())
}

/// Prints what a disk holds, in hex, or `same` if it is what it held before.
pub fn print_held<W: Write>(
    alloc: Global,
    out: &mut W,
    word: &str,
    before: &[u8],
    after: &[u8],
) -> Result<(), CaseError> {
    if after == before {
        Ok(writeln!(out, "{word} same")?)
    } else {
        print_hex(alloc, out, word, after)
    }
}
