//! Cases, as they stand in the lines of the input, and why one can't be run.

use lc_base::Memory;
use std::alloc::AllocError;
use std::io;

/// Why a case, and with it the program, ends early.
#[derive(Clone, Copy, Debug)]
pub enum CaseError {
    /// A line has none of the forms that README.md lists.
    Malformed,
    /// What a case shows does not hold.
    Wrong,
    Memory,
    /// The input or the output of the program failed.
    Io,
}

impl From<Memory> for CaseError {
    fn from(_memory: Memory) -> CaseError {
        CaseError::Memory
    }
}

impl From<AllocError> for CaseError {
    fn from(_error: AllocError) -> CaseError {
        CaseError::Memory
    }
}

impl From<io::Error> for CaseError {
    fn from(_error: io::Error) -> CaseError {
        CaseError::Io
    }
}

/// A case, by the fields of its line. A field that the line lacks is empty.
#[derive(Clone, Copy)]
pub struct Case<'a> {
    /// The words of the command, or the kind of the case and its name.
    pub words: &'a str,
    /// The greatest number of bytes that the source returns at once; of a tree its leaves.
    pub piece: &'a str,
    pub input: &'a str,
    /// The pulls of the source that fail; after `pause `, those that return no bytes.
    pub pulls: &'a str,
    /// The calls of the machine that fail, over its disk and its wire.
    pub calls: &'a str,
    /// The bytes of the disk before the command, in hex.
    pub image: &'a str,
    /// The calls of the scratch device that fail, and after a `/` its room; or the crashes.
    pub further: &'a str,
    /// How many fields the line has.
    pub count: usize,
}

impl Case<'_> {
    /// Whether the case says which calls fail.
    pub fn has_calls(&self) -> bool {
        self.count > 3
    }

    /// Whether the case says what the disk holds.
    pub fn has_image(&self) -> bool {
        self.count > 5
    }
}

/// The text before the first separator, and the text after it; all of the text, and nothing, if it
/// has none.
pub fn cut(text: &str, separator: char) -> (&str, &str) {
    match text.split_once(separator) {
        None => (text, ""),
        Some(parts) => parts,
    }
}

/// The case of a line.
pub fn case_of(line: &str) -> Case<'_> {
    let (words, rest) = cut(line, '|');
    let (piece, rest) = cut(rest, '|');
    let (input, rest) = cut(rest, '|');
    let (pulls, rest) = cut(rest, '|');
    let (calls, rest) = cut(rest, '|');
    let (image, further) = cut(rest, '|');
    Case {
        words,
        piece,
        input,
        pulls,
        calls,
        image,
        further,
        count: line.split('|').count(),
    }
}
