//! What a command prints, and how it ends, if nothing fails.

ghost use Rattle.std.specs.Prelude.{◌≡◌, [], ◌∷◌, IfOk};
ghost use Rattle.cli_lines.specs.Outcome.{status_of, outcome_with, bad_input};

use crate::lines::bad_input_line;
use crate::status::Status;
use lc_base::{Bytes, Memory, Seq};
use std::alloc::Global;

/// How a command ends if nothing fails.
#[derive(Clone, Copy)]
pub enum Ending {
    Done,
    Refused,
    Beyond,
    Rejected,
    BadInput,
    NotALog,
    Damaged,
}

/// What a command prints, and how it ends.
#[derive(Drop)]
pub struct Outcome {
    /// The pieces to print, each by a call of its own: lines, or frames of blocks.
    pub pieces: Seq<Bytes>,
    pub ending: Ending,
}

impl Outcome {
    /// The outcome of one line.
    pub fn from_line(alloc: Global, line: Bytes, ending: Ending) -> Result<Outcome, Memory>
        ensures { IfOk result (λ outcome. outcome ≡ outcome_with (line ∷ []) ending) }
    {
        let mut pieces = Seq::new(alloc);
        pieces.push(line)?;
        Ok(Outcome { pieces, ending })
    }

    /// The outcome for an input that is not of its grammar, or too long, with the cause.
    pub fn bad_input(alloc: Global, cause: &str) -> Result<Outcome, Memory>
        ensures { IfOk result (λ outcome. outcome ≡ bad_input cause.now) }
    {
        Outcome::from_line(alloc, bad_input_line(alloc, cause)?, Ending::BadInput)
    }
}

impl Ending {
    /// The exit status of this ending.
    pub fn status(self) -> Status
        ensures { result ≡ status_of self }
    {
        match self {
            Ending::Done => Status::Done,
            Ending::Refused => Status::Refused,
            Ending::Beyond => Status::Beyond,
            Ending::Rejected => Status::Rejected,
            Ending::BadInput => Status::BadInput,
            Ending::NotALog => Status::NotALog,
            Ending::Damaged => Status::Damaged,
        }
    }
}
