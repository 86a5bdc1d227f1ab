//! The statuses with which the program exits: each failure has a number of its own.

ghost use Rattle.std.specs.Prelude.{◌≡◌};
ghost use Rattle.cli_lines.specs.Status.{status_number};

/// How the program ends.
#[derive(Clone, Copy)]
pub enum Status {
    /// The command did its work.
    Done,
    /// The words are no command.
    Usage,
    /// Reading the input failed.
    Unreadable,
    /// Printing failed.
    Untold,
    /// A call of the disk failed.
    DiskFault,
    /// Memory ran out.
    Memory,
    /// The disk holds something other than a log.
    NotALog,
    /// The log is damaged.
    Damaged,
    /// A frame of the input is refused.
    Refused,
    /// A block past the head of the chain was asked for.
    Beyond,
    /// A proof is not accepted.
    Rejected,
    /// The input is not of its grammar, or too long.
    BadInput,
    /// A call of the scratch device failed.
    ScratchFault,
}

impl Status {
    /// The exit number of this status, from 0 to 12.
    pub fn number(self) -> u8
        ensures { result ≡ status_number self }
    {
        match self {
            Status::Done => 0,
            Status::Usage => 1,
            Status::Unreadable => 2,
            Status::Untold => 3,
            Status::DiskFault => 4,
            Status::Memory => 5,
            Status::NotALog => 6,
            Status::Damaged => 7,
            Status::Refused => 8,
            Status::Beyond => 9,
            Status::Rejected => 10,
            Status::BadInput => 11,
            Status::ScratchFault => 12,
        }
    }
}
