//! How `append` and `follow` end, and why a command stops.

use cli_lines::Cause;

/// How taking the frames of an input came to its end.
#[derive(Clone, Copy)]
pub enum RunEnd {
    /// All frames of the input were taken, and by `follow` the last line was printed.
    Whole,
    /// A frame was refused, and its line printed: its number in the input, from 0, and the cause.
    Refused { frame: u32, cause: Cause },
}

/// Why a command stopped before its end: something outside failed, or memory ran out.
#[derive(Clone, Copy)]
pub enum RunStop {
    /// Reading the input failed.
    Unreadable,
    /// Printing failed.
    Untold,
    /// A call of the disk failed.
    DiskFault,
    /// A call of the scratch device failed.
    ScratchFault,
    /// Memory ran out.
    Memory,
}
