//! What commands have in common: inputs that are read whole, the lines that they print, and the
//! statuses with which the program ends.
#![tactic(auto)]

mod lines;
mod outcome;
mod status;
mod whole;

pub use chain_input::Cause;
pub use lines::{
    already_upgraded_line, answer_lines, bad_input_line, beyond_line, damaged_line, hex_after,
    line, not_a_log_line, range_lines, refusal_text, refused_line, root_line, trace_lines,
    upgraded_line, usage_line,
};
pub use outcome::{Ending, Outcome};
pub use status::Status;
pub use whole::{MAX_WHOLE_INPUT_BYTES, read_whole};
