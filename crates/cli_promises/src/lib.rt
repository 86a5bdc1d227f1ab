//! What printed lines promise about the log, what a crash may leave of it, and the laws of both;
//! the lines of blocks, and how commands that change a log end.
#![tactic(auto)]

mod ending;
mod laws;
mod lines;

pub use cli_lines::{
    Ending, Outcome, Status, already_upgraded_line, answer_lines, beyond_line, damaged_line,
    hex_after, line, not_a_log_line, range_lines, read_whole, refusal_text, refused_line,
    trace_lines, upgraded_line, usage_line,
};
pub use ending::{RunEnd, RunStop};
pub use laws::{begun_is_prefix, runs_hold, stop_leaves};
pub use lines::{appended_line, block_line, known_line};
pub use recovery::{
    AppendError, Appended, Node, StartError, StoredLog, stored_chain, stored_roots,
};
