//! What each command must print and leave, the printing of it, and why a command stops before its
//! end.
#![tactic(auto)]

mod asking;
mod loads;
mod showing;
mod starting;
mod stop;
mod telling;

pub use asking::beyond;
pub use chain_load::load_chain;
pub use cli_promises::{
    Ending, Outcome, RunStop, answer_lines, hex_after, line, range_lines, read_whole, refused_line,
    trace_lines,
};
pub use loads::load_line;
pub use proof_commands::{
    HexFault, Refused, Shown, Verification, answer_of, decode_hex, reject_text, rejected_line,
    verify_hex,
};
pub use replay_soundness::{
    BLOCKS_PER_PIECE, Checked, LightError, LightFile, LightReject, block_count, check, head, piece,
};
pub use showing::shown_lines;
pub use starting::start_outcome;
pub use stop::{OutcomeStop, status_of_stop};
pub use telling::{tell, tell_all, tell_usage};
