//! The commands that change a log. `append` takes the frames of an input into its chain one after
//! another, and prints the line of a block after the block is stored; `follow` takes them in any
//! order, and prints a line a turn; `upgrade` marks the log, and prints its line then.
#![tactic(auto)]

mod appending;
mod follow_lines;
mod follow_taking;
mod following;
mod laws;
mod starting;
mod taking;
mod telling;
mod turning;
mod upgrading;

pub use appending::append;
pub use cli_promises::{Node, RunEnd, RunStop, StoredLog, stored_chain, stored_roots};
pub use following::follow;
pub use laws::{
    follows_its_leader, frames_are_delivered, inputs_are_delivered, inputs_have_frames,
    known_is_held,
};
pub use starting::start;
pub use telling::{refuse, tell_line};
pub use upgrading::{open_log, upgrade};
