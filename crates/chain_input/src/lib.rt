//! The chain that the frames of an input make, one after another.
#![tactic(auto)]

mod cause;
mod folding;
mod taking;

pub use cause::{Cause, cause_of};
pub use chain_replay::Refusal;
pub use folding::{Folded, fold};
pub use taking::{FrameTaker, InputEnd, InputStop, Turn, take_frames};
