//! Makes the proof of an answer from a lineage, for one who has only the root at a block.
#![tactic(auto)]

mod answering;
mod asked;
mod gathering;
mod proving;
mod typed;
mod walking;

pub use proving::prove;
