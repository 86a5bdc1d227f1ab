//! The ancestors of a version in a lineage: all that it was derived from, directly or by way of
//! others. And the proof of them, for one who has only the root at a block.
#![tactic(auto)]

mod finding;
mod gathering;
mod items;
mod proving;
mod reaching;
mod tracing;
mod writing;

pub use answer_proof::prove;
pub use proving::prove_trace;
pub use tracing::{trace, trace_rows};
