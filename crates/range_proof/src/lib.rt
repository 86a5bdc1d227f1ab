//! All versions of a key between two blocks of a lineage, and the proof of them, for one who has
//! only the root at a block.
#![tactic(auto)]

mod asked;
mod between;
mod gathering;
mod going_back;
mod leaf;
mod proving;
mod ranging;
mod reading;
mod writing;

pub use answer_proof::prove;
pub use between::indexes_between;
pub use proving::prove_range;
pub use ranging::range;
