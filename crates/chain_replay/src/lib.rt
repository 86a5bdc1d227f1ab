//! The blocks of a chain, what they left, and the state that the next one runs on.
#![tactic(auto)]

mod chain;
mod judging;
mod marking;
mod refusal;
mod replaying;

pub use chain::Chain;
pub use chain_exec::{BlockRun, Receipt, ReceiptList, run_block};
pub use judging::Judged;
pub use marking::Marking;
pub use refusal::Refusal;
pub use replaying::Replay;
