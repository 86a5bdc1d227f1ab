//! What blocks do: the transactions of a block run one after another, on the state before the
//! block.
#![tactic(auto)]

mod block;
mod calling;
mod deploying;
mod laws;
mod receipt;
mod setting;
mod staging;
mod transaction;

pub use block::{BlockRun, run_block};
pub use contract_eval::Checked;
pub use laws::{
    blocks_keep_lawful, costs_are_within_budgets, failures_leave_nothing, one_compiler,
    receipts_ignore_indexes, replay_grows,
};
pub use receipt::{Receipt, ReceiptList};
