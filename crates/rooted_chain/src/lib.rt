//! A chain of blocks that keeps the lineage of its rows, and makes the roots of blocks of it.
#![tactic(auto)]

mod all_roots;
mod chain;
mod extending;
mod running;

pub use all_roots::AllRootsChain;
pub use chain::LineageChain;
pub use chain_replay::{Chain, Judged, Marking, ReceiptList, Refusal, Replay};
pub use prov_query::{Lineage, QueryError, ask};
