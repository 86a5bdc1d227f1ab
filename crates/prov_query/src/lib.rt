//! A lineage, read together with the scratch device that keeps its bodies: the answers to
//! questions, whole, and part by part as the host of contracts that run. A question of the command
//! is refused past the last block.
#![tactic(auto)]

mod answers;
mod found;
mod host;
mod parts;
mod questions;

pub use answers::answer;
pub use host::Reading;
pub use merkle_dag::{Counter, Lineage, QueryError, Steps};
pub use questions::ask;
