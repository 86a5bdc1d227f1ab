//! The canonical text of contracts: it is read as the contract that it was printed from.
#![tactic(auto)]

mod contract;
mod expression;
mod statement;
mod writer;

pub use contract::print;
