//! Finds what a wrong answer with an accepted proof rests on: two different texts with one digest.
#![tactic(auto)]

mod exposing;
mod leaves;
mod ledger;
mod nodes;
mod rows;

pub use exposing::{Clash, expose};
pub use ledger::search_ledger;
