//! Runs contracts within a budget, over a world and a host: their statements one after another,
//! with branches, loops, and blocks.
#![tactic(auto)]

mod binding;
mod calling;
mod flow;
mod put;
mod putting;
mod simple;
mod statement;

pub use binding::Binding;
pub use calling::call;
pub use eval_expressions::{CallSite, CheckError, Checked, Outcome, check};
pub use flow::Flow;
pub use put::{put_statement, remove_statement};
pub use simple::{bind_statement, condition_step, fail_statement, return_statement};
