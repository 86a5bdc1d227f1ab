//! Reading sources of the contract language as trees.
#![tactic(auto)]

mod function;
mod names;
mod source;
mod statement;

pub use source::{SyntaxError, SyntaxKind, parse};
