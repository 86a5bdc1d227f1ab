//! Reading expressions of the contract language from their tokens.
#![tactic(auto)]

mod build;
mod levels;

pub use levels::{expression, expressions};
