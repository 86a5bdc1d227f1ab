//! A list that grows at its end, and whose prefixes share its items.
#![tactic(auto)]

mod shared;

pub use shared::Shared;
