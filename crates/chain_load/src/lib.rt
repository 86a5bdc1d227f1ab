//! A load: the blocks of a seed are added to a chain, which is then queried, and the steps of the
//! look-ups are counted.
#![tactic(auto)]

mod building;
mod loading;
mod looking;

pub use loading::{Load, load_chain};
