//! The bodies of versions, kept on a scratch device in the order in which they were pushed, and
//! some of them at hand.
#![tactic(auto)]

mod cache;
mod keeping;
mod kept;
mod limits;
mod store;

pub use limits::CACHED_BODIES;
pub use store::Bodies;
