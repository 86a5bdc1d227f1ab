//! A chain of blocks over the log that holds them: a block runs before it is stored, and the blocks
//! of a log run as they are read.
#![tactic(auto)]

mod appending;
mod errors;
mod no_scratch;
mod node;
mod opening;
mod restoring;
mod stored_log;
mod storing;
mod upgrading;

pub use errors::{AppendError, StartError};
pub use node::{Appended, Node};
pub use opening::{stored_chain, stored_roots};
pub use stored_log::StoredLog;
