//! A log of blocks on a disk. The gate before a block is opened only after the block is synced.
#![tactic(auto)]

mod ahead;
mod appending;
mod creation;
mod error;
mod layout;
mod log;
mod marking;
mod reader;
mod reading;
mod start;
mod steps;

pub use error::{DiskFault, LogError};
pub use layout::{MAX_RECORD_BYTES, MAX_RECORDS, Stored};
pub use log::Log;
pub use reader::{LogReader, Turn};
pub use start::Opened;
