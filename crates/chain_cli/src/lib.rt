//! The ledger at the command line: what each command prints for its words, its input and the log;
//! and the program over its host.
#![tactic(auto)]

mod answering;
mod asking;
mod edge;
mod exit;
mod fmt;
mod generating;
mod host;
mod lighting;
mod loading;
mod over_log;
mod packing;
pub mod run;
mod scan;
mod upgrading;
mod words;

pub use exit::exit_of;
pub use host::run_on_host;
