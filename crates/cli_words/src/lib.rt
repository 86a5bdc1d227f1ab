//! The words of the command line: they are one command, or none.
#![tactic(auto)]

mod formatting;
mod lighting;
mod packing;
mod proving;
mod question;
mod questions;
mod single;
mod words;

pub use question::{Asked, Question};
pub use single::kind_word;
pub use words::{BlockVersion, Command, Edition, Generation, MAX_GENERATED_BLOCKS, command_of};
