//! The machine whose disk is a real file, which it locks before it writes.
#![tactic(auto)]

mod calls;
mod edge;
mod log_file;
mod machine;

pub use calls::{CallError, Calls, Node, Stat};
pub use edge::HostCalls;
pub use machine::{FileMachine, MachineOver};
