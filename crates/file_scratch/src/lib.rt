//! The scratch device over a file that no other run has and that loses its name at once.
#![tactic(auto)]

mod calls;
mod device;
mod edge;
mod gathered;

pub use calls::{Calls, Created};
pub use device::{FileScratch, ScratchOver};
pub use edge::HostCalls;
pub use gathered::GATHERED_BYTES;
