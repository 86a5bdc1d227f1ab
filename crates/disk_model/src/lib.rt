//! A disk and its calls, what a crash may leave of it, and a machine in memory with a disk.
#![tactic(auto)]

mod crash;
mod disk;
mod mem_machine;

pub use disk::Disk;
pub use mem_machine::MemMachine;
