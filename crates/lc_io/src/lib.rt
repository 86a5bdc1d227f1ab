//! The traits through which a program meets the outside, a scratch device that keeps bytes while it
//! runs among them; their implementations over real streams, and their fakes in memory.
#![tactic(auto)]

mod edge;
mod fakes;
mod filling;
mod mem_scratch;
mod mem_source;
mod mem_wire;
mod outside;
mod patient;
mod scratch;

pub use edge::{HostSource, HostStream, HostWire, write_whole};
pub use fakes::{Calls, is_failing, one_more};
pub use filling::fill;
pub use mem_scratch::MemScratch;
pub use mem_source::MemSource;
pub use mem_wire::{MemWire, Room};
pub use outside::{Clock, Failed, Source, Wire};
pub use patient::Patient;
pub use scratch::Scratch;
