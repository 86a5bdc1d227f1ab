//! What makes the texts of blocks: drafts, which are JSON texts that people write, are packed into
//! them, and large valid chains are generated, each determined by a count of blocks and a seed.
#![tactic(auto)]

mod block;
mod draft;
mod draws;
mod error;
mod fields;
mod generator;
mod limits;
mod lists;
mod read_error;
mod transaction;
mod txs;

pub use draft::{MAX_PACKED_BLOCKS, pack};
pub use error::PackError;
pub use generator::{Gen, blocks_of_seed};
pub use limits::MAX_TXS_MADE;
