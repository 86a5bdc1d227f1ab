//! Blocks, the one spelling that each has, and the frames of block files.
#![tactic(auto)]

mod block;
mod decoding;
mod encoding;
mod error;
mod frames;
mod limits;
mod placement;

pub use block::{Block, CALL, DEPLOY, FIRST_VERSION, SECOND_VERSION, SET, Tx, TxList, text_limit};
pub use decoding::{DecodeError, decode};
pub use encoding::encode;
pub use error::{EncodeError, FrameError};
pub use frames::Frames;
pub use limits::{
    MAX_ARGS, MAX_BLOCK_BUDGET, MAX_BLOCK_BYTES, MAX_BLOCKS, MAX_CALL_BUDGET, MAX_FIRST_TEXT_BYTES,
    MAX_FRAMES, MAX_MARKED_BLOCKS, MAX_ROWS_BEFORE_BLOCK, MAX_SOURCE_BYTES, MAX_TXS,
};
pub use placement::{Misplaced, NO_PARENT, Placement, block_budget, block_digest, place};
