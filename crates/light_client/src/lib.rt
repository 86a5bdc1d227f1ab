//! Light files, which have the digests and the roots of a chain's blocks: how they are read, and
//! made from a lineage. And the check of a proof for one who has such a file and nothing else of
//! the chain; it takes no memory.
#![tactic(auto)]

mod block_root;
mod checking;
mod error;
mod file_laws;
mod light_file;
mod limits;
mod made_laws;
mod making;
mod piece_limits;
mod reading;
mod reject;
mod writing;

pub use block_root::BlockRoot;
pub use checking::{Checked, check};
pub use error::LightError;
pub use file_laws::{
    read_files_are_written, unread_inputs_are_short_or_differ, written_files_are_read,
};
pub use light_file::LightFile;
pub use limits::{BLOCK_ROOT_BYTES, HEAD_BYTES, MAGIC};
pub use made_laws::{block_roots_are_of_their_blocks, pieces_make_the_file};
pub use making::{block_count, make, piece};
pub use piece_limits::BLOCKS_PER_PIECE;
pub use reject::LightReject;
pub use writing::{head, put_block_root};
