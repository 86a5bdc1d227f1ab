//! A range proof has what a lookup up to its last block needs, and the headers and bodies of all
//! versions of the key down to its first block.

use lc_base::{Key, Seq};
use proof_codec::{HeaderList, LeafProof};
use root_laws::Body;

/// A list of bodies.
pub type BodyList = Seq<Body>;

/// Shows all versions of a key from one block to another, both included, to a reader who has the
/// root at a block.
#[derive(Drop)]
pub struct RangeProof {
    pub key: Key,
    /// The first block.
    pub from: u32,
    /// The last block, at least the first one.
    pub to: u32,
    /// Shows the leaf that covers the key, under the root at a block that is at least the last one.
    pub leaf_proof: LeafProof,
    /// The headers from the newest version of the key to the last one up to `to`, as a lookup goes,
    /// and then those of all earlier versions from `from` on; the newest first.
    pub headers: HeaderList,
    /// The bodies of those of the headers that are of blocks from `from` to `to`, in the same
    /// order.
    pub bodies: BodyList,
}
