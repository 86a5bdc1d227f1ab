//! The layout of a log: a head gate, the magic, then records, each after a gate of its own.

use block_codec::{Block, MAX_BLOCK_BYTES, MAX_MARKED_BLOCKS};
use lc_base::Digest;

/// An open gate. Every other byte is a closed gate.
pub const OPEN_GATE: u8 = 0xA5;

/// The byte that is written as a closed gate.
pub const CLOSED_GATE: u8 = 0x00;

/// The bytes after the head gate: `LCLOG1` and a line feed.
pub(crate) const MAGIC: [u8; 7] = *b"LCLOG1\n";

/// The offset of the gate of the first record, after the head gate and the magic.
pub const FIRST_GATE: u64 = 8;

/// The greatest number of bytes of a record: a length of four bytes, a block, and the gate of the
/// next record.
pub const MAX_RECORD_BYTES: usize = MAX_BLOCK_BYTES + 5;

/// The greatest number of records of a log: those of its blocks, and the mark.
pub const MAX_RECORDS: u64 = MAX_MARKED_BLOCKS as u64 + 1;

/// A block of the log.
#[derive(Drop)]
pub struct Stored {
    /// The offset of the gate of its record.
    pub place: u64,
    /// The digest of the block.
    pub digest: Digest,
    pub block: Block,
}
