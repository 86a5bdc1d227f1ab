//! The digest of a block, and the place that the block has relative to a chain.

ghost use Rattle.std.specs.Prelude.{◌≡◌, ◌<◌, ◌≤◌, ◌↔◌, IsSome};
ghost use Rattle.block_codec.specs.{
  Spelling.{IsBlock},
  Placement.{bytes_digest, block_budget, tx_budget, held_placement, most_blocks, wanted_version, new_placement, placement},
};

use crate::block::{Block, FIRST_VERSION, SECOND_VERSION, Tx};
use crate::limits::{MAX_BLOCK_BUDGET, MAX_BLOCKS, MAX_MARKED_BLOCKS, MAX_ROWS_BEFORE_BLOCK};
use digest_kit::TagHasher;
use lc_base::Digest;

/// The tag of a block among the texts that are hashed.
pub const BLOCK_TAG: u8 = 0x07;

/// 32 zero bytes, the parent of the first block.
pub const NO_PARENT: Digest = Digest([0; 32]);

/// The place of a block relative to a chain.
#[derive(Clone, Copy, PartialEq, Eq)]
pub enum Placement {
    /// The chain holds this block.
    Known,
    /// It is the next block of the chain.
    Next,
    /// It is neither, for this reason.
    Not(Misplaced),
}

/// Why a block is neither held by a chain nor its next one, with what a sender needs to mend it.
#[derive(Clone, Copy, PartialEq, Eq)]
pub enum Misplaced {
    /// The chain holds another block with its number, of the digest `have`.
    Fork { have: Digest },
    /// The chain has `MAX_BLOCKS` blocks, or `MAX_MARKED_BLOCKS` if it is marked, or no room for
    /// the rows of another.
    Full,
    /// The next block has the number `want`.
    Number { want: u32 },
    /// The next block has the parent `want`.
    Parent { want: Digest },
    /// The next block has the version `want`.
    Version { want: u8 },
    /// The calls' budgets sum up to `sum` steps, more than `MAX_BLOCK_BUDGET`.
    Budget { sum: u64 },
}

/// The digest of a block's bytes: SHA-256 (FIPS 180-4) of the byte 7 and the bytes.
pub fn block_digest(bytes: &[u8]) -> Digest
    ensures { result ≡ bytes_digest bytes.now }
{
    let mut hasher = TagHasher::new(BLOCK_TAG);
    hasher.add(bytes);
    hasher.finish()
}

fn held_placement(have: Digest, digest: Digest) -> Placement
    ensures { result ≡ held_placement have digest }
{
    if have == digest {
        Placement::Known
    } else {
        Placement::Not(Misplaced::Fork { have })
    }
}

fn tx_budget(tx: &Tx) -> u32
    ensures { result ≡ tx_budget tx.now }
{
    match tx {
        Tx::Set { .. } | Tx::Deploy { .. } => 0,
        Tx::Call { budget, .. } => *budget,
    }
}

/// The budget of a block, in steps: the sum of its calls' budgets.
pub fn block_budget(block: &Block) -> u64
    requires { IsBlock block.now }
    ensures { result ≡ block_budget block.now }
{
    let txs = block.txs.as_slice();
    txs.iter().map(|tx| u64::from(tx_budget(tx))).sum()
}

/// The greatest number of blocks of a chain that is marked, or isn't.
fn most_blocks(marked: bool) -> u32
    ensures { result ≡ most_blocks marked }
{
    if marked {
        MAX_MARKED_BLOCKS
    } else {
        MAX_BLOCKS
    }
}

/// The version of the next block of a chain that is marked, or isn't.
fn wanted_version(marked: bool) -> u8
    ensures { result ≡ wanted_version marked }
{
    if marked {
        SECOND_VERSION
    } else {
        FIRST_VERSION
    }
}

fn new_placement(held: u32, rows: u64, parent: Digest, block: &Block, marked: bool) -> Placement
    requires { IsBlock block.now }
    ensures { result ≡ new_placement marked held rows parent block.now }
{
    if held == most_blocks(marked) || rows > MAX_ROWS_BEFORE_BLOCK {
        return Placement::Not(Misplaced::Full);
    }
    if block.number != held {
        return Placement::Not(Misplaced::Number { want: held });
    }
    if block.parent != parent {
        return Placement::Not(Misplaced::Parent { want: parent });
    }
    let want = wanted_version(marked);
    if block.version != want {
        return Placement::Not(Misplaced::Version { want });
    }
    let sum = block_budget(block);
    if sum > MAX_BLOCK_BUDGET {
        return Placement::Not(Misplaced::Budget { sum });
    }
    Placement::Next
}

/// The place of a block with this digest relative to a chain of `held` blocks and `rows` rows.
/// `have` is the digest of the held block with its number, `parent` that of the last block, or
/// `NO_PARENT` if there is none. In a chain that is `marked` the next block has the second version,
/// in another the first. The reasons of `Misplaced` are tested in their order.
pub fn place(
    held: u32,
    rows: u64,
    have: Option<Digest>,
    parent: Digest,
    block: &Block,
    digest: Digest,
    marked: bool,
) -> Placement
    requires held { IsSome have ↔ (block.now.number < held) }
    requires lawful { IsBlock block.now }
    ensures { result ≡ placement marked held rows have parent block.now digest }
{
    match have {
        Some(have) => held_placement(have, digest),
        None => new_placement(held, rows, parent, block, marked),
    }
}
