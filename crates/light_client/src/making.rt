//! Makes the bytes of a light file from the digests and the roots that a lineage keeps.

ghost use Rattle.std.specs.{
  Prelude.{◌≡◌, ◌++◌, ◌-◌, ◌<◌, ◌≤◌, length, take, drop, IfOk, OnOk},
  List.{flat_map},
};
ghost use Rattle.light_client.specs.{
  Format.{block_root_bytes, light_bytes},
  Making.{block_root_of, block_roots_of, piece_bytes},
};

use crate::block_root::BlockRoot;
use crate::limits::{BLOCK_ROOT_BYTES, HEAD_BYTES};
use crate::piece_limits::BLOCKS_PER_PIECE;
use crate::writing::{head, put_block_root};
use lc_base::{Bytes, Memory};
use merkle_dag::Lineage;
use std::alloc::Global;

/// The number of blocks of a lineage.
pub fn block_count(lineage: &Lineage) -> u32
    ensures { result ≡ length lineage.now.digests }
{
    // By this call contracts know that the blocks are few enough for the type.
    let _rows = lineage.row_count();
    match lineage.head() {
        Some(last) => last + 1,
        None => 0,
    }
}

/// The digest of a block of a lineage, and the root at it.
fn block_root(lineage: &Lineage, at: u32) -> BlockRoot
    requires { at < length lineage.now.digests }
    ensures { result ≡ block_root_of lineage.now.rows lineage.now.digests at }
{
    match (lineage.digest(at), lineage.root(at)) {
        (Some(digest), Some(root)) => BlockRoot { digest, root },
        _ => unreachable!(),
    }
}

/// Appends the bytes of the blocks from `from` on that come before `until`.
fn put_blocks(out: &mut Vec<u8>, lineage: &Lineage, from: u32, until: u32) -> Result<(), Memory>
    requires { until ≤ length lineage.now.digests }
    ensures { OnOk result (out.new.items ≡ out.old.items ++ flat_map block_root_bytes
        (take (until - from) (drop from (block_roots_of lineage.now.rows lineage.now.digests)))) }
{
    for at in from..until {
        put_block_root(out, &block_root(lineage, at))?;
    }
    Ok(())
}

/// The bytes of up to `BLOCKS_PER_PIECE` blocks of a light file, from the block `from` on; no bytes
/// if `from` isn't below the number of blocks.
pub fn piece(alloc: Global, lineage: &Lineage, from: u32) -> Result<Bytes, Memory>
    ensures { IfOk result (λ bytes. bytes ≡ piece_bytes lineage.now.rows lineage.now.digests from) }
{
    let until = from
        .saturating_add(BLOCKS_PER_PIECE)
        .min(block_count(lineage));
    let room = until.saturating_sub(from) as usize * BLOCK_ROOT_BYTES;
    let mut bytes = Vec::with_capacity(alloc, room)?;
    put_blocks(&mut bytes, lineage, from, until)?;
    Ok(Bytes::from_vec(bytes))
}

/// The bytes of the light file of all blocks of a lineage.
pub fn make(alloc: Global, lineage: &Lineage) -> Result<Bytes, Memory>
    ensures { IfOk result (λ bytes. bytes
        ≡ light_bytes (block_roots_of lineage.now.rows lineage.now.digests)) }
{
    let count = block_count(lineage);
    let mut bytes = Vec::with_capacity(alloc, HEAD_BYTES + count as usize * BLOCK_ROOT_BYTES)?;
    bytes.extend_from_slice(&head(count))?;
    put_blocks(&mut bytes, lineage, 0, count)?;
    Ok(Bytes::from_vec(bytes))
}
