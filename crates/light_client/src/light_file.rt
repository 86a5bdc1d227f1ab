//! The digests and the roots of the first blocks of a chain.

ghost use Rattle.std.specs.{
  Prelude.{◌≡◌, ◌<◌, ◌≤◌, ◌*◌, length, slice_get, MatchOption},
  Option.{option_map},
};
ghost use Rattle.light_client.specs.Format.{block_root_in, block_roots_in};

use crate::block_root::BlockRoot;
use crate::limits::BLOCK_ROOT_BYTES;
use lc_base::{Bytes, Digest};
use std::marker::Model;

/// The digest of each of the first blocks of a chain, and the root at it. It keeps the bytes of the
/// file, `BLOCK_ROOT_BYTES` for each block.
#[derive(Drop)]
pub struct LightFile {
    count: u32,
    bytes: Bytes,
}

// Contracts see what is read of the bytes.
impl Model for LightFile {
    ghost use Rattle.std.specs.Prelude.{◌≡◌, ◌*◌, List, length};
    ghost use Rattle.light_client.specs.declared.block_root.BlockRoot.{BlockRoot as Of};
    ghost use Rattle.light_client.specs.Format.{block_roots_in};

    ghost Value = { List Of };

    ghost view = { λ file. block_roots_in file.count file.bytes };

    ghost invariant = { λ file. length file.bytes ≡ 64 * file.count };
}

/// What the first bytes say of a block; `None` exactly if there are too few.
fn first_block_root(bytes: &[u8]) -> Option<BlockRoot>
    ensures { MatchOption result (length bytes.now < 64) (λ block_root. (64 ≤ length bytes.now)
        × (block_root ≡ block_root_in bytes.now)) }
{
    let (digest, rest) = bytes.split_first_chunk::<32>()?;
    let (root, _) = rest.split_first_chunk::<32>()?;
    Some(BlockRoot {
        digest: Digest(*digest),
        root: Digest(*root),
    })
}

impl LightFile {
    /// The file of so many blocks with these bytes.
    pub(crate) fn new(count: u32, bytes: Bytes) -> LightFile
        requires { length bytes ≡ 64 * count }
        ensures { result ≡ block_roots_in count bytes }
    {
        LightFile { count, bytes }
    }

    /// The number of blocks.
    pub fn count(&self) -> u32
        ensures { result ≡ length self.now }
    {
        self.count
    }

    /// The digest of a block and the root at it; `None` exactly if `at` isn't below the count.
    pub fn block_root(&self, at: u32) -> Option<BlockRoot>
        ensures { result ≡ slice_get self.now at }
    {
        if at >= self.count {
            return None;
        }
        first_block_root(&self.bytes.as_bytes()[at as usize * BLOCK_ROOT_BYTES..])
    }

    /// The digest of a block; `None` exactly if `at` isn't below the count.
    pub fn digest(&self, at: u32) -> Option<Digest>
        ensures { result ≡ option_map (λ block_root. block_root.digest) (slice_get self.now at) }
    {
        match self.block_root(at) {
            Some(block_root) => Some(block_root.digest),
            None => None,
        }
    }

    /// The root at a block; `None` exactly if `at` isn't below the count.
    pub fn root(&self, at: u32) -> Option<Digest>
        ensures { result ≡ option_map (λ block_root. block_root.root) (slice_get self.now at) }
    {
        match self.block_root(at) {
            Some(block_root) => Some(block_root.root),
            None => None,
        }
    }
}
