//! Writing the parts of a light file.

ghost use Rattle.std.specs.Prelude.{◌≡◌, ◌++◌, OnOk};
ghost use Rattle.light_client.specs.Format.{head_bytes, block_root_bytes};

use crate::block_root::BlockRoot;
use crate::limits::{HEAD_BYTES, MAGIC};
use byte_fields::put_digest;
use lc_base::Memory;

/// The bytes before those of the blocks, of a file of this many blocks.
pub fn head(count: u32) -> [u8; HEAD_BYTES]
    ensures { result ≡ head_bytes count }
{
    let [magic_0, magic_1, magic_2, magic_3] = MAGIC;
    let [count_0, count_1, count_2, count_3] = count.to_be_bytes();
    [
        magic_0, magic_1, magic_2, magic_3, count_0, count_1, count_2, count_3,
    ]
}

/// Appends the bytes of a block: its digest, then the root at it.
pub fn put_block_root(out: &mut Vec<u8>, block_root: &BlockRoot) -> Result<(), Memory>
    ensures { OnOk result (out.new.items ≡ out.old.items ++ block_root_bytes block_root.now) }
{
    put_digest(out, &block_root.digest)?;
    put_digest(out, &block_root.root)?;
    Ok(())
}
