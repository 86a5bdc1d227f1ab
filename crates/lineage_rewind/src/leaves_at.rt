//! The leaves as they were at an older block, one at a time, and their tree hash. No index of the
//! rows up to the block is made, so it takes no memory; each leaf costs a walk over all leaves.

ghost use Rattle.std.specs.Prelude.{◌≡◌, ◌<◌, ℕ, List, length, slice_get, Some};
ghost use Rattle.lc_base.specs.{declared.row.Row.{Row}, History.{up_to}};
ghost use Rattle.lineage_index.specs.{
  prov_entry.declared.entry.Leaf.{Leaf},
  root_laws.Root.{leaves, leaves_hash},
  Index.{IsIndexOf},
};
ghost use Rattle.lineage_rewind.specs.LeavesAt.{AreLeavesAt};

use crate::keys_at::{count_leaves, key_of_leaf, next_key, row_at};
use crate::uses_at::told_uses;
use lc_base::Digest;
use lineage_index::{EntryId, LeafList, LineageIndex, tree_hash};
use prov_entry::{Leaf, no_uses};

/// The sentinel at a block with this number of leaves.
fn sentinel_at(index: &LineageIndex, count: u32) -> Leaf
    requires { (at : ℕ) × (list : List Leaf) × AreLeavesAt index.now at count list }
    ensures { (at : ℕ) (list : List Leaf) → AreLeavesAt index.now at count list
        → slice_get list 0 ≡ Some result }
{
    Leaf {
        key: None,
        next: next_key(index, count, &[]),
        newest_block: 0,
        newest: Digest([0; 32]),
        open_count: 0,
        open_digest: no_uses(),
    }
}

/// The leaf of a key at the block `at`, which has this number of leaves.
fn key_leaf_at(index: &LineageIndex, at: u32, count: u32, leaf: u32) -> Leaf
    requires { (list : List Leaf) × AreLeavesAt index.now at count list × (0 < leaf)
        × (leaf < length list) }
    ensures { (list : List Leaf) → AreLeavesAt index.now at count list → 0 < leaf
        → leaf < length list → slice_get list leaf ≡ Some result }
{
    let key = key_of_leaf(index, leaf);
    match row_at(index, &key, at) {
        None => unreachable!(),
        Some(row) => {
            let facts = index.store().facts(EntryId(row));
            let told = told_uses(index, row, at);
            Leaf {
                key: Some(key),
                next: next_key(index, count, key.as_bytes()),
                newest_block: facts.block,
                newest: facts.digest,
                open_count: told.count,
                open_digest: told.digest,
            }
        }
    }
}

/// The leaf at an index at the block `at`, which has this number of leaves.
fn leaf_at(index: &LineageIndex, at: u32, count: u32, leaf: u32) -> Leaf
    requires { (list : List Leaf) × AreLeavesAt index.now at count list × (leaf < length list) }
    ensures { (list : List Leaf) → AreLeavesAt index.now at count list → leaf < length list
        → slice_get list leaf ≡ Some result }
{
    if leaf == 0 {
        sentinel_at(index, count)
    } else {
        key_leaf_at(index, at, count, leaf)
    }
}

/// The leaves as they were at a block, of which none is kept.
#[derive(Drop)]
struct LeavesAt<'i> {
    /// The index over all rows.
    index: &'i LineageIndex,
    /// The block.
    at: u32,
    /// The number of the leaves.
    count: u32,
}

impl<'i> LeafList for LeavesAt<'i> {
    ghost use Rattle.lineage_rewind.specs.LeavesAt.{AreLeavesAt};

    ghost are = { λ kept list. AreLeavesAt kept.index.now kept.at kept.count list };

    fn count(&self) -> u32 {
        self.count
    }

    fn leaf(&self, index: u32) -> Leaf {
        leaf_at(self.index, self.at, self.count, index)
    }
}

/// The number of the leaves as they were at the block `at`, and their tree hash (RFC 6962, section
/// 2.1), by the index over all rows. It takes no memory, and time as the square of the number of
/// keys.
pub fn tree_hash_at(index: &LineageIndex, at: u32) -> (u32, Digest)
    requires { (rows : List Row) × (n : ℕ) × IsIndexOf rows n index.now }
    ensures count { (rows : List Row) (n : ℕ) → IsIndexOf rows n index.now
        → result.0 ≡ length (leaves (up_to rows at)) }
    ensures hash { (rows : List Row) (n : ℕ) → IsIndexOf rows n index.now
        → result.1.0 ≡ leaves_hash (leaves (up_to rows at)) }
{
    let count = count_leaves(index, at);
    let leaves = LeavesAt { index, at, count };
    (count, tree_hash(&leaves))
}
