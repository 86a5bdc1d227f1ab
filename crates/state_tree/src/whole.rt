//! The tree hash and an audit path by the leaves alone, for a tree with hashes that are stale.

ghost use Rattle.std.specs.Prelude.{◌≡◌, ◌<◌, ◌≤◌, ◌+◌, ◌-◌, ◌^◌, List, length, take, drop, IfOk};
ghost use Rattle.root_laws.specs.{
  merkle_tree.Tree.{hash_to, audit_path},
  merkle_tree.Climbing.{bytes_of},
  merkle_tree.declared.limits.TheConstants.{MAX_HEIGHT, MAX_LEAVES},
  prov_entry.declared.entry.Leaf.{Leaf},
  Root.{leaves_hash},
};
ghost use Rattle.state_tree.specs.Leaves.{leaf_hashes, leaf_texts};

use crate::hashing::hash_of;
use crate::leaf_list::LeafList;
use crate::threaded::ThreadedLeaves;
use lc_base::{Digest, DigestList, Memory};
use root_laws::{Levels, MAX_HEIGHT, empty_hash, node_hash};
use std::alloc::Global;

fn levels_of(alloc: Global, leaves: &ThreadedLeaves) -> Result<Levels, Memory>
    requires { length leaves.now ≤ MAX_LEAVES }
    ensures { IfOk result (λ levels. levels ≡ leaf_hashes leaves.now) }
{
    let mut levels = Levels::new(alloc)?;
    for index in 0..leaves.count() {
        levels.push(hash_of(&leaves.leaf(index)))?;
    }
    Ok(levels)
}

/// The audit path of a leaf among some leaves, from the leaf upward.
pub(crate) fn whole_audit(
    alloc: Global,
    leaves: &ThreadedLeaves,
    index: u32,
) -> Result<DigestList, Memory>
    requires few { length leaves.now ≤ MAX_LEAVES }
    requires below { index < length leaves.now }
    ensures { IfOk result (λ path. bytes_of path ≡ audit_path index (leaf_texts leaves.now)) }
{
    let levels = levels_of(alloc, leaves)?;
    levels.audit(index)
}

/// The hash of at most one leaf.
fn lowest_hash<L: LeafList>(leaves: &L, start: u32, count: u32) -> Digest
    requires few { count ≤ 1 }
    requires within { (list : List Leaf) × L.are leaves.now list × (start + count ≤ length list) }
    ensures { (list : List Leaf) → L.are leaves.now list → start + count ≤ length list
        → result.0 ≡ hash_to 0 (leaf_texts (take count (drop start list))) }
{
    if count == 0 {
        empty_hash()
    } else {
        hash_of(&leaves.leaf(start))
    }
}

/// Half of 2 to the power `height`.
fn half_of(height: u32) -> u32
    requires positive { 0 < height }
    requires low { height ≤ MAX_HEIGHT }
    ensures { result ≡ 2 ^ (height - 1) }
{
    1u32 << (height - 1)
}

/// The hash of a part of the leaves: `count` of them, from the index `start` on.
fn hash_part<L: LeafList>(height: u32, leaves: &L, start: u32, count: u32) -> Digest
    requires few { count ≤ 2 ^ height }
    requires low { height ≤ MAX_HEIGHT }
    requires within { (list : List Leaf) × L.are leaves.now list × (start + count ≤ length list)
        × (length list ≤ MAX_LEAVES) }
    ensures { (list : List Leaf) → L.are leaves.now list → start + count ≤ length list
        → result.0 ≡ hash_to height (leaf_texts (take count (drop start list))) }
{
    if height == 0 {
        return lowest_hash(leaves, start, count);
    }
    let half = half_of(height);
    if half < count {
        let left = hash_part(height - 1, leaves, start, half);
        let right = hash_part(height - 1, leaves, start + half, count - half);
        node_hash(&left, &right)
    } else {
        hash_part(height - 1, leaves, start, count)
    }
}

/// The tree hash of leaves (RFC 6962, section 2.1), by recursion. It looks up each leaf once, and
/// takes no memory.
pub fn tree_hash<L: LeafList>(leaves: &L) -> Digest
    requires { (list : List Leaf) × L.are leaves.now list }
    ensures { (list : List Leaf) → L.are leaves.now list → result.0 ≡ leaves_hash list }
{
    hash_part(MAX_HEIGHT, leaves, 0, leaves.count())
}

/// The tree hash of the leaves of a tree, none of whose hashes is used.
pub(crate) fn whole_hash(leaves: &ThreadedLeaves) -> Digest
    ensures { result.0 ≡ leaves_hash leaves.now }
{
    tree_hash(leaves)
}
