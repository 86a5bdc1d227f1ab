//! The tree hash as it is defined, by recursion. It takes no memory.

ghost use Rattle.std.specs.Prelude.{◌≡◌, ◌<◌, ◌≤◌, ◌^◌, ◌-◌, ℕ, List, map, length};
ghost use Rattle.sha2.specs.Sha256.{sha256};
ghost use Rattle.merkle_tree.specs.{
  Tree.{hash_to, tree_hash, leaf_text},
  declared.limits.TheConstants.{MAX_HEIGHT},
};

use crate::hash::{empty_hash, leaf_hash, node_hash};
use crate::limits::MAX_HEIGHT;
use lc_base::{Bytes, Digest};

/// A value that may be a leaf of a tree: it has a text, and the hash of that text.
pub trait TreeLeaf {
    /// The text of the leaf.
    ghost text: { Self → List ℕ };

    /// The hash of the leaf. It takes no memory.
    fn hash(&self) -> Digest
        ensures { result.0 ≡ sha256 (text self.now) };
}

/// A leaf that is given by its bytes (RFC 6962, section 2.1).
impl TreeLeaf for Bytes {
    ghost text = { leaf_text };

    fn hash(&self) -> Digest {
        leaf_hash(self.as_bytes())
    }
}

/// 2 to the power `height - 1`: the number of leaves on the left of a tree that has more of them
/// than that, and at most twice as many.
pub fn half_of(height: u32) -> usize
    requires positive { 0 < height }
    requires low { height ≤ MAX_HEIGHT }
    ensures { result ≡ 2 ^ (height - 1) }
{
    1usize << (height - 1)
}

fn lowest_hash<L: TreeLeaf>(leaves: &[L]) -> Digest
    requires { length leaves.now ≤ 1 }
    ensures { result.0 ≡ hash_to 0 (map L.text leaves.now) }
{
    match leaves {
        [] => empty_hash(),
        [leaf, ..] => leaf.hash(),
    }
}

#[tactic(auto, using(crate::proofs::Steps::plain))]
fn hash_to<L: TreeLeaf>(height: u32, leaves: &[L]) -> Digest
    requires few { length leaves.now ≤ 2 ^ height }
    requires low { height ≤ MAX_HEIGHT }
    ensures { result.0 ≡ hash_to height (map L.text leaves.now) }
{
    if height == 0 {
        return lowest_hash(leaves);
    }
    let half = half_of(height);
    if half < leaves.len() {
        let (first, rest) = leaves.split_at(half);
        let left = hash_to(height - 1, first);
        let right = hash_to(height - 1, rest);
        node_hash(&left, &right)
    } else {
        hash_to(height - 1, leaves)
    }
}

/// The hash of a tree (RFC 6962, section 2.1).
pub fn tree_hash<L: TreeLeaf>(leaves: &[L]) -> Digest
    requires { length leaves.now ≤ 2 ^ MAX_HEIGHT }
    ensures { result.0 ≡ tree_hash (map L.text leaves.now) }
{
    hash_to(MAX_HEIGHT, leaves)
}
