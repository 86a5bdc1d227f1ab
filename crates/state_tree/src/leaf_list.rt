//! Leaves that are looked up one by one, wherever they are kept.

ghost use Rattle.std.specs.Prelude.{◌≡◌, ◌<◌, ◌≤◌, List, length, slice_get, Some};
ghost use Rattle.root_laws.specs.{
  merkle_tree.declared.limits.TheConstants.{MAX_LEAVES},
  prov_entry.declared.entry.Leaf.{Leaf},
};

use crate::threaded::ThreadedLeaves;
use root_laws::Leaf;

/// Leaves in the order of a tree. No call takes memory.
pub trait LeafList {
    /// Whether these are the leaves, in order.
    ghost are: { Self → List Leaf → Type 0 };

    /// The number of the leaves, at most `MAX_LEAVES` of `merkle_tree`.
    fn count(&self) -> u32
        requires { (leaves : List Leaf) × are self.now leaves }
        ensures count { (leaves : List Leaf) → are self.now leaves → result ≡ length leaves }
        ensures few { result ≤ MAX_LEAVES };

    /// The leaf at an index, from 0.
    fn leaf(&self, index: u32) -> Leaf
        requires { (leaves : List Leaf) × are self.now leaves × (index < length leaves) }
        ensures { (leaves : List Leaf) → are self.now leaves
            → slice_get leaves index ≡ Some result };
}

impl LeafList for ThreadedLeaves {
    ghost use Rattle.std.specs.Prelude.{◌≡◌};

    ghost are = { λ kept leaves. kept ≡ leaves };

    fn count(&self) -> u32 {
        ThreadedLeaves::count(self)
    }

    fn leaf(&self, index: u32) -> Leaf {
        ThreadedLeaves::leaf(self, index)
    }
}
