//! The leaves of all keys. Each names the next greater key, so one leaf shows that no key between
//! the two has a leaf.

ghost use Rattle.std.specs.{
  Prelude.{◌≡◌, ◌<◌, ◌+◌, ℕ, List, [], ◌∷◌, length, slice_get, Some, None, OnOk, OnErr, IfOk},
};
ghost use Rattle.root_laws.specs.{
  merkle_tree.Tree.{audit_path},
  merkle_tree.Climbing.{bytes_of},
  merkle_tree.declared.limits.TheConstants.{MAX_LEAVES},
  prov_entry.declared.entry.Leaf.{Leaf},
  Root.{sentinel, leaves_hash},
};
ghost use Rattle.state_tree.specs.{
  declared.states.LeafState.{LeafState},
  Leaves.{index_of, with_leaf_of, with_state, thread_leaves, leaf_keys, leaf_texts, AreApart},
  Covering.{Covers},
};

use crate::growth::add_leaf;
use crate::hashing::{hash_of, hash_stale};
use crate::order::last_up_to;
use crate::stale::StaleLeaves;
use crate::states::LeafState;
use crate::threaded::ThreadedLeaves;
use crate::whole::{whole_audit, whole_hash};
use lc_base::{Digest, DigestList, Key, Memory, Resources};
use root_laws::{Leaf, Levels};
use std::collections::BTreeMap;
use std::marker::Model;

/// The leaves: first the sentinel, then one for each key in the order in which keys were added.
/// Each names the next greater key. Hashes are made when the tree is settled; until then those of
/// leaves that were added or set, and of leaves that name a new one, are stale.
#[derive(Drop)]
pub struct Tree {
    leaves: ThreadedLeaves,
    /// The index of the leaf of each key. Only what covers a key is looked for in it.
    order: BTreeMap<Key, u32>,
    levels: Levels,
    stale: StaleLeaves,
}

// Contracts see the leaves.
impl Model for Tree {
    ghost use Rattle.std.specs.Prelude.{List};
    ghost use Rattle.root_laws.specs.prov_entry.declared.entry.Leaf.{Leaf};
    ghost use Rattle.state_tree.specs.Order.{IsTree};

    ghost Value = { List Leaf };

    ghost view = { λ tree. tree.leaves };

    ghost invariant = { λ tree. IsTree tree.leaves tree.order tree.levels tree.stale };
}

impl Tree {
    /// The sentinel alone.
    pub fn new(resources: Resources) -> Result<Tree, Memory>
        ensures { IfOk result (λ tree. tree ≡ sentinel [] ∷ []) }
    {
        let leaves = ThreadedLeaves::new(resources);
        let mut levels = Levels::new(resources.alloc)?;
        levels.push(hash_of(&leaves.leaf(0)))?;
        let mut stale = StaleLeaves::new(resources.alloc);
        stale.make_room(leaves.count())?;
        Ok(Tree {
            leaves,
            order: BTreeMap::new(resources.alloc),
            levels,
            stale,
        })
    }

    /// The sentinel alone, made with the same resources as this tree.
    pub fn new_alike(&self) -> Result<Tree, Memory>
        ensures { IfOk result (λ tree. tree ≡ sentinel [] ∷ []) }
    {
        Tree::new(self.leaves.resources())
    }

    /// The number of leaves, the sentinel among them: at most `MAX_LEAVES` of `merkle_tree`.
    pub fn count(&self) -> u32
        ensures count { result ≡ length self.now }
        ensures some { 0 < result }
    {
        self.leaves.count()
    }

    /// The index of the leaf of a key, from 1; `None` exactly if no leaf has it.
    pub fn index_of(&self, key: &Key) -> Option<u32>
        ensures { result ≡ index_of self.now key.now }
    {
        self.leaves.index_of(key)
    }

    /// The index of the leaf of this key, else of the leaf with the greatest smaller key, else 0.
    pub fn covering(&self, key: &Key) -> u32
        ensures covers { Covers self.now key.now result }
        ensures threads { self.now ≡ thread_leaves self.now }
        ensures apart { AreApart (leaf_keys self.now) }
    {
        last_up_to(&self.order, key).unwrap_or(0)
    }

    /// The leaf at an index, from 0.
    pub fn leaf(&self, index: u32) -> Leaf
        requires { index < length self.now }
        ensures { slice_get self.now index ≡ Some result }
    {
        self.leaves.leaf(index)
    }

    /// Adds a leaf for a key that has none, at the end, and returns its index. Its key is threaded
    /// between those of the others; it has no version yet. Nothing is hashed: the hash of
    /// the leaf, and that of the leaf that names its key, are stale then. Out of memory, the tree stays
    /// as it was.
    pub fn add_key(&mut self, key: Key) -> Result<u32, Memory>
        requires new { index_of self.old key ≡ None }
        requires room { length self.old < MAX_LEAVES }
        ensures index { IfOk result (λ index. index ≡ length self.old) }
        ensures added { OnOk result (self.new ≡ with_leaf_of self.old key) }
        ensures err { OnErr result (self.new ≡ self.old) }
    {
        let index = self.count();
        let cover = self.covering(&key);
        add_leaf(
            &mut self.leaves,
            &mut self.order,
            &mut self.stale,
            &key,
            cover,
        )?;
        Ok(index)
    }

    /// Sets the state of a leaf. Nothing is hashed: its hash is stale then. It takes no memory.
    pub fn set_leaf(&mut self, state: &LeafState)
        requires own { 0 < state.now.index }
        requires below { state.now.index < length self.old }
        ensures set { self.new ≡ with_state self.old state.now }
    {
        self.leaves.set_state(state);
        self.stale.mark(state.index);
    }

    /// Hashes the leaves whose hashes are stale, and each node over them once. If none is stale, it
    /// takes no memory.
    pub fn settle(&mut self) -> Result<(), Memory>
        ensures { self.new ≡ self.old }
    {
        if self.stale.is_empty() {
            return Ok(());
        }
        hash_stale(
            self.stale.allocator(),
            &self.leaves,
            &mut self.levels,
            self.stale.as_slice(),
        )?;
        self.stale.clear();
        Ok(())
    }

    /// The tree hash of the leaves (RFC 6962, section 2.1). It takes no memory. If hashes are
    /// stale, all leaves are hashed for it.
    pub fn root_hash(&self) -> Digest
        ensures { result.0 ≡ leaves_hash self.now }
    {
        if self.stale.is_empty() {
            self.levels.root()
        } else {
            whole_hash(&self.leaves)
        }
    }

    /// The audit path of a leaf (RFC 6962, section 2.1.1), from the leaf upward. If hashes are
    /// stale, all leaves are hashed for it.
    pub fn audit(&self, index: u32) -> Result<DigestList, Memory>
        requires { index < length self.now }
        ensures { IfOk result (λ path. bytes_of path ≡ audit_path index (leaf_texts self.now)) }
    {
        if self.stale.is_empty() {
            self.levels.audit(index)
        } else {
            let alloc = self.stale.allocator();
            whole_audit(alloc, &self.leaves, index)
        }
    }
}
