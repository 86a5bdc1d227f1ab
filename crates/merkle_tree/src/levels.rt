//! A tree that keeps the hashes of all its nodes, so that a change of some leaves hashes only the
//! nodes over these.

ghost use Rattle.std.specs.Prelude.{◌≡◌, ◌<◌, ◌≤◌, [], ◌∷◌, ◌++◌, ℕ, List, length, map, OnOk, OnErr, IfOk};
ghost use Rattle.merkle_tree.specs.{
  Tree.{tree_hash, audit_path},
  Climbing.{bytes_of},
  Levels.{digest_of, Renews},
  declared.limits.TheConstants.{MAX_LEAVES},
};

use crate::growth::{make_room, put_through};
use crate::hash::empty_hash;
use crate::limits::MAX_HEIGHT;
use crate::reading::siblings_up;
use crate::renewing::{renew_through, take_room};
use crate::setting_all::HashAt;
use lc_base::{Digest, DigestList, Memory};
use std::alloc::Global;
use std::marker::Model;

/// The hashes of the leaves of a tree, at most `MAX_LEAVES`, with those of all nodes over them.
#[derive(Drop)]
pub struct Levels {
    levels: Vec<Vec<Digest>>,
}

// Contracts see the hashes of the leaves.
impl Model for Levels {
    ghost use Rattle.std.specs.Prelude.{List};
    ghost use Rattle.lc_base.specs.declared.digest.Digest.{Digest};
    ghost use Rattle.merkle_tree.specs.Levels.{leaf_level, hashes_in, AreLevels};

    ghost Value = { List Digest };

    ghost view = { λ tree. leaf_level (hashes_in tree.levels.items) };

    ghost invariant = { λ tree. AreLevels (hashes_in tree.levels.items) };
}

impl Levels {
    /// The tree with no leaf.
    pub fn new(alloc: Global) -> Result<Levels, Memory>
        ensures { IfOk result (λ tree. tree ≡ []) }
    {
        let mut levels = Vec::with_capacity(alloc, MAX_HEIGHT as usize + 1)?;
        for _ in 0..=MAX_HEIGHT {
            levels.push(Vec::new(alloc))?;
        }
        Ok(Levels { levels })
    }

    /// The number of leaves.
    pub fn len(&self) -> u32
        ensures { result ≡ length self.now }
    {
        self.levels[0].len() as u32
    }

    /// Adds a leaf at the end, by its hash. If memory runs out, the tree stays as it was.
    pub fn push(&mut self, hash: Digest) -> Result<(), Memory>
        requires { length self.old < MAX_LEAVES }
        ensures ok { OnOk result (self.new ≡ self.old ++ hash ∷ []) }
        ensures err { OnErr result (self.new ≡ self.old) }
    {
        let index = self.levels[0].len();
        make_room(self.levels.as_mut_slice())?;
        put_through(self.levels.as_mut_slice(), index, hash);
        Ok(())
    }

    /// Adds leaves until there are `count`, sets the leaf hashes that are given, and hashes the
    /// nodes over these again. Each new leaf must be among them. If the indexes ascend, each node
    /// is hashed once. If memory runs out, the tree stays as it was.
    pub fn renew(&mut self, count: u32, hashes: Vec<HashAt>) -> Result<(), Memory>
        requires few { count ≤ MAX_LEAVES }
        requires renews { (leaves : List Digest) × (length leaves ≡ count) × Renews self.old leaves hashes.items }
        ensures ok { (leaves : List Digest) → length leaves ≡ count → Renews self.old leaves hashes.items → OnOk result (self.new ≡ leaves) }
        ensures err { OnErr result (self.new ≡ self.old) }
    {
        take_room(self.levels.as_mut_slice(), count as usize)?;
        renew_through(self.levels.as_mut_slice(), count as usize, hashes);
        Ok(())
    }

    /// The tree hash (RFC 6962, section 2.1). It takes no memory.
    pub fn root(&self) -> Digest
        ensures { (texts : List (List ℕ)) → map digest_of texts ≡ self.now → result.0 ≡ tree_hash texts }
    {
        match self.levels[MAX_HEIGHT as usize].first() {
            Some(hash) => *hash,
            None => empty_hash(),
        }
    }

    /// The audit path of a leaf (RFC 6962, section 2.1.1), from the leaf upward.
    pub fn audit(&self, index: u32) -> Result<DigestList, Memory>
        requires { index < length self.now }
        ensures { IfOk result (λ path. (texts : List (List ℕ)) → map digest_of texts ≡ self.now → bytes_of path ≡ audit_path index texts) }
    {
        let alloc = *self.levels.allocator();
        let path = siblings_up(alloc, self.levels.as_slice(), index as usize)?;
        Ok(DigestList::from_vec(path))
    }
}
