//! The leaves as they are kept: each key once, in the order in which keys were added, and with it
//! the index of the leaf whose key is the next greater one.

ghost use Rattle.std.specs.Prelude.{
  ◌≡◌,
  ◌==◌,
  ◌<◌,
  ◌≤◌,
  ◌+◌,
  ◌∷◌,
  ◌++◌,
  [],
  ℕ,
  List,
  length,
  slice_get,
  slice_set,
  Some,
  None,
  OnOk,
  OnErr,
};
ghost use Rattle.std.specs.Cmp.Lexicographic.{pointwise};
ghost use Rattle.indexmap.specs.IndexMap.{keys, get};
ghost use Rattle.lc_base.specs.KeyBytes.{IsKey};
ghost use Rattle.root_laws.specs.{
  merkle_tree.declared.limits.TheConstants.{MAX_LEAVES},
  prov_entry.declared.entry.Leaf.{Leaf},
  Root.{sentinel},
};
ghost use Rattle.state_tree.specs.{
  declared.states.LeafState.{LeafState},
  Leaves.{index_of, with_leaf_after, with_state},
  Entries.{key_at, fresh_entry, entry_with_state, next_at, leaf_of_entry, leaves_of, AreThreaded},
};

use crate::states::LeafState;
use indexmap::IndexMap;
use lc_base::{Digest, Key, Memory, Resources};
use root_laws::{Leaf, no_uses};
use std::hash::RandomState;
use std::marker::Model;

/// What is kept of a leaf beside its key.
#[derive(Clone, Copy)]
pub(crate) struct LeafEntry {
    /// The index of the leaf with the next greater key; 0 if no key is greater.
    next: u32,
    newest_block: u32,
    newest: Digest,
    open_count: u64,
    open_digest: Digest,
}

/// The entries of the leaves but for the sentinel, whose index is 0. The leaf at an index above 0
/// is that of the entry before it.
type LeafEntries = IndexMap<Key, LeafEntry, RandomState>;

/// The leaves of a tree: the sentinel, then one for each key in the order in which keys were added.
#[derive(Drop)]
pub(crate) struct ThreadedLeaves {
    /// The index of the leaf with the least key; 0 if no key has a leaf.
    first: u32,
    entries: LeafEntries,
}

impl Model for ThreadedLeaves {
    ghost use Rattle.std.specs.Prelude.{List};
    ghost use Rattle.root_laws.specs.prov_entry.declared.entry.Leaf.{Leaf};
    ghost use Rattle.state_tree.specs.Entries.{leaves_of, AreThreaded};

    ghost Value = { List Leaf };

    ghost view = { λ leaves. leaves_of leaves.first leaves.entries.entries };

    ghost invariant = { λ leaves. AreThreaded leaves.first leaves.entries.entries };
}

/// The key of the leaf at an index; `None` for the sentinel.
fn key_at(entries: &LeafEntries, index: u32) -> Option<Key>
    ensures { result ≡ key_at (keys entries.now) index }
{
    if index == 0 {
        return None;
    }
    match entries.get_index(index as usize - 1) {
        None => None,
        Some((key, _)) => Some(*key),
    }
}

/// The index of the leaf that follows another in the order of keys; 0 if none does.
fn next_at(first: u32, entries: &LeafEntries, index: u32) -> u32
    requires { index ≤ length entries.now.entries }
    ensures { result ≡ next_at first entries.now.entries index }
{
    if index == 0 {
        first
    } else {
        entries[index as usize - 1].next
    }
}

/// The sentinel, with this next key.
fn sentinel(next: Option<Key>) -> Leaf
    ensures { result ≡ record (sentinel []) { next = next } }
{
    Leaf {
        key: None,
        next,
        newest_block: 0,
        newest: Digest([0; 32]),
        open_count: 0,
        open_digest: no_uses(),
    }
}

/// The leaf of an entry, with this next key.
fn leaf_of(key: &Key, next: Option<Key>, entry: &LeafEntry) -> Leaf
    ensures { result ≡ record (leaf_of_entry [] (key.now, entry.now)) { next = next } }
{
    Leaf {
        key: Some(*key),
        next,
        newest_block: entry.newest_block,
        newest: entry.newest,
        open_count: entry.open_count,
        open_digest: entry.open_digest,
    }
}

/// The leaf at an index.
fn leaf_at(first: u32, entries: &LeafEntries, index: u32) -> Leaf
    requires { index ≤ length entries.now.entries }
    ensures { slice_get (leaves_of first entries.now.entries) index ≡ Some result }
{
    if index == 0 {
        return sentinel(key_at(entries, first));
    }
    match entries.get_index(index as usize - 1) {
        None => unreachable!(),
        Some((key, entry)) => leaf_of(key, key_at(entries, entry.next), entry),
    }
}

/// The entry of a key that has no version yet, with this next leaf.
fn fresh_entry(next: u32) -> LeafEntry
    ensures { result ≡ fresh_entry next }
{
    LeafEntry {
        next,
        newest_block: 0,
        newest: Digest([0; 32]),
        open_count: 0,
        open_digest: no_uses(),
    }
}

/// Adds the entry of a new key after the others. Out of memory, nothing changes.
fn add_entry(entries: &mut LeafEntries, key: Key, next: u32) -> Result<(), Memory>
    requires { get (pointwise ◌==◌) entries.old key ≡ None }
    ensures ok { OnOk result (entries.new.entries ≡ entries.old.entries ++ (key, fresh_entry next) ∷ []) }
    ensures err { OnErr result (entries.new.entries ≡ entries.old.entries) }
{
    entries.insert(key, fresh_entry(next))?;
    Ok(())
}

/// Threads the leaf at `next` after the leaf at an index.
fn set_next(first: &mut u32, entries: &mut LeafEntries, index: u32, next: u32)
    requires within { index ≤ length entries.old.entries }
    requires next_within { next ≤ length entries.old.entries }
    requires threaded { AreThreaded first.old entries.old.entries }
    ensures threaded { AreThreaded first.new entries.new.entries }
    ensures set { (leaf : Leaf) → slice_get (leaves_of first.old entries.old.entries) index ≡ Some leaf
        → leaves_of first.new entries.new.entries ≡ slice_set (leaves_of first.old entries.old.entries) index (record leaf { next = key_at (keys entries.old) next }) }
{
    if index == 0 {
        *first = next;
    } else {
        let place = index as usize - 1;
        let entry = entries[place];
        entries[place] = LeafEntry { next, ..entry };
    }
}

/// The entry of a leaf that says this of the versions of its key.
fn entry_with_state(entry: &LeafEntry, state: &LeafState) -> LeafEntry
    ensures { result ≡ entry_with_state entry.now state.now }
{
    LeafEntry {
        next: entry.next,
        newest_block: state.newest_block,
        newest: state.newest,
        open_count: state.open_count,
        open_digest: state.open_digest,
    }
}

impl ThreadedLeaves {
    /// The sentinel alone. It takes no memory.
    pub(crate) fn new(resources: Resources) -> ThreadedLeaves
        ensures { result ≡ sentinel [] ∷ [] }
    {
        ThreadedLeaves {
            first: 0,
            entries: IndexMap::with_hasher(resources.alloc, resources.hasher),
        }
    }

    /// What these leaves are made with.
    pub(crate) fn resources(&self) -> Resources {
        Resources {
            alloc: *self.entries.allocator(),
            hasher: *self.entries.hasher(),
        }
    }

    /// The number of leaves, at most `MAX_LEAVES`.
    pub(crate) fn count(&self) -> u32
        ensures count { result ≡ length self.now }
        ensures some { 0 < result }
        ensures few { result ≤ MAX_LEAVES }
    {
        self.entries.len() as u32 + 1
    }

    /// The index of the leaf of a key, from 1; `None` if no leaf has it.
    pub(crate) fn index_of(&self, key: &Key) -> Option<u32>
        ensures { result ≡ index_of self.now key.now }
    {
        match self.entries.get_index_of(key) {
            None => None,
            Some(place) => Some(place as u32 + 1),
        }
    }

    /// The leaf at an index, from 0.
    pub(crate) fn leaf(&self, index: u32) -> Leaf
        requires { index < length self.now }
        ensures { slice_get self.now index ≡ Some result }
    {
        leaf_at(self.first, &self.entries, index)
    }

    /// Adds the leaf of a new key at the end, threaded after the leaf at `cover`. It has no version
    /// yet. Out of memory, nothing changes.
    pub(crate) fn push(&mut self, key: Key, cover: u32) -> Result<(), Memory>
        requires new { index_of self.old key ≡ None }
        requires room { length self.old < MAX_LEAVES }
        requires cover { cover < length self.old }
        ensures ok { OnOk result ((before : Leaf) → slice_get self.old cover ≡ Some before
            → self.new ≡ with_leaf_after self.old key cover before) }
        ensures err { OnErr result (self.new ≡ self.old) }
    {
        let index = self.count();
        let next = next_at(self.first, &self.entries, cover);
        add_entry(&mut self.entries, key, next)?;
        set_next(&mut self.first, &mut self.entries, cover, index);
        Ok(())
    }

    /// Sets what a leaf says of the versions of its key.
    pub(crate) fn set_state(&mut self, state: &LeafState)
        requires own { 0 < state.now.index }
        requires below { state.now.index < length self.old }
        ensures { self.new ≡ with_state self.old state.now }
    {
        let place = state.index as usize - 1;
        self.entries[place] = entry_with_state(&self.entries[place], state);
    }
}
