//! A table in which each look-up compares few names, whichever names there are.

ghost use Rattle.std.specs.{
  Prelude.{◌≡◌, ◌==◌, ◌<◌, [], ◌∷◌, ◌++◌, length, take, position, is_some, IfSome, OnOk, OnErr},
  Option.{option_copied},
  List.{list_any},
  Map.{keys_of, lookup, set_value},
  Cmp.Lexicographic.{pointwise},
};

use crate::code::code_of;
use crate::indexes::{forget_indexes, index_among, note_index};
use lc_base::{Memory, Name};
use std::alloc::Global;
use std::collections::BTreeMap;
use std::marker::Model;

/// Up to this many names are compared one by one; among more, the name is looked up in the tree.
const FEW: usize = 4;

/// Names and what they stand for, oldest first.
///
/// A name may have several entries; it then stands for what was added first. Next to the entries
/// there is a tree with the index of each name, ordered by the numbers of the names: a look-up
/// makes as many comparisons whichever names there are.
#[derive(Drop)]
pub struct NameTable<T> {
    entries: Vec<(Name, T)>,
    indexes: BTreeMap<u128, usize>,
}

impl<T> Model for NameTable<T> {
    ghost use Rattle.std.specs.Prelude.{ℕ, List};
    ghost use Rattle.contract_check.specs.Indexes.{AreNoted};

    ghost Value = { List (List ℕ × T) };

    ghost view = { λ table. table.entries.items };

    ghost invariant = { λ table. AreNoted table.entries.items table.indexes };
}

impl<T> NameTable<T> {
    /// An empty table. It takes no memory.
    pub fn new(alloc: Global) -> Self
        ensures { result ≡ [] }
    {
        NameTable {
            entries: Vec::new(alloc),
            indexes: BTreeMap::new(alloc),
        }
    }

    /// The number of entries.
    pub fn len(&self) -> usize
        ensures { result ≡ length self.now }
    {
        self.entries.len()
    }

    /// The index of the first entry of a name, or `None` if it has no entry.
    #[tactic(auto, using(crate::proofs::FirstPlaces::found_where_placed))]
    pub fn index_of(&self, name: &Name) -> Option<usize>
        ensures index { result ≡ position (pointwise ◌==◌ name.now) (keys_of self.now) }
        ensures found { is_some result ≡ is_some (lookup (pointwise ◌==◌ name.now) self.now) }
        ensures within { IfSome result (λ index. index < length self.now) }
    {
        if self.entries.len() > FEW {
            self.indexes.get(&code_of(name)).copied()
        } else {
            index_among(self.entries.as_slice(), name)
        }
    }

    /// Whether a name has an entry.
    #[tactic(auto, using(crate::proofs::FirstPlaces::known))]
    pub fn contains(&self, name: &Name) -> bool
        ensures { result ≡ list_any (pointwise ◌==◌ name.now) (keys_of self.now) }
    {
        self.index_of(name).is_some()
    }

    /// What a name stands for, or `None` if it has no entry.
    pub fn get(&self, name: &Name) -> Option<&T>
        ensures { option_copied result ≡ lookup (pointwise ◌==◌ name.now) self.now }
    {
        match self.index_of(name) {
            None => None,
            Some(index) => Some(&self.entries[index].1),
        }
    }
}

impl<T: Drop> NameTable<T> {
    /// Changes what a name stands for. A name without an entry changes nothing.
    pub fn set(&mut self, name: &Name, value: T)
        ensures { self.new ≡ set_value (pointwise ◌==◌ name.now) self.old value }
    {
        if let Some(index) = self.index_of(name) {
            self.entries[index].1 = value;
        }
    }

    /// Adds an entry after the others. If memory runs out, nothing changes.
    pub fn push(&mut self, name: &Name, value: T) -> Result<(), Memory>
        ensures ok { OnOk result (self.new ≡ self.old ++ (name.now, value) ∷ []) }
        ensures err { OnErr result (self.new ≡ self.old) }
    {
        let index = self.entries.len();
        self.entries.push((*name, value))?;
        match note_index(&mut self.indexes, name, index) {
            Ok(()) => Ok(()),
            Err(Memory) => {
                self.entries.truncate(index);
                Err(Memory)
            }
        }
    }

    /// Removes all but the `count` oldest entries. Most blocks add none, so that case is tested
    /// first.
    pub fn keep(&mut self, count: usize)
        ensures { self.new ≡ take count self.old }
    {
        if self.entries.len() > count {
            forget_indexes(&mut self.indexes, self.entries.as_slice(), count);
            self.entries.truncate(count);
        }
    }
}
