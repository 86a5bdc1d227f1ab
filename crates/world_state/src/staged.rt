//! What the block at work has written: the versions in order, and the set of their keys. Both
//! change, or neither does.

ghost use Rattle.std.specs.{
  Prelude.{◌≡◌, ◌==◌, ◌≤◌, ◌||◌, ℕ, List, [], ◌++◌, length, map, OnOk, OnErr},
  List.{list_any},
  Cmp.Lexicographic.{pointwise},
};
ghost use Rattle.indexmap.specs.IndexSet.{contains, spare};
ghost use Rattle.lc_base.specs.declared.row.Row.{Row};
ghost use Rattle.world_state.specs.Rows.{entry_of, is_staged};

use crate::held::{Held, entries_of};
use indexmap::IndexSet;
use lc_base::{Key, Memory, Resources, Row};
use std::hash::RandomState;
use std::marker::Model;

/// Versions in the order in which they were written, and the set of their keys.
#[derive(Drop)]
pub(crate) struct Staged {
    entries: Vec<(Key, Held)>,
    written: IndexSet<Key, RandomState>,
}

impl Model for Staged {
    ghost use Rattle.std.specs.Prelude.{ℕ, List};
    ghost use Rattle.world_state.specs.declared.held.Held.{Held};
    ghost use Rattle.world_state.specs.Rows.{AreKeysOf};

    ghost Value = { List (List ℕ × Held) };

    ghost view = { λ staged. staged.entries.items };

    ghost invariant = { λ staged. AreKeysOf staged.written.keys staged.entries.items };
}

/// Adds the keys of the rows to a set that has room for them.
fn add_keys(written: &mut IndexSet<Key, RandomState>, rows: &[Row])
    requires { length rows.now ≤ spare written.old }
    ensures { (key : List ℕ) → contains (pointwise ◌==◌) written.new key ≡ (contains (pointwise ◌==◌) written.old key || list_any (λ (row : Row). pointwise ◌==◌ row.key key) rows.now) }
{
    for row in rows {
        match written.insert(row.key) {
            Ok(_) => {}
            Err(_) => unreachable!(),
        }
    }
}

impl Staged {
    /// Nothing. It takes no memory.
    pub(crate) fn new(resources: Resources) -> Staged
        ensures { result ≡ [] }
    {
        Staged {
            entries: Vec::new(resources.alloc),
            written: IndexSet::with_hasher(resources.alloc, resources.hasher),
        }
    }

    /// Whether a version of the key is staged.
    pub(crate) fn has(&self, key: &Key) -> bool
        ensures { result ≡ is_staged self.now key.now }
    {
        self.written.contains(key)
    }

    /// Appends the versions of the rows. Out of memory, nothing changes.
    pub(crate) fn add(&mut self, rows: &[Row]) -> Result<(), Memory>
        ensures ok { OnOk result (self.new ≡ self.old ++ map entry_of rows.now) }
        ensures err { OnErr result (self.new ≡ self.old) }
    {
        let alloc = *self.entries.allocator();
        let mut more = entries_of(alloc, rows)?;
        self.written.reserve(rows.len())?;
        self.entries.append(&mut more)?;
        add_keys(&mut self.written, rows);
        Ok(())
    }

    /// The versions, in order.
    pub(crate) fn into_entries(self) -> Vec<(Key, Held)>
        ensures { result.items ≡ self }
    {
        self.entries
    }
}
