//! The keys that had a row in the blocks up to one are the first keys of all: leaves are in the
//! order of the first rows of their keys. Nothing here takes memory.

ghost use Rattle.std.specs.{
  Prelude.{◌≡◌, ◌<◌, ◌≤◌, ◌-◌, ℕ, List, length, take, slice_get, Some},
  Option.{is_some},
};
ghost use Rattle.lc_base.specs.{declared.row.Row.{Row}, History.{latest, up_to}};
ghost use Rattle.lineage_index.specs.{
  plain_rows.Places.{IsRowAt},
  root_laws.Root.{keys_of, leaves, lesser, next_key},
  Index.{IsIndexOf},
  Leaves.{IsLeafIndex},
};
ghost use Rattle.lineage_rewind.specs.LeavesAt.{next_with};

use lc_base::Key;
use lineage_index::{Counter, LineageIndex, Steps};

/// The counter of the entries that are read for an older root, which nobody asks for. Counts of it
/// are begun in this file alone.
struct OlderLeaves;

impl Counter for OlderLeaves {
    ghost use Rattle.std.specs.Prelude.{true};

    ghost may_begin = { true };
}

/// The index of the last row of a key in a block up to `at`; `None` exactly if there is none.
pub(crate) fn row_at(index: &LineageIndex, key: &Key, at: u32) -> Option<u32>
    requires { (rows : List Row) × (n : ℕ) × IsIndexOf rows n index.now }
    ensures { (rows : List Row) (n : ℕ) → IsIndexOf rows n index.now
        → IsRowAt rows result (latest rows key.now at) }
{
    let mut steps = Steps::<OlderLeaves>::new();
    index.latest_row(key, at, &mut steps)
}

/// The key of the leaf at an index. The leaves of keys have the indexes from 1 on.
pub(crate) fn key_of_leaf(index: &LineageIndex, leaf: u32) -> Key
    requires { (rows : List Row) × (n : ℕ) × IsIndexOf rows n index.now
        × IsLeafIndex (keys_of rows) leaf }
    ensures { (rows : List Row) (n : ℕ) → IsIndexOf rows n index.now
        → slice_get (keys_of rows) (leaf - 1) ≡ Some result }
{
    let found = index.tree().leaf(leaf);
    match found.key {
        None => unreachable!(),
        Some(key) => key,
    }
}

/// Whether a key has a row in a block up to `at`.
fn has_row(index: &LineageIndex, key: &Key, at: u32) -> bool
    requires { (rows : List Row) × (n : ℕ) × IsIndexOf rows n index.now }
    ensures { (rows : List Row) (n : ℕ) → IsIndexOf rows n index.now
        → result ≡ is_some (latest rows key.now at) }
{
    row_at(index, key, at).is_some()
}

/// The number of the leaves at the block `at`, the sentinel among them.
pub(crate) fn count_leaves(index: &LineageIndex, at: u32) -> u32
    requires { (rows : List Row) × (n : ℕ) × IsIndexOf rows n index.now }
    ensures { (rows : List Row) (n : ℕ) → IsIndexOf rows n index.now
        → result ≡ length (leaves (up_to rows at)) }
{
    let end = index.tree().count();
    for leaf in 1..end {
        let key = key_of_leaf(index, leaf);
        if !has_row(index, &key, at) {
            return leaf;
        }
    }
    end
}

/// The lesser of a key and another, if there is one.
fn lesser(key: Key, next: Option<Key>) -> Option<Key>
    ensures { result ≡ lesser key next }
{
    match next {
        None => Some(key),
        Some(other) => {
            if other.cmp(&key).is_lt() {
                Some(other)
            } else {
                Some(key)
            }
        }
    }
}

/// The least of some keys that are greater than `after`, with one key more: `next` is that of the
/// others.
fn next_with(after: &[u8], next: Option<Key>, key: Key) -> Option<Key>
    ensures { result ≡ next_with after.now next key }
{
    if after.cmp(key.as_bytes()).is_lt() {
        lesser(key, next)
    } else {
        next
    }
}

/// The least key greater than these bytes among those of the first `count` leaves.
pub(crate) fn next_key(index: &LineageIndex, count: u32, after: &[u8]) -> Option<Key>
    requires index { (rows : List Row) × (n : ℕ) × IsIndexOf rows n index.now
        × (count ≤ length (leaves rows)) }
    requires some { 0 < count }
    ensures { (rows : List Row) (n : ℕ) → IsIndexOf rows n index.now
        → result ≡ next_key (take (count - 1) (keys_of rows)) after.now }
{
    let mut next = None;
    for leaf in 1..count {
        let key = key_of_leaf(index, leaf);
        next = next_with(after, next, key);
    }
    next
}
