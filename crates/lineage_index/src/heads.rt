//! What is kept of the newest version of each key, by the index of the key among all keys. A key
//! gets its leaf, its list and its newest row together, and keeps its index.

ghost use Rattle.std.specs.{
  Prelude.{
    ◌≡◌,
    ◌<◌,
    ◌+◌,
    ◌^◌,
    ℕ,
    List,
    Some,
    length,
    slice_get,
    slice_index_or,
    slice_set,
    OnOk,
    IfOk,
    IfSome,
  },
  Option.{option_map},
};
ghost use Rattle.state_tree.specs.Leaves.{index_of as leaf_index};
ghost use Rattle.lc_base.specs.declared.limits.TheConstants.{MAX_ROWS};
ghost use Rattle.forward_links.specs.Lists.{emptied_at, kept_at};
ghost use Rattle.lineage_index.specs.{
  Growth.{Entry},
  Heads.{leaves_with, IsKeyIndex, KeyStates, AreHeads, with_version},
  Closed.{CanClose, closed_with},
};

use forward_links::OpenLists;
use lc_base::{Key, Memory};
use plain_rows::IndexList;
use state_tree::Tree;

/// The index of a key among the keys of the leaves, from 0: one below that of its leaf, as the
/// first leaf is the sentinel. `None` if the key has no leaf.
pub(crate) fn index_of(tree: &Tree, key: &Key) -> Option<u32>
    requires { (keys : List (List ℕ)) × (entry : List ℕ → Entry) × (tree.now ≡ leaves_with keys entry) }
    ensures room { IfSome result (λ index. index + 1 < 2 ^ 32) }
    ensures place { (keys : List (List ℕ)) (entry : List ℕ → Entry) → tree.now ≡ leaves_with keys entry → IsKeyIndex keys key.now result }
    ensures leaf { option_map (λ (index : ℕ). index + 1) result ≡ leaf_index tree.now key.now }
{
    match tree.index_of(key) {
        None => None,
        Some(index) => Some(index - 1),
    }
}

/// Makes `row` the index of the newest row of the key at `index`. The key's list is closed: it is
/// now that of the row that was the newest before.
fn replace_newest(
    lists: &mut OpenLists,
    newest: &mut Vec<u32>,
    closed: &mut Vec<IndexList>,
    index: u32,
    row: u32,
)
    requires lists { index < length lists.old }
    requires newest { index < length newest.old.items }
    requires closed { slice_index_or newest.old.items index 0 < length closed.old.items }
    ensures lists { lists.new ≡ emptied_at lists.old index }
    ensures newest { newest.new.items ≡ slice_set newest.old.items index row }
    ensures closed { closed.new.items ≡ slice_set closed.old.items
        (slice_index_or newest.old.items index 0) (kept_at lists.old index).rows }
{
    let before = newest[index as usize];
    let list = lists.close(index);
    closed[before as usize] = list.rows;
    newest[index as usize] = row;
}

/// Makes the row at an index the newest version of a key. The list of the version before is closed;
/// a key without a leaf gets one, and an empty list. It returns the index of the key. On `Memory`
/// only a part of this may be done.
pub fn set_newest(
    tree: &mut Tree,
    lists: &mut OpenLists,
    newest: &mut Vec<u32>,
    closed: &mut Vec<IndexList>,
    key: &Key,
    row: u32,
) -> Result<u32, Memory>
    requires room { length newest.old.items < MAX_ROWS }
    requires heads { (states : KeyStates) × AreHeads tree.old lists.old newest.old.items states
        × CanClose states key.now closed.old.items }
    ensures heads { (states : KeyStates) → AreHeads tree.old lists.old newest.old.items states
        → OnOk result (AreHeads tree.new lists.new newest.new.items (with_version states key.now row)) }
    ensures closed { (states : KeyStates) → AreHeads tree.old lists.old newest.old.items states
        → OnOk result (closed.new.items ≡ closed_with states key.now closed.old.items) }
    ensures index { (states : KeyStates) → AreHeads tree.old lists.old newest.old.items states
        → IfOk result (λ index. slice_get (with_version states key.now row).keys index
        ≡ Some key.now) }
{
    let alloc = *closed.allocator();
    closed.push(IndexList::new(alloc))?;
    match index_of(tree, key) {
        None => {
            tree.add_key(*key)?;
            let index = lists.add_key()?;
            newest.push(row)?;
            Ok(index)
        }
        Some(index) => {
            replace_newest(lists, newest, closed, index, row);
            Ok(index)
        }
    }
}
