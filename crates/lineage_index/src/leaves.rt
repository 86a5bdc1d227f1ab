//! The leaves of the keys that a block touches are set, each by what is kept of the newest version
//! of its key.

ghost use Rattle.std.specs.{
  Prelude.{◌≡◌, ◌<◌, [], ℕ, List, length, map, slice_get, Some, OnOk},
  List.{All},
};
ghost use Rattle.lc_base.specs.declared.row.Row.{Row};
ghost use Rattle.plain_rows.specs.root_laws.Root.{keys_of};
ghost use Rattle.state_tree.specs.Leaves.{with_states};
ghost use Rattle.lineage_index.specs.{
  Growth.{Entry, deps_touched, keys_touched},
  Leaves.{AreBesideLeaves, IsLeafIndex, leaf_indexes, state_of},
  Settling.{AreRenewing},
};

use crate::indexes::touched_indexes;
use forward_links::OpenLists;
use lc_base::{Memory, Row};
use skip_list::{EntryId, Store};
use state_tree::{LeafState, Tree};

/// The index of the newest row of the key at an index.
pub(crate) fn newest_at(newest: &[u32], index: u32) -> u32
    requires { index < length newest.now }
    ensures { slice_get newest.now index ≡ Some result }
{
    newest[index as usize]
}

/// The state of the leaf at an index, by what is kept of the newest version of its key. The leaves
/// of keys have the indexes from 1 on; 0 is that of the sentinel.
pub fn leaf_state(lists: &OpenLists, newest: &[u32], store: &Store, index: u32) -> LeafState
    requires { (rows : List Row) × AreBesideLeaves rows lists.now newest.now store.now × IsLeafIndex (keys_of rows) index }
    ensures { (rows : List Row) → AreBesideLeaves rows lists.now newest.now store.now → IsLeafIndex (keys_of rows) index
        → result ≡ state_of rows index }
{
    let key = index - 1;
    let facts = store.facts(EntryId(newest_at(newest, key)));
    let kept = lists.peek(key);
    LeafState {
        index,
        newest_block: facts.block,
        newest: facts.digest,
        open_count: kept.count,
        open_digest: kept.digest,
    }
}

/// Sets the leaves at these indexes, each by what is kept of the newest version of its key.
fn set_leaves(tree: &mut Tree, lists: &OpenLists, newest: &[u32], store: &Store, indexes: &[u32])
    requires { (rows : List Row) × AreBesideLeaves rows lists.now newest.now store.now
        × All (IsLeafIndex (keys_of rows)) indexes.now × (length (keys_of rows) < length tree.old) }
    ensures { (rows : List Row) → AreBesideLeaves rows lists.now newest.now store.now
        → All (IsLeafIndex (keys_of rows)) indexes.now
        → tree.new ≡ with_states tree.old (map (state_of rows) indexes.now) }
{
    for index in indexes {
        tree.set_leaf(&leaf_state(lists, newest, store, *index));
    }
}

/// Sets the leaves of all keys that the rows of a block touch: of their own keys, and of those that
/// they depend on. `touched` has the indexes of the leaves of the latter. Nothing is hashed.
pub(crate) fn renew_leaves(
    tree: &mut Tree,
    lists: &OpenLists,
    newest: &[u32],
    store: &Store,
    touched: Vec<u32>,
    new: &[Row],
) -> Result<(), Memory>
    requires touched { touched.items ≡ leaf_indexes tree.old (deps_touched new.now) }
    requires renewing { (rows : List Row) × (entry : List ℕ → Entry) × AreRenewing rows entry [] tree.old lists.now newest.now store.now }
    ensures { (rows : List Row) (entry : List ℕ → Entry) → AreRenewing rows entry [] tree.old lists.now newest.now store.now
        → OnOk result (AreRenewing rows entry (keys_touched new.now) tree.new lists.now newest.now store.now) }
{
    let indexes = touched_indexes(tree, touched, new)?;
    set_leaves(tree, lists, newest, store, &indexes);
    Ok(())
}
