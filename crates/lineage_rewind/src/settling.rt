//! The rows of entries become the newest versions of their keys in the order of the rows, so keys
//! get the leaves that they have in the history. Each row's list is filled when it is opened, so
//! the next version of its key closes it.

ghost use Rattle.std.specs.Prelude.{ℕ, [], List, OnOk};
ghost use Rattle.lc_base.specs.declared.row.Row.{Row};
ghost use Rattle.lineage_rewind.specs.Front.{AreFilling, AreFirst};

use crate::lists::fill_list;
use lc_base::Memory;
use lineage_index::{EntryId, IndexList, LineageIndex, OpenLists, Store, Tree, set_newest};
use std::alloc::Global;

/// Makes the rows of the entries the newest versions of their keys, one after another.
pub(crate) fn settle_entries(
    alloc: Global,
    whole: &LineageIndex,
    store: &Store,
    tree: &mut Tree,
    lists: &mut OpenLists,
    newest: &mut Vec<u32>,
    closed: &mut Vec<IndexList>,
) -> Result<(), Memory>
    requires { (all : List Row) × (rows : List Row) × (n : ℕ)
        × AreFirst all rows n whole.now store.now
        × AreFilling rows [] tree.old lists.old newest.old.items closed.old.items }
    ensures { (all rows : List Row) (n : ℕ) → AreFirst all rows n whole.now store.now
        → AreFilling rows [] tree.old lists.old newest.old.items closed.old.items
        → OnOk result (AreFilling rows rows tree.new lists.new newest.new.items closed.new.items) }
{
    for index in 0..store.count() {
        let facts = store.facts(EntryId(index));
        let list = set_newest(tree, lists, newest, closed, &facts.key, index)?;
        fill_list(alloc, whole, store, lists, list, index)?;
    }
    Ok(())
}
