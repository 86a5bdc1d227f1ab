//! The open list of a key gets the users of its newest row among the first rows, in their order.

ghost use Rattle.std.specs.Prelude.{◌≡◌, ℕ, List, map, OnOk, Some, slice_get, slice_set};
ghost use Rattle.lc_base.specs.{declared.row.Dep.{Dep}, declared.row.Row.{Row}};
ghost use Rattle.lineage_index.specs.{
  plain_rows.Users.{version_at},
  forward_links.Lists.{Use, kept_of},
  Growth.{uses_at},
  Settling.{IsStoreOf},
};
ghost use Rattle.lineage_rewind.specs.Front.{AreFirst, CanFill, IsEmpty};

use crate::users::indexes_below;
use lc_base::{Dep, Memory};
use lineage_index::{EntryId, LineageIndex, OpenLists, Store};
use std::alloc::Global;

/// The version that the row at an index is, by the row's entry.
pub(crate) fn version_of(store: &Store, index: u32) -> Dep
    requires { (rows : List Row) × (dep : Dep) × IsStoreOf rows store.now
        × (version_at rows index ≡ Some dep) }
    ensures { (rows : List Row) (dep : Dep) → IsStoreOf rows store.now
        → version_at rows index ≡ Some dep → result ≡ dep }
{
    let facts = store.facts(EntryId(index));
    Dep {
        key: facts.key,
        block: facts.block,
    }
}

/// Adds the uses whose rows have these indexes to an empty list.
fn add_uses(lists: &mut OpenLists, list: u32, store: &Store, users: &[u32]) -> Result<(), Memory>
    requires { (rows : List Row) × (uses : List Use) × (all : List (List Use))
        × CanFill rows uses all list lists.old store.now users.now }
    ensures { (rows : List Row) (uses : List Use) (all : List (List Use))
        → CanFill rows uses all list lists.old store.now users.now
        → OnOk result (lists.new ≡ map kept_of (slice_set all list uses)) }
{
    for user in users {
        lists.add(list, &version_of(store, *user), *user)?;
    }
    Ok(())
}

/// Fills an empty list with the uses of the row at an index among the rows of the store's entries.
/// They are found in the index over all rows.
pub(crate) fn fill_list(
    alloc: Global,
    whole: &LineageIndex,
    store: &Store,
    lists: &mut OpenLists,
    list: u32,
    index: u32,
) -> Result<(), Memory>
    requires { (every : List Row) × (rows : List Row) × (n : ℕ) × (row : Row)
        × (all : List (List Use)) × AreFirst every rows n whole.now store.now
        × (slice_get rows index ≡ Some row) × IsEmpty all list lists.old }
    ensures { (every rows : List Row) (n : ℕ) (row : Row) (all : List (List Use))
        → AreFirst every rows n whole.now store.now → slice_get rows index ≡ Some row
        → IsEmpty all list lists.old
        → OnOk result (lists.new ≡ map kept_of (slice_set all list
        (uses_at rows row.key (Some row)))) }
{
    let users = indexes_below(alloc, whole.uses(index), store.count())?;
    add_uses(lists, list, store, users.as_slice())?;
    Ok(())
}
