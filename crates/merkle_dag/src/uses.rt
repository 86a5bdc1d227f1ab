//! The versions that were derived from a row: the indexes of their rows are kept, and the versions
//! are read from the entries.

ghost use Rattle.std.specs.Prelude.{◌≡◌, ◌<◌, ℕ, List, Some, length, slice_get, IfOk};
ghost use Rattle.lc_base.specs.{
  History.{uses, version_of},
  declared.row.Row.{Row},
  declared.row.Dep.{Dep},
};
ghost use Rattle.lineage_rewind.specs.{
  plain_rows.Users.{AreVersionsAt},
  lineage_index.Entries.{entries_of},
};
ghost use Rattle.merkle_dag.specs.Kept.{IsWhole, rows_kept};

use crate::kept::Kept;
use lc_base::{Dep, DepList, Memory};
use lineage_rewind::{EntryId, Store};
use std::alloc::Global;

/// The version that the row at an index is.
fn version_at(store: &Store, place: u32) -> Dep
    requires { (rows : List Row) × (store.now ≡ entries_of rows rows) × (place < length rows) }
    ensures { (rows : List Row) (row : Row) → store.now ≡ entries_of rows rows
        → slice_get rows place ≡ Some row → result ≡ version_of row }
{
    let facts = store.facts(EntryId(place));
    Dep {
        key: facts.key,
        block: facts.block,
    }
}

/// The versions that the rows at these indexes are.
pub(crate) fn versions_at(alloc: Global, store: &Store, places: &[u32]) -> Result<DepList, Memory>
    requires { (rows : List Row) × (deps : List Dep) × (store.now ≡ entries_of rows rows)
        × AreVersionsAt rows places.now deps }
    ensures { (rows : List Row) (deps : List Dep) → store.now ≡ entries_of rows rows
        → AreVersionsAt rows places.now deps → IfOk result (λ list. list ≡ deps) }
{
    let mut list = DepList::new(alloc);
    for place in places {
        list.push(version_at(store, *place))?;
    }
    Ok(list)
}

/// The version at `item`, from 0, of those at a list of indexes; `None` if `item` is past the last
/// one.
pub(crate) fn nth_version(store: &Store, places: &[u32], item: usize) -> Option<Dep>
    requires { (rows : List Row) × (deps : List Dep) × (store.now ≡ entries_of rows rows)
        × AreVersionsAt rows places.now deps }
    ensures { (rows : List Row) (deps : List Dep) → store.now ≡ entries_of rows rows
        → AreVersionsAt rows places.now deps → result ≡ slice_get deps item }
{
    match places.get(item) {
        None => None,
        Some(place) => Some(version_at(store, *place)),
    }
}

/// The indexes of the rows that were derived from the row at an index.
pub(crate) fn users_of(kept: &Kept, index: u32) -> &[u32]
    requires whole { IsWhole kept.now }
    requires within { index < length (rows_kept kept.now.index) }
    ensures { (row : Row) → slice_get (rows_kept kept.now.index) index ≡ Some row
        → AreVersionsAt (rows_kept kept.now.index) result.now
        (uses (rows_kept kept.now.index) row.key row.block) }
{
    kept.index.uses(index)
}
