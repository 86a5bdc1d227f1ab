//! The index over the rows of the first blocks is made of their entries: no row and no body is
//! read, and no header is digested again.

ghost use Rattle.std.specs.{Prelude.{◌+◌, ◌<◌, ℕ, List, IfOk}, List.{All}};
ghost use Rattle.lc_base.specs.{declared.row.Row.{Row}, History.{up_to}};
ghost use Rattle.lineage_index.specs.Index.{IsIndexOf};
ghost use Rattle.lineage_rewind.specs.Front.{AreFirst};

use crate::cutting::count_up_to;
use crate::leaves::renew_all;
use crate::settling::settle_entries;
use lc_base::Memory;
use lineage_index::{LineageIndex, OpenLists, Store};
use std::alloc::Global;

/// The index over the rows of these entries, made of the index over all rows. Its tree is made with
/// the same resources.
fn index_of_entries(
    alloc: Global,
    whole: &LineageIndex,
    store: Store,
) -> Result<LineageIndex, Memory>
    requires { (all : List Row) × (rows : List Row) × (m : ℕ) × AreFirst all rows m whole.now store }
    ensures { (all rows : List Row) (m n : ℕ) → AreFirst all rows m whole.now store
        → All (λ (row : Row). row.block < n) rows → IfOk result (IsIndexOf rows n) }
{
    let mut tree = whole.tree().new_alike()?;
    let mut lists = OpenLists::new(alloc);
    let mut newest = Vec::new(alloc);
    let mut closed = Vec::new(alloc);
    settle_entries(
        alloc,
        whole,
        &store,
        &mut tree,
        &mut lists,
        &mut newest,
        &mut closed,
    )?;
    renew_all(&mut tree, &lists, &newest, &store);
    Ok(LineageIndex::of_parts(tree, lists, newest, store, closed))
}

/// The index over the rows of the blocks up to `at`, made of the one over all rows. Entries are
/// shared.
pub fn front(alloc: Global, index: &LineageIndex, at: u32) -> Result<LineageIndex, Memory>
    requires { (rows : List Row) × (n : ℕ) × IsIndexOf rows n index.now }
    ensures { (rows : List Row) (n : ℕ) → IsIndexOf rows n index.now
        → IfOk result (IsIndexOf (up_to rows at) (at + 1)) }
{
    let count = count_up_to(index.store(), at);
    let store = index.store().front(count)?;
    let first = index_of_entries(alloc, index, store)?;
    Ok(first)
}
