//! Rows as they are kept: a dependency is the index of its row, and becomes a key and a block again
//! when it is answered.

ghost use Rattle.std.specs.Prelude.{◌≡◌, ◌<◌, List, Some, length, slice_get, IfOk};
ghost use Rattle.lc_base.specs.{declared.row.Row.{Row}, declared.row.Dep.{Dep}};
ghost use Rattle.plain_rows.specs.{Users.{AreVersionsAt, version_at}, Kept.{AreKept, IsKeptAs}};
ghost use Rattle.root_laws.specs.TypedLedger.{IsTypedRow};

use crate::users::IndexList;
use lc_base::{Dep, DepList, Duplicate, Key, Memory, Row, Value};
use root_laws::check_row;
use std::alloc::Global;

/// A row, whose dependencies are the indexes of their rows.
#[derive(Drop)]
pub struct KeptRow {
    pub key: Key,
    /// The number of its block.
    pub block: u32,
    /// The index of its transaction in the block, from 0.
    pub tx: u16,
    pub value: Value,
    pub deps: IndexList,
}

/// A row as it is kept, with the indexes of its dependencies.
pub(crate) fn kept_row(alloc: Global, row: &Row, deps: IndexList) -> Result<KeptRow, Memory>
    ensures typed { IsTypedRow row.now }
    ensures kept { IfOk result (λ kept. kept ≡ record { key = row.now.key; block = row.now.block; tx = row.now.tx; value = row.now.value; deps = deps }) }
{
    check_row(row);
    let value = row.value.copy(alloc)?;
    Ok(KeptRow {
        key: row.key,
        block: row.block,
        tx: row.tx,
        value,
        deps,
    })
}

/// The version at an index.
fn version_at(rows: &[KeptRow], index: u32) -> Dep
    requires { (all : List Row) × AreKept all rows.now × (index < length all) }
    ensures { (all : List Row) → AreKept all rows.now → version_at all index ≡ Some result }
{
    let row = &rows[index as usize];
    Dep {
        key: row.key,
        block: row.block,
    }
}

/// The versions at these indexes.
fn collect_versions(alloc: Global, rows: &[KeptRow], indexes: &[u32]) -> Result<Vec<Dep>, Memory>
    requires { (all : List Row) × (deps : List Dep) × AreKept all rows.now × AreVersionsAt all indexes.now deps }
    ensures { (all : List Row) → AreKept all rows.now → IfOk result (λ list. AreVersionsAt all indexes.now list.items) }
{
    let mut deps = Vec::with_capacity(alloc, indexes.len())?;
    for row in indexes {
        let dep = version_at(rows, *row);
        deps.push(dep)?;
    }
    Ok(deps)
}

/// The list of the versions at these indexes.
pub(crate) fn versions_at(
    alloc: Global,
    rows: &[KeptRow],
    indexes: &[u32],
) -> Result<DepList, Memory>
    requires { (all : List Row) × (deps : List Dep) × AreKept all rows.now × AreVersionsAt all indexes.now deps }
    ensures { (all : List Row) (deps : List Dep) → AreKept all rows.now → AreVersionsAt all indexes.now deps → IfOk result (λ list. list ≡ deps) }
{
    Ok(DepList::from_vec(collect_versions(alloc, rows, indexes)?))
}

/// The version at a place in a list of indexes; `None` exactly past the end.
pub(crate) fn nth_version(rows: &[KeptRow], indexes: &[u32], place: usize) -> Option<Dep>
    requires { (all : List Row) × (deps : List Dep) × AreKept all rows.now × AreVersionsAt all indexes.now deps }
    ensures { (all : List Row) (deps : List Dep) → AreKept all rows.now → AreVersionsAt all indexes.now deps → result ≡ slice_get deps place }
{
    match indexes.get(place) {
        None => None,
        Some(row) => Some(version_at(rows, *row)),
    }
}

/// The row that is kept, with its dependencies as keys and blocks.
pub(crate) fn row_of(alloc: Global, rows: &[KeptRow], kept: &KeptRow) -> Result<Row, Memory>
    requires { (all : List Row) × (row : Row) × AreKept all rows.now × IsKeptAs all kept.now row }
    ensures { (all : List Row) (row : Row) → AreKept all rows.now → IsKeptAs all kept.now row → IfOk result (λ made. made ≡ row) }
{
    let value = kept.value.copy(alloc)?;
    let deps = versions_at(alloc, rows, kept.deps.as_slice())?;
    Ok(Row {
        key: kept.key,
        block: kept.block,
        tx: kept.tx,
        value,
        deps,
    })
}
