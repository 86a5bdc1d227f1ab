//! Adds rows to those that are kept. The index is taken away first, and put back only when all rows
//! were added, so that one that was written in part is never used.

ghost use Rattle.std.specs.{
  Prelude.{◌≡◌, true, List, ◌++◌, IfOk, OnOk, OnErr},
  List.{All},
  Option.{is_some},
};
ghost use Rattle.lc_base.specs.{declared.row.Row.{Row}, History.{IsLawful}};
ghost use Rattle.plain_rows.specs.{
  Index.{IsIndexOf},
  declared.kept.KeptRow.{KeptRow as Kept},
  Kept.{AreKept, KeepsRows, rows_of, rows_with},
};
ghost use Rattle.root_laws.specs.TypedLedger.{IsTypedRow};

use crate::index::RowsIndex;
use crate::kept::{KeptRow, kept_row, row_of};
use lc_base::{Memory, Row};
use std::alloc::Global;

/// Adds rows to the index, and returns them as they are to be kept.
fn add_to_index(alloc: Global, index: &mut RowsIndex, new: &[Row]) -> Result<Vec<KeptRow>, Memory>
    requires { (rows : List Row) × IsLawful (rows ++ new.now) × IsIndexOf rows index.old }
    ensures index { (rows : List Row) → IsLawful (rows ++ new.now) → IsIndexOf rows index.old → OnOk result (IsIndexOf (rows ++ new.now) index.new) }
    ensures rows { (rows : List Row) → IsLawful (rows ++ new.now) → IsIndexOf rows index.old → IfOk result (λ more. rows_with rows more.items ≡ rows ++ new.now) }
    ensures kept { (rows : List Row) (before : List Kept) → IsLawful (rows ++ new.now) → IsIndexOf rows index.old → AreKept rows before
        → IfOk result (λ more. AreKept (rows ++ new.now) (before ++ more.items)) }
    ensures typed { OnOk result (All IsTypedRow new.now) }
{
    let mut more = Vec::with_capacity(alloc, new.len())?;
    for row in new {
        let deps = index.add(row)?;
        let kept = kept_row(alloc, row, deps)?;
        more.push(kept)?;
    }
    Ok(more)
}

/// Makes the index over all rows again.
fn index_over(alloc: Global, rows: &[KeptRow]) -> Result<RowsIndex, Memory>
    requires { (all : List Row) × IsLawful all × AreKept all rows.now }
    ensures { (all : List Row) → IsLawful all → AreKept all rows.now → IfOk result (IsIndexOf all) }
{
    let mut index = RowsIndex::new(alloc);
    for kept in rows {
        let row = row_of(alloc, rows, kept)?;
        index.add(&row)?;
    }
    Ok(index)
}

/// The index that is there, or else the one over all rows.
fn index_or_made(
    alloc: Global,
    rows: &[KeptRow],
    index: Option<RowsIndex>,
) -> Result<RowsIndex, Memory>
    requires { (all : List Row) × KeepsRows all rows.now index }
    ensures { (all : List Row) → KeepsRows all rows.now index → IfOk result (IsIndexOf all) }
{
    match index {
        Some(index) => Ok(index),
        None => index_over(alloc, rows),
    }
}

/// Appends rows. If memory runs out, the rows stay as they were, without an index.
pub(crate) fn append(
    kept: &mut Vec<KeptRow>,
    index: &mut Option<RowsIndex>,
    new: &[Row],
) -> Result<(), Memory>
    requires keeps { KeepsRows (rows_of kept.old.items) kept.old.items index.old }
    requires lawful { IsLawful (rows_of kept.old.items ++ new.now) }
    ensures ok { OnOk result (rows_of kept.new.items ≡ rows_of kept.old.items ++ new.now) }
    ensures err { OnErr result (kept.new.items ≡ kept.old.items) }
    ensures keeps { KeepsRows (rows_of kept.new.items) kept.new.items index.new }
    ensures index { OnOk result (is_some index.new ≡ true) }
{
    let alloc = *kept.allocator();
    let mut grown = index_or_made(alloc, kept.as_slice(), index.take())?;
    let mut more = add_to_index(alloc, &mut grown, new)?;
    kept.append(&mut more)?;
    *index = Some(grown);
    Ok(())
}
