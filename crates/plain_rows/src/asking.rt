//! Answers questions by the index: a version, a count or an item is looked up, and the rows are not
//! scanned.

ghost use Rattle.std.specs.{
  Prelude.{◌≡◌, ◌≤◌, ◌<◌, ◌^◌, Some, IfOk, IfSome},
  Option.{option_copied},
};
ghost use Rattle.lc_base.specs.{
  History.{latest, scan},
  Parts.{count_in, item_in, list_in, question, version_in},
  declared.limits.TheConstants.{MAX_DEPS},
};
ghost use Rattle.plain_rows.specs.{Places.{IsRowAt}, Kept.{Holds, IsFound, IsListAt, rows_of}};

use crate::index::RowsIndex;
use crate::kept::{KeptRow, nth_version, versions_at};
use lc_base::{Answer, Dep, Duplicate, Key, Kind, Memory, Query, Version};
use std::alloc::Global;

/// The last row of the key with a block up to `at`; `None` if there is none.
fn latest<'a>(rows: &'a [KeptRow], index: &RowsIndex, key: &Key, at: u32) -> Option<&'a KeptRow>
    requires { Holds (rows_of rows.now) rows.now index.now }
    ensures { IsFound (rows_of rows.now) (option_copied result) (latest (rows_of rows.now) key.now at) }
{
    match index.latest(key, at) {
        None => None,
        Some(row) => Some(&rows[row as usize]),
    }
}

/// The newest version of the key in the blocks up to `at`; `None` if there is none.
pub(crate) fn version(
    alloc: Global,
    rows: &[KeptRow],
    index: &RowsIndex,
    key: &Key,
    at: u32,
) -> Result<Option<Version>, Memory>
    requires { Holds (rows_of rows.now) rows.now index.now }
    ensures { IfOk result (λ version. version ≡ version_in (scan (rows_of rows.now) (question Kind.Hist key.now at))) }
{
    match latest(rows, index, key, at) {
        None => Ok(None),
        Some(row) => Ok(Some(Version {
            block: row.block,
            tx: row.tx,
            value: row.value.copy(alloc)?,
        })),
    }
}

/// The indexes that the answer about the row at a place lists: those of the rows that it was
/// derived from, or that were derived from it; `None` if the question is about its value.
fn list_of_row<'a>(
    rows: &'a [KeptRow],
    index: &'a RowsIndex,
    query: &Query,
    place: u32,
) -> Option<&'a [u32]>
    requires holds { Holds (rows_of rows.now) rows.now index.now }
    requires found { IsRowAt (rows_of rows.now) (Some place) (latest (rows_of rows.now) query.now.key query.now.at) }
    ensures { IsListAt (rows_of rows.now) (option_copied result) (list_in (scan (rows_of rows.now) query.now)) }
{
    match query.kind {
        Kind::Hist => None,
        Kind::Back => Some(rows[place as usize].deps.as_slice()),
        Kind::Fwd => Some(index.uses(place)),
    }
}

/// The indexes of the rows that the answer to a question lists; `None` if it has no list.
fn list_of_answer<'a>(rows: &'a [KeptRow], index: &'a RowsIndex, query: &Query) -> Option<&'a [u32]>
    requires { Holds (rows_of rows.now) rows.now index.now }
    ensures { IsListAt (rows_of rows.now) (option_copied result) (list_in (scan (rows_of rows.now) query.now)) }
{
    match index.latest(&query.key, query.at) {
        None => None,
        Some(place) => list_of_row(rows, index, query, place),
    }
}

/// The number of versions that the answer to a question lists; `None` if it has no list.
pub(crate) fn count(rows: &[KeptRow], index: &RowsIndex, query: &Query) -> Option<u64>
    requires { Holds (rows_of rows.now) rows.now index.now }
    ensures count { result ≡ count_in (scan (rows_of rows.now) query.now) }
    ensures bound { IfSome result (λ count. count < 2 ^ 63) }
    ensures few { query.now.kind ≡ Kind.Back → IfSome result (λ count. count ≤ MAX_DEPS) }
{
    match list_of_answer(rows, index, query) {
        None => None,
        Some(list) => Some(list.len() as u64),
    }
}

/// The version at the place `place`, from 0, of those that the answer to a question lists.
pub(crate) fn item(rows: &[KeptRow], index: &RowsIndex, query: &Query, place: usize) -> Option<Dep>
    requires { Holds (rows_of rows.now) rows.now index.now }
    ensures { result ≡ item_in place (scan (rows_of rows.now) query.now) }
{
    match list_of_answer(rows, index, query) {
        None => None,
        Some(list) => nth_version(rows, list, place),
    }
}

/// The answer to a question.
pub(crate) fn answer(
    alloc: Global,
    rows: &[KeptRow],
    index: &RowsIndex,
    query: &Query,
) -> Result<Answer, Memory>
    requires { Holds (rows_of rows.now) rows.now index.now }
    ensures { IfOk result (λ answer. answer ≡ scan (rows_of rows.now) query.now) }
{
    match index.latest(&query.key, query.at) {
        None => Ok(Answer::Nothing),
        Some(place) => answer_about(alloc, rows, index, query, place),
    }
}

/// The answer about the row at a place.
fn answer_about(
    alloc: Global,
    rows: &[KeptRow],
    index: &RowsIndex,
    query: &Query,
    place: u32,
) -> Result<Answer, Memory>
    requires holds { Holds (rows_of rows.now) rows.now index.now }
    requires found { IsRowAt (rows_of rows.now) (Some place) (latest (rows_of rows.now) query.now.key query.now.at) }
    ensures { IfOk result (λ answer. answer ≡ scan (rows_of rows.now) query.now) }
{
    let row = &rows[place as usize];
    let block = row.block;
    let tx = row.tx;
    match query.kind {
        Kind::Hist => {
            let value = row.value.copy(alloc)?;
            Ok(Answer::Hist { block, tx, value })
        }
        Kind::Back => {
            let deps = versions_at(alloc, rows, row.deps.as_slice())?;
            Ok(Answer::Back { block, deps })
        }
        Kind::Fwd => {
            let uses = versions_at(alloc, rows, index.uses(place))?;
            Ok(Answer::Fwd { block, uses })
        }
    }
}
