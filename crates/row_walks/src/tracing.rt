//! The last version of a key up to a block, with all of its ancestors.

ghost use Rattle.std.specs.{
  Prelude.{◌≡◌, [], length, reverse, IfOk, OnOk},
  List.{Contains},
  Option.{option_map},
};
ghost use Rattle.lc_base.specs.{declared.row.Row.{Row}, History.{latest}};
ghost use Rattle.root_laws.specs.Ancestors.{itself, all_inserted, deps_of, reached_from, trace_at};
ghost use Rattle.row_walks.specs.Finding.{derived_of};

use crate::finding::{Derived, derived_in, insert_found};
use crate::wanted::{Wanted, insert_all};
use lc_base::{Dep, DepList, Key, Kind, Memory, Query};
use plain_rows::PlainRows;
use root_laws::Trace;
use std::alloc::Global;

/// The newest version of a key in the blocks up to `at`; `None` if there is none.
fn look_up(rows: &mut PlainRows, key: &Key, at: u32) -> Result<Option<Derived>, Memory>
    ensures derived { IfOk result
        (λ found. found ≡ option_map derived_of (latest rows.old key.now at)) }
    ensures unchanged { rows.new ≡ rows.old }
{
    let query = Query {
        kind: Kind::Back,
        key: *key,
        at,
    };
    let answer = rows.ask(&query)?;
    Ok(derived_in(answer))
}

/// Inserts what a version was derived from directly.
fn insert_deps_of(rows: &mut PlainRows, wanted: &mut Wanted, version: &Dep) -> Result<(), Memory>
    ensures wanted { OnOk result (wanted.new ≡ all_inserted itself
        (deps_of (latest rows.old version.now.key version.now.block)) wanted.old) }
    ensures unchanged { rows.new ≡ rows.old }
{
    let found = look_up(rows, &version.key, version.block)?;
    insert_found(wanted, &found)
}

/// The dependencies of a row and all that they were derived from, the last version first. The loop
/// of `lineage_trace` does the same over a lineage. Nearly all of its contract is about what is not
/// here, a device that may fail and a count of the versions that are looked at; so it is another.
fn reached(alloc: Global, rows: &mut PlainRows, deps: &[Dep]) -> Result<DepList, Memory>
    ensures reached { (row : Row) → Contains rows.old row → deps.now ≡ row.deps → IfOk result
        (λ found. found
        ≡ reached_from (length rows.old) rows.old (all_inserted itself row.deps [])) }
    ensures unchanged { rows.new ≡ rows.old }
{
    let mut left = rows.len();
    let mut wanted = Wanted::new(alloc);
    insert_all(&mut wanted, deps)?;
    let mut found = DepList::new(alloc);
    while left > 0 {
        let Some(version) = wanted.take_last() else {
            return Ok(found);
        };
        insert_deps_of(rows, &mut wanted, &version)?;
        found.push(version)?;
        left -= 1;
    }
    Ok(found)
}

/// The versions in the opposite order.
pub fn reversed(versions: DepList) -> DepList
    ensures { result ≡ reverse versions }
{
    let mut versions = versions.into_vec();
    versions.reverse();
    DepList::from_vec(versions)
}

/// The newest version of a key in the blocks up to `at`, with its ancestors; `None` exactly if there
/// is no such version. Each ancestor is looked up once. The rows stay.
pub fn trace(
    alloc: Global,
    rows: &mut PlainRows,
    key: &Key,
    at: u32,
) -> Result<Option<Trace>, Memory>
    ensures traced { IfOk result (λ trace. trace ≡ trace_at rows.old key.now at) }
    ensures unchanged { rows.new ≡ rows.old }
{
    match look_up(rows, key, at)? {
        None => Ok(None),
        Some(derived) => {
            let ancestors = reached(alloc, rows, derived.deps.as_slice())?;
            Ok(Some(Trace {
                block: derived.block,
                ancestors: reversed(ancestors),
            }))
        }
    }
}
