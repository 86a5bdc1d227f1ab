//! For each row the indexes of the rows that were derived from it. A row that is added was derived
//! from earlier rows, and nothing was derived from it yet.

ghost use Rattle.std.specs.{
  Prelude.{◌≡◌, ◌<◌, ℕ, List, [], ◌∷◌, ◌++◌, length, slice_index_or, slice_set, OnOk, IfOk},
  List.{AllPairs},
};
ghost use Rattle.lc_base.specs.{declared.row.Row.{Row}, History.{StandsBefore}};
ghost use Rattle.plain_rows.specs.{
  Places.{ArePlaces, StandsAt},
  Users.{AreUsers, AreUsersWith, AreVersionsAt, CanUse, IsUnused},
};

use crate::places::{PlaceList, row_up_to};
use lc_base::{Dep, Key, Memory, Row, Seq};
use std::alloc::Global;
use std::collections::BTreeMap;

/// A list of the indexes of rows, from 0.
pub type IndexList = Seq<u32>;

/// Appends a row to those that were derived from the row at an index.
fn push_user(users: &mut Vec<IndexList>, index: usize, row: u32) -> Result<(), Memory>
    requires { index < length users.old.items }
    ensures { OnOk result (users.new.items ≡ slice_set users.old.items index
        (slice_index_or users.old.items index [] ++ row ∷ [])) }
{
    users[index].push(row)
}

/// The index of the row that is this version.
fn row_of_version(places: &BTreeMap<Key, PlaceList>, dep: &Dep) -> u32
    requires { (rows : List Row) × AllPairs StandsBefore rows × ArePlaces rows places.now
        × ((index : ℕ) × StandsAt rows dep.now index) }
    ensures { (rows : List Row) (index : ℕ) → AllPairs StandsBefore rows → ArePlaces rows places.now
        → StandsAt rows dep.now index → result ≡ index }
{
    match row_up_to(places, &dep.key, dep.block) {
        Some(index) => index,
        None => unreachable!(),
    }
}

/// Appends a row to those that were derived from each of these versions, and returns the indexes of
/// the versions.
fn add_to_versions(
    alloc: Global,
    places: &BTreeMap<Key, PlaceList>,
    users: &mut Vec<IndexList>,
    row: u32,
    deps: &[Dep],
) -> Result<IndexList, Memory>
    requires { (rows : List Row) × CanUse rows deps.now places.now users.old.items }
    ensures users { (rows : List Row) → CanUse rows deps.now places.now users.old.items
        → OnOk result (AreUsersWith rows deps.now row users.new.items) }
    ensures indexes { (rows : List Row) → CanUse rows deps.now places.now users.old.items
        → IfOk result (λ indexes. AreVersionsAt rows indexes deps.now) }
{
    let mut indexes = Vec::with_capacity(alloc, deps.len())?;
    for dep in deps {
        let index = row_of_version(places, dep);
        push_user(users, index as usize, row)?;
        indexes.push(index)?;
    }
    Ok(IndexList::from_vec(indexes))
}

/// Adds a row after those so far: to the rows that were derived from its dependencies, and as one
/// from which none was derived. It returns the indexes of its dependencies.
pub(crate) fn add_users(
    alloc: Global,
    places: &BTreeMap<Key, PlaceList>,
    users: &mut Vec<IndexList>,
    index: u32,
    row: &Row,
) -> Result<IndexList, Memory>
    requires { (rows : List Row) × CanUse rows row.now.deps places.now users.old.items }
    ensures users { (rows : List Row) → CanUse rows row.now.deps places.now users.old.items
        → index ≡ length rows → IsUnused (rows ++ row.now ∷ []) row.now
        → OnOk result (AreUsers (rows ++ row.now ∷ []) users.new.items) }
    ensures deps { (rows : List Row) → CanUse rows row.now.deps places.now users.old.items
        → IfOk result (λ indexes. AreVersionsAt rows indexes row.now.deps) }
{
    let deps = add_to_versions(alloc, places, users, index, row.deps.as_slice())?;
    users.push(IndexList::new(alloc))?;
    Ok(deps)
}
