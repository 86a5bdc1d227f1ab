//! The index over the rows of a history: it follows the rows one by one, and answers without going
//! over them.

ghost use Rattle.std.specs.{
  Prelude.{◌≡◌, ◌<◌, ℕ, List, [], ◌∷◌, ◌++◌, length, slice_get, Some, OnOk, IfOk},
  List.{AllPairs},
};
ghost use Rattle.lc_base.specs.{declared.row.Row.{Row}, History.{StandsBefore, latest, uses}};
ghost use Rattle.plain_rows.specs.{
  Places.{ArePlaces, IsRowAt},
  Users.{AreUsers, AreVersionsAt},
  Index.{IsIndexOf, IsNext},
};

use crate::places::{Place, PlaceList, push_place, row_up_to};
use crate::users::{IndexList, add_users};
use lc_base::{Key, Memory, Row};
use std::alloc::Global;
use std::collections::BTreeMap;

/// The places of the versions of each key, and the rows that were derived from each row. It does
/// not keep the rows.
#[derive(Drop)]
pub struct RowsIndex {
    places: BTreeMap<Key, PlaceList>,
    users: Vec<IndexList>,
}

/// Adds a row after those so far, and returns the indexes of its dependencies.
fn add_row(
    alloc: Global,
    places: &mut BTreeMap<Key, PlaceList>,
    users: &mut Vec<IndexList>,
    row: &Row,
) -> Result<IndexList, Memory>
    requires { (rows : List Row) × IsNext rows row.now × ArePlaces rows places.old
        × AreUsers rows users.old.items }
    ensures places { (rows : List Row) → IsNext rows row.now → ArePlaces rows places.old
        → AreUsers rows users.old.items
        → OnOk result (ArePlaces (rows ++ row.now ∷ []) places.new) }
    ensures users { (rows : List Row) → IsNext rows row.now → ArePlaces rows places.old
        → AreUsers rows users.old.items
        → OnOk result (AreUsers (rows ++ row.now ∷ []) users.new.items) }
    ensures deps { (rows : List Row) → IsNext rows row.now → ArePlaces rows places.old
        → AreUsers rows users.old.items
        → IfOk result (λ indexes. AreVersionsAt rows indexes row.now.deps) }
{
    let index = users.len() as u32;
    let deps = add_users(alloc, places, users, index, row)?;
    let place = Place {
        block: row.block,
        row: index,
    };
    push_place(alloc, places, &row.key, place)?;
    Ok(deps)
}

/// The indexes of the rows that were derived from the row at an index.
fn uses_of(users: &[IndexList], index: usize) -> &[u32]
    requires { (rows : List Row) × AreUsers rows users.now × (index < length rows) }
    ensures { (rows : List Row) (row : Row) → AreUsers rows users.now
        → slice_get rows index ≡ Some row
        → AreVersionsAt rows result.now (uses rows row.key row.block) }
{
    users[index].as_slice()
}

impl RowsIndex {
    /// The index over no rows. It takes no memory.
    pub fn new(alloc: Global) -> RowsIndex
        ensures { IsIndexOf [] result }
    {
        RowsIndex {
            places: BTreeMap::new(alloc),
            users: Vec::new(alloc),
        }
    }

    /// Adds the next row of a lawful history, and returns the indexes of the rows that it depends
    /// on. If memory runs out, a part of the row may have been added, and the index is no longer of
    /// use.
    pub fn add(&mut self, row: &Row) -> Result<IndexList, Memory>
        requires { (rows : List Row) × IsNext rows row.now × IsIndexOf rows self.old }
        ensures index { (rows : List Row) → IsNext rows row.now → IsIndexOf rows self.old
            → OnOk result (IsIndexOf (rows ++ row.now ∷ []) self.new) }
        ensures deps { (rows : List Row) → IsNext rows row.now → IsIndexOf rows self.old
            → IfOk result (λ indexes. AreVersionsAt rows indexes row.now.deps) }
    {
        let alloc = *self.users.allocator();
        add_row(alloc, &mut self.places, &mut self.users, row)
    }

    /// The index of the last row of the key with a block up to `at`; `None` if there is none.
    pub fn latest(&self, key: &Key, at: u32) -> Option<u32>
        requires { (rows : List Row) × AllPairs StandsBefore rows × IsIndexOf rows self.now }
        ensures { (rows : List Row) → IsIndexOf rows self.now
            → IsRowAt rows result (latest rows key.now at) }
    {
        row_up_to(&self.places, key, at)
    }

    /// The indexes of the rows that were derived from the row at an index, in ascending order.
    pub fn uses(&self, index: u32) -> &[u32]
        requires { (rows : List Row) × IsIndexOf rows self.now × (index < length rows) }
        ensures { (rows : List Row) (row : Row) → IsIndexOf rows self.now
            → slice_get rows index ≡ Some row
            → AreVersionsAt rows result.now (uses rows row.key row.block) }
    {
        uses_of(self.users.as_slice(), index as usize)
    }
}
