//! The places of the versions of each key, in the order of their rows, so that bisection finds the
//! last one up to a block.

ghost use Rattle.std.specs.{
  Prelude.{◌≡◌, ◌==◌, ℕ, List, [], ◌∷◌, ◌++◌, nat_le, if◌then◌else◌, OnOk},
  List.{AllPairs},
  List.Sorted.{IsNonDecreasingBy},
  Cmp.Lexicographic.{pointwise},
};
ghost use Rattle.lc_base.specs.{declared.row.Row.{Row}, History.{StandsBefore}};
ghost use Rattle.plain_rows.specs.Places.{ArePlaces, block_of, index_up_to, last_up_to, places_in};

use lc_base::{Key, Memory, Seq};
use std::alloc::Global;
use std::collections::BTreeMap;

/// Where a version is: its block, and the index of its row, from 0.
#[derive(Clone, Copy)]
pub struct Place {
    pub block: u32,
    pub row: u32,
}

/// The places of the versions of a key, in order.
pub type PlaceList = Seq<Place>;

/// Appends a place to those of a key.
pub(crate) fn push_place(
    alloc: Global,
    places: &mut BTreeMap<Key, PlaceList>,
    key: &Key,
    place: Place,
) -> Result<(), Memory>
    ensures { OnOk result ((other : List ℕ) → places_in places.new other
        ≡ (if pointwise ◌==◌ key.now other then places_in places.old other ++ place ∷ [] else places_in places.old other)) }
{
    match places.get_mut(key) {
        Some(list) => {
            list.push(place)?;
        }
        None => {
            let mut list = PlaceList::new(alloc);
            list.push(place)?;
            places.insert(*key, list)?;
        }
    }
    Ok(())
}

/// The last place with a block up to `at`, by bisection.
fn last_place(places: &[Place], at: u32) -> Option<Place>
    requires { IsNonDecreasingBy block_of places.now }
    ensures { result ≡ last_up_to at places.now }
{
    let end = places.partition_point(
        |place: &Place| -> bool
            ensures { result ≡ nat_le place.now.block at }
        { place.block <= at },
    );
    if end == 0 {
        return None;
    }
    Some(places[end - 1])
}

/// The index of the last row of the key with a block up to `at`.
pub(crate) fn row_up_to(places: &BTreeMap<Key, PlaceList>, key: &Key, at: u32) -> Option<u32>
    requires { (rows : List Row) × AllPairs StandsBefore rows × ArePlaces rows places.now }
    ensures { (rows : List Row) → ArePlaces rows places.now → result ≡ index_up_to rows key.now at }
{
    match places.get(key) {
        None => None,
        Some(list) => match last_place(list.as_slice(), at) {
            None => None,
            Some(place) => Some(place.row),
        },
    }
}
