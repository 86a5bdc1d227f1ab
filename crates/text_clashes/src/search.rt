//! Searches for the first clash while the texts of the second list come, one after another: what is
//! kept is a table of the first list, and the first clash so far.

ghost use Rattle.std.specs.Prelude.{◌≡◌, ◌++◌, ◌∷◌, [], ℕ, List, IfOk};
ghost use Rattle.text_clashes.specs.{
  Places.{IsTable},
  Search.{IsWithin},
  Searching.{HasSearched, IsFirstFound, IsFirstPair, Searches, found_with},
};

use crate::found::Found;
use crate::table::{Table, first_other, table_of};
use lc_base::{Bytes, Memory, TextList};
use std::alloc::Global;
use std::marker::Model;

/// A search for the first clash of some texts with others, which come one after another.
#[derive(Drop)]
pub struct ClashSearch {
    given: TextList,
    table: Table,
    found: Option<Found>,
}

impl Model for ClashSearch {
    ghost use Rattle.text_clashes.specs.Search.{Search, IsKeptSearch};

    ghost Value = { Search };

    ghost view = { λ search. record { given = search.given; found = search.found } };

    ghost invariant = { λ search. IsKeptSearch search.given search.table search.found };
}

/// The first clash, after one more text came; `place` is that of the first given text that it
/// clashes with.
fn found_with(found: Option<Found>, place: usize, text: Bytes) -> Option<Found>
    ensures { result ≡ found_with found place text }
{
    match found {
        None => Some(Found { place, text }),
        Some(before) => {
            if place < before.place {
                Some(Found { place, text })
            } else {
                Some(before)
            }
        }
    }
}

/// The first clash, after one more text came.
fn found_after(table: &Table, given: &[Bytes], found: Option<Found>, text: Bytes) -> Option<Found>
    requires table { IsTable given.now table.now }
    requires within { IsWithin given.now found }
    ensures within { IsWithin given.now result }
    ensures first { (own : List (List ℕ)) → IsFirstFound given.now own found
        → IsFirstFound given.now (own ++ text ∷ []) result }
{
    match first_other(table, given, text.as_slice()) {
        None => found,
        Some(place) => found_with(found, place, text),
    }
}

/// The texts of the first clash.
fn pair_of(given: &TextList, found: Option<Found>) -> Result<Option<(Bytes, Bytes)>, Memory>
    requires { IsWithin given.now found }
    ensures { IfOk result (λ pair. (own : List (List ℕ)) → IsFirstFound given.now own found
        → IsFirstPair given.now own pair) }
{
    match found {
        None => Ok(None),
        Some(found) => {
            let text = given.as_slice()[found.place].copy()?;
            Ok(Some((text, found.text)))
        }
    }
}

impl ClashSearch {
    /// A search for these texts; no other text has come yet.
    pub fn new(alloc: Global, given: TextList) -> Result<ClashSearch, Memory>
        ensures { IfOk result (HasSearched given []) }
    {
        let table = table_of(alloc, given.as_slice())?;
        Ok(ClashSearch {
            given,
            table,
            found: None,
        })
    }

    /// Adds the next text.
    pub fn add(&mut self, text: Bytes)
        ensures { Searches (text ∷ []) self.old self.new }
    {
        let found = self.found.take();
        self.found = found_after(&self.table, self.given.as_slice(), found, text);
    }

    /// The first clash of the given texts with those that came: a text of each, which differ and
    /// have one SHA-256 digest, the first by the place among the given texts and then by that among
    /// the others; `None` exactly if no two do.
    pub fn finish(self) -> Result<Option<(Bytes, Bytes)>, Memory>
        ensures { IfOk result (λ pair. (given own : List (List ℕ)) → HasSearched given own self
            → IsFirstPair given own pair) }
    {
        let ClashSearch { given, found, .. } = self;
        pair_of(&given, found)
    }
}
