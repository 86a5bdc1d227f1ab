//! The table of a list of texts: for each digest the first text that has it, and the first that
//! differs from that one and has it too.

ghost use Rattle.std.specs.{
  Prelude.{◌≡◌, ◌==◌, ◌<◌, [], ◌∷◌, ◌++◌, length, IfSome, OnOk, IfOk},
  Cmp.Lexicographic.{pointwise},
};
ghost use Rattle.sha2.specs.Sha256.{sha256};
ghost use Rattle.text_clashes.specs.Places.{IsTable, IsFirstOther, places_with, entry_with, other_in};

use lc_base::{Bytes, Memory};
use sha2::{Digest as _, Sha256};
use std::alloc::Global;
use std::collections::BTreeMap;

/// The places, from 0, of texts of a list that have one digest.
#[derive(Clone, Copy)]
pub(crate) struct Places {
    /// The first of them.
    pub(crate) first: usize,
    /// The first of them that differs from the text at `first`; `None` if none does.
    pub(crate) other: Option<usize>,
}

/// The places of the texts of each digest.
pub(crate) type Table = BTreeMap<[u8; 32], Places>;

/// The digest of a text.
fn text_digest(text: &[u8]) -> [u8; 32]
    ensures { result ≡ sha256 text.now }
{
    let mut hasher = Sha256::new();
    hasher.update(text);
    hasher.finalize()
}

/// Whether two texts are the same.
fn is_same(text: &[u8], other: &[u8]) -> bool
    ensures { result ≡ pointwise ◌==◌ text.now other.now }
{
    text == other
}

/// The places of the texts of one digest, after one more text that has it was added behind `texts`.
fn with_text(places: Places, texts: &[Bytes], text: &[u8]) -> Places
    requires { places.first < length texts.now }
    ensures { result ≡ places_with texts.now text.now places }
{
    if places.other.is_none() && !is_same(texts[places.first].as_slice(), text) {
        return Places {
            first: places.first,
            other: Some(texts.len()),
        };
    }
    places
}

/// The places of the texts with the digest of `text`, after `text` was added behind `texts`;
/// `found` has those before.
fn places_after(found: Option<Places>, texts: &[Bytes], text: &[u8]) -> Places
    requires { IfSome found (λ places. places.first < length texts.now) }
    ensures { result ≡ entry_with texts.now text.now found }
{
    match found {
        None => Places {
            first: texts.len(),
            other: None,
        },
        Some(places) => with_text(places, texts, text),
    }
}

/// Adds a text to the table of those before it.
fn add_text(table: &mut Table, before: &[Bytes], text: &[u8]) -> Result<(), Memory>
    requires { IsTable before.now table.old }
    ensures { OnOk result (IsTable (before.now ++ text.now ∷ []) table.new) }
{
    let digest = text_digest(text);
    let places = places_after(table.get(&digest).copied(), before, text);
    table.insert(digest, places)?;
    Ok(())
}

/// The table of some texts.
pub(crate) fn table_of(alloc: Global, texts: &[Bytes]) -> Result<Table, Memory>
    ensures { IfOk result (IsTable texts.now) }
{
    let mut table = BTreeMap::new(alloc);
    for place in 0..texts.len() {
        add_text(&mut table, &texts[..place], texts[place].as_slice())?;
    }
    Ok(table)
}

/// The first place of a text that differs from this one and has its digest, by the places of the
/// texts with that digest.
fn other_at(found: Option<Places>, texts: &[Bytes], text: &[u8]) -> Option<usize>
    requires { IfSome found (λ places. places.first < length texts.now) }
    ensures { result ≡ other_in texts.now text.now found }
{
    match found {
        None => None,
        Some(places) => {
            if is_same(texts[places.first].as_slice(), text) {
                places.other
            } else {
                Some(places.first)
            }
        }
    }
}

/// The first place of a text that differs from this one and has its digest; `None` if there is
/// none.
pub(crate) fn first_other(table: &Table, texts: &[Bytes], text: &[u8]) -> Option<usize>
    requires { IsTable texts.now table.now }
    ensures { IsFirstOther text.now texts.now result }
{
    let digest = text_digest(text);
    other_at(table.get(&digest).copied(), texts, text)
}
