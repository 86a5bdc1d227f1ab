//! Items, at most one of each key, in the order in which their keys came first. A key is found by a
//! map to its place, so a look-up takes a time that grows with the logarithm of their number.

ghost use Rattle.std.specs.{
  Prelude.{◌≡◌, ◌<◌, ℕ, false, List, [], ◌∷◌, ◌++◌, length, slice_get, slice_set, OnOk, OnErr},
  Option.{option_copied},
};
ghost use Rattle.dep_capture.specs.Keyed.{place_of, has_key, item_of, with_item};

use crate::access::{Put, Read};
use lc_base::{Key, Memory};
use std::alloc::Global;
use std::collections::BTreeMap;
use std::marker::Model;

/// An item that is found by its key.
pub trait HasKey: Drop {
    /// Its key.
    ghost key: { Self → List ℕ };

    /// Its key.
    fn key(&self) -> &Key
        ensures { result.now ≡ Self.key self.now };
}

impl HasKey for Read {
    ghost key = { λ read. read.key };

    fn key(&self) -> &Key {
        &self.key
    }
}

impl HasKey for Put {
    ghost key = { λ put. put.key };

    fn key(&self) -> &Key {
        &self.key
    }
}

/// Items, and of each key the place of its item.
#[derive(Drop)]
pub(crate) struct Keyed<T: HasKey> {
    items: Vec<T>,
    places: BTreeMap<Key, usize>,
}

impl<T: HasKey> Model for Keyed<T> {
    ghost use Rattle.std.specs.Prelude.{List};
    ghost use Rattle.dep_capture.specs.Keyed.{ArePlaces};

    ghost Value = { List T };

    ghost view = { λ keyed. keyed.items.items };

    ghost invariant = { λ keyed. ArePlaces T.key keyed.places keyed.items.items };
}

/// The item at a place; `None` past the end.
fn item_at<T>(items: &[T], place: usize) -> Option<&T>
    ensures { option_copied result ≡ slice_get items.now place }
{
    items.get(place)
}

/// Sets the item at a place.
fn replace<T: Drop>(items: &mut Vec<T>, place: usize, item: T)
    requires { place < length items.old.items }
    ensures { items.new.items ≡ slice_set items.old.items place item }
{
    items[place] = item;
}

impl<T: HasKey> Keyed<T> {
    /// No item. It takes no memory.
    pub(crate) fn new(alloc: Global) -> Keyed<T>
        ensures { result ≡ [] }
    {
        Keyed {
            items: Vec::new(alloc),
            places: BTreeMap::new(alloc),
        }
    }

    /// The number of items.
    pub(crate) fn len(&self) -> usize
        ensures { result ≡ length self.now }
    {
        self.items.len()
    }

    /// The items, in the order in which their keys came first.
    pub(crate) fn as_slice(&self) -> &[T]
        ensures { result.now ≡ self.now }
    {
        self.items.as_slice()
    }

    /// The allocator that it keeps.
    pub(crate) fn allocator(&self) -> Global {
        *self.items.allocator()
    }

    /// The place of the item of the key, from 0; `None` exactly if the key has no item.
    fn place_of(&self, key: &Key) -> Option<usize>
        ensures { result ≡ place_of T.key self.now key.now }
    {
        match self.places.get(key) {
            None => None,
            Some(place) => Some(*place),
        }
    }

    /// Whether the key has an item.
    pub(crate) fn has(&self, key: &Key) -> bool
        ensures { result ≡ has_key T.key self.now key.now }
    {
        self.place_of(key).is_some()
    }

    /// The item of the key; `None` exactly if the key has no item.
    pub(crate) fn get(&self, key: &Key) -> Option<&T>
        ensures { option_copied result ≡ item_of T.key self.now key.now }
    {
        match self.place_of(key) {
            None => None,
            Some(place) => item_at(self.as_slice(), place),
        }
    }

    /// Appends the item of a new key. Out of memory, nothing changes.
    pub(crate) fn push(&mut self, item: T) -> Result<(), Memory>
        requires { has_key T.key self.old (T.key item) ≡ false }
        ensures ok { OnOk result (self.new ≡ self.old ++ item ∷ []) }
        ensures err { OnErr result (self.new ≡ self.old) }
    {
        let place = self.items.len();
        let key = *item.key();
        self.items.push(item)?;
        match self.places.insert(key, place) {
            Ok(_) => Ok(()),
            Err(_) => {
                self.items.pop();
                Err(Memory)
            }
        }
    }

    /// Sets the item of its key: in the place of the earlier one, or else after the others. Out of
    /// memory, nothing changes.
    pub(crate) fn set(&mut self, item: T) -> Result<(), Memory>
        ensures ok { OnOk result (self.new ≡ with_item T.key self.old item) }
        ensures err { OnErr result (self.new ≡ self.old) }
    {
        match self.place_of(item.key()) {
            None => self.push(item),
            Some(place) => {
                replace(&mut self.items, place, item);
                Ok(())
            }
        }
    }

    /// The items, in the order in which their keys came first.
    pub(crate) fn into_vec(self) -> Vec<T>
        ensures { result.items ≡ self }
    {
        self.items
    }
}
