//! Lists that grow at their end. Each keeps the allocator that it was made with.

ghost use Rattle.std.specs.{
  Prelude.{◌≡◌, ◌==◌, [], ◌∷◌, ◌++◌, length, slice_get, Ok, OnOk, OnErr, IfOk},
  Option.{option_copied},
};

use crate::digest::Digest;
use crate::key::Key;
use crate::memory::Memory;
use crate::row::{Dep, Row, Version};
use crate::value::Value;
use std::alloc::Global;
use std::marker::Model;

/// A value that can be copied, if there is memory.
pub trait Duplicate: Drop {
    /// An equal value.
    fn copy(&self, alloc: Global) -> Result<Self, Memory>
        ensures { IfOk result (λ copy. copy ≡ self.now) };
}

/// A list that grows at its end, and keeps the allocator that it was made with.
#[derive(Drop)]
pub struct Seq<T> {
    items: Vec<T>,
}

impl<T> Model for Seq<T> {
    ghost use Rattle.std.specs.Prelude.{List as Items};

    ghost Value = { Items T };

    ghost view = { λ list. list.items.items };
}

/// A byte string.
pub type Bytes = Seq<u8>;
/// A list of keys.
pub type KeyList = Seq<Key>;
/// A list of dependencies.
pub type DepList = Seq<Dep>;
/// A list of rows.
pub type RowList = Seq<Row>;
/// A list of versions.
pub type VersionList = Seq<Version>;
/// A list of values.
pub type ValueList = Seq<Value>;
/// A list of digests.
pub type DigestList = Seq<Digest>;
/// A list of byte strings.
pub type TextList = Seq<Bytes>;

impl<T> Seq<T> {
    /// The empty list. It takes no memory.
    pub fn new(alloc: Global) -> Self
        ensures { result ≡ [] }
    {
        Seq {
            items: Vec::new(alloc),
        }
    }

    /// The list of these items, which takes no further memory.
    pub fn from_vec(items: Vec<T>) -> Self
        ensures { result ≡ items.items }
    {
        Seq { items }
    }

    /// The items as a vector, which keeps the allocator. It takes no memory.
    pub fn into_vec(self) -> Vec<T>
        ensures { result.items ≡ self }
    {
        self.items
    }

    /// The number of items.
    pub fn len(&self) -> usize
        ensures { result ≡ length self.now }
    {
        self.items.len()
    }

    /// Whether the list is empty.
    pub fn is_empty(&self) -> bool
        ensures { result ≡ (length self.now == 0) }
    {
        self.items.is_empty()
    }

    /// The item at an index, from 0, or `None` if the index is past the end.
    pub fn get(&self, i: usize) -> Option<&T>
        ensures { option_copied result ≡ slice_get self.now i }
    {
        self.items.get(i)
    }

    /// The allocator of the list.
    pub fn allocator(&self) -> Global {
        *self.items.allocator()
    }

    /// All items, in order.
    pub fn as_slice(&self) -> &[T]
        ensures { result.now ≡ self.now }
    {
        self.items.as_slice()
    }
}

impl<T: Drop> Seq<T> {
    /// Appends an item. If memory runs out, the list stays as it was.
    pub fn push(&mut self, item: T) -> Result<(), Memory>
        ensures ok { OnOk result (self.new ≡ self.old ++ item ∷ []) }
        ensures err { OnErr result (self.new ≡ self.old) }
    {
        self.items.push(item)?;
        Ok(())
    }

    /// Appends all items of another list, in order. If memory runs out, the list stays as it was.
    pub fn append(&mut self, other: Seq<T>) -> Result<(), Memory>
        ensures ok { OnOk result (self.new ≡ self.old ++ other) }
        ensures err { OnErr result (self.new ≡ self.old) }
    {
        let mut items = other.items;
        self.items.append(&mut items)?;
        Ok(())
    }
}

impl<T: Copy> Duplicate for T {
    fn copy(&self, _alloc: Global) -> Result<T, Memory>
        ensures { result ≡ Ok self.now }
    {
        Ok(*self)
    }
}

impl<T: Duplicate> Seq<T> {
    /// An equal list, with the same allocator.
    pub fn copy(&self) -> Result<Self, Memory>
        ensures { IfOk result (λ copy. copy ≡ self.now) }
    {
        Ok(Seq {
            items: copy_items(self.allocator(), self.items.as_slice())?,
        })
    }
}

impl<T: Duplicate> Duplicate for Seq<T> {
    fn copy(&self, alloc: Global) -> Result<Seq<T>, Memory> {
        Ok(Seq {
            items: copy_items(alloc, self.items.as_slice())?,
        })
    }
}

impl Bytes {
    /// All bytes, in order.
    pub fn as_bytes(&self) -> &[u8]
        ensures { result.now ≡ self.now }
    {
        self.items.as_slice()
    }
}

fn copy_items<T: Duplicate>(alloc: Global, all: &[T]) -> Result<Vec<T>, Memory>
    ensures { IfOk result (λ copy. copy.items ≡ all.now) }
{
    let mut copy = Vec::with_capacity(alloc, all.len())?;
    for item in all {
        copy.push(item.copy(alloc)?)?;
    }
    Ok(copy)
}
