//! Lists whose items are reference-counted, so that a prefix copies no item.

ghost use Rattle.std.specs.{
  Prelude.{◌≡◌, ◌<◌, ◌≤◌, [], ◌∷◌, ◌++◌, length, map, take, get_or, IfOk, OnOk, OnErr},
  Rc.{rc_value},
};

use lc_base::Memory;
use std::alloc::{AllocError, Global};
use std::marker::Model;
use std::rc::Rc;

/// A list that grows at its end and whose items never change; its prefixes share them.
#[derive(Drop)]
pub struct Shared<T> {
    items: Vec<Rc<T>>,
}

impl<T> Model for Shared<T> {
    ghost use Rattle.std.specs.Prelude.{List as Items, map};
    ghost use Rattle.std.specs.Rc.{rc_value};

    ghost Value = { Items T };

    ghost view = { λ list. map rc_value list.items.items };
}

/// A list that shares all these items.
fn shared_prefix<T: Drop>(alloc: Global, items: &[Rc<T>]) -> Result<Vec<Rc<T>>, AllocError>
    ensures { IfOk result (λ all. map rc_value all.items ≡ map rc_value items.now) }
{
    let mut all = Vec::with_capacity(alloc, items.len())?;
    for item in items {
        all.push(item.clone()?)?;
    }
    Ok(all)
}

impl<T: Drop> Shared<T> {
    /// The empty list. It takes no memory.
    pub fn new(alloc: Global) -> Self
        ensures { result ≡ [] }
    {
        Shared {
            items: Vec::new(alloc),
        }
    }

    /// The allocator of the list.
    pub fn allocator(&self) -> Global {
        *self.items.allocator()
    }

    /// The number of items.
    pub fn len(&self) -> usize
        ensures { result ≡ length self.now }
    {
        self.items.len()
    }

    /// Appends an item. If memory runs out, the list stays as it was.
    pub fn push(&mut self, item: T) -> Result<(), Memory>
        ensures ok { OnOk result (self.new ≡ self.old ++ item ∷ []) }
        ensures err { OnErr result (self.new ≡ self.old) }
    {
        let item = Rc::new(self.allocator(), item)?;
        self.items.push(item)?;
        Ok(())
    }

    /// The item at an index, from 0.
    pub fn at(&self, index: usize) -> &T
        requires { index < length self.now }
        ensures { result.now ≡ get_or self.now index result.now }
    {
        &self.items[index]
    }

    /// The first `count` items, which are shared with this list.
    pub fn prefix(&self, count: usize) -> Result<Self, Memory>
        requires { count ≤ length self.now }
        ensures { IfOk result (λ prefix. prefix ≡ take count self.now) }
    {
        let items = shared_prefix(self.allocator(), &self.items[..count])?;
        Ok(Shared { items })
    }
}
