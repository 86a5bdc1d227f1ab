//! The indexes of the leaves whose hashes are stale. Room for all of them is taken when leaves are
//! added, so that a leaf gets stale without memory.

ghost use Rattle.std.specs.{
  Prelude.{◌≡◌, ◌==◌, ◌<◌, ◌≤◌, ◌+◌, [], Bool, false, List, length, OnOk},
  List.{All},
  Vec.{vec_len, vec_capacity},
};
ghost use Rattle.state_tree.specs.Stale.{with_index, is_marked, AreMarked};

use lc_base::Memory;
use std::alloc::Global;
use std::marker::Model;

/// The indexes of some leaves, each once, in the order in which the leaves got stale.
#[derive(Drop)]
pub(crate) struct StaleLeaves {
    /// For each leaf, whether it is in the list.
    marks: Vec<bool>,
    /// It has room for as many indexes as there are marks.
    list: Vec<u32>,
}

impl Model for StaleLeaves {
    ghost use Rattle.std.specs.Prelude.{length};
    ghost use Rattle.state_tree.specs.Stale.{Indexes, AreKeptStale};

    ghost Value = { Indexes };

    ghost view = { λ stale. record { count = length stale.marks.items; list = stale.list.items } };

    ghost invariant = { λ stale. AreKeptStale stale.marks.items stale.list };
}

/// Takes the marks of the leaves in a list away.
fn unmark(marks: &mut [bool], list: &[u32])
    requires { AreMarked marks.old list.now }
    ensures count { length marks.new ≡ length marks.old }
    ensures none { AreMarked marks.new [] }
{
    for index in list {
        marks[*index as usize] = false;
    }
}

impl StaleLeaves {
    /// No index, and room for none. It takes no memory.
    pub(crate) fn new(alloc: Global) -> StaleLeaves
        ensures { result ≡ record { count = 0; list = [] } }
    {
        StaleLeaves {
            marks: Vec::new(alloc),
            list: Vec::new(alloc),
        }
    }

    /// What these are made with.
    pub(crate) fn allocator(&self) -> Global {
        *self.list.allocator()
    }

    /// Takes room for one more leaf, if there is none for `count` leaves. No leaf gets stale.
    pub(crate) fn make_room(&mut self, count: u32) -> Result<(), Memory>
        requires { count ≤ self.old.count + 1 }
        ensures room { OnOk result (count ≤ self.new.count) }
        ensures kept { self.old.count ≤ self.new.count }
        ensures same { self.new.list ≡ self.old.list }
    {
        if count as usize <= self.marks.len() {
            return Ok(());
        }
        self.list
            .reserve((count as usize).saturating_sub(self.list.len()))?;
        self.marks.push(false)?;
        Ok(())
    }

    /// Notes that a leaf is stale. It takes no memory.
    pub(crate) fn mark(&mut self, index: u32)
        requires { index < self.old.count }
        ensures count { self.new.count ≡ self.old.count }
        ensures list { self.new.list ≡ with_index self.old.list index }
    {
        let place = index as usize;
        if self.marks[place] {
            return;
        }
        self.marks[place] = true;
        match self.list.push(index) {
            Ok(()) => {}
            Err(_) => unreachable!(),
        }
    }

    pub(crate) fn is_empty(&self) -> bool
        ensures { result ≡ (length self.now.list == 0) }
    {
        self.list.is_empty()
    }

    pub(crate) fn as_slice(&self) -> &[u32]
        ensures { result.now ≡ self.now.list }
    {
        self.list.as_slice()
    }

    /// No leaf is stale any more. The room stays.
    pub(crate) fn clear(&mut self)
        ensures { self.new ≡ record { count = self.old.count; list = [] } }
    {
        unmark(self.marks.as_mut_slice(), self.list.as_slice());
        self.list.clear();
    }
}
