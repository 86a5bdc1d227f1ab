//! One open list for each key, by the index of the key: closing a list hands it out, and opens an
//! empty one in its place.

ghost use Rattle.std.specs.Prelude.{◌≡◌, ◌<◌, [], ◌∷◌, ◌++◌, List, length, map, slice_index_or};
ghost use Rattle.std.specs.Prelude.{slice_set, OnErr, OnOk, IfOk};
ghost use Rattle.lc_base.specs.declared.row.Dep.{Dep};
ghost use Rattle.forward_links.specs.{
  Lists.{
    Use,
    closed_list,
    closed_of,
    emptied_at,
    kept_at,
    kept_of,
    open_list,
    open_of,
    rows_of,
    with_one_at,
    with_use_at,
  },
  declared.limits.TheConstants.{MAX_LISTS},
};

use crate::kept_list::{Closed, KeptList};
use crate::open_list::OpenList;
use lc_base::{Dep, Memory};
use std::alloc::Global;
use std::marker::Model;
use std::mem;

/// One open list for each key: of the versions that were derived from the key's newest version.
#[derive(Drop)]
pub struct OpenLists {
    lists: Vec<KeptList>,
}

impl Model for OpenLists {
    ghost use Rattle.std.specs.Prelude.{List};
    ghost use Rattle.forward_links.specs.declared.kept_list.KeptList.{KeptList};

    ghost Value = { List KeptList };

    ghost view = { λ kept. kept.lists.items };
}

impl OpenLists {
    /// No lists. It takes no memory.
    pub fn new(alloc: Global) -> OpenLists
        ensures { result ≡ [] }
    {
        OpenLists {
            lists: Vec::new(alloc),
        }
    }

    /// Adds an empty list, and returns its index. Out of memory, the lists stay as they were.
    pub fn add_key(&mut self) -> Result<u32, Memory>
        requires { length self.old < MAX_LISTS }
        ensures index { IfOk result (λ index. index ≡ length self.old) }
        ensures ok { OnOk result (self.new ≡ self.old ++ kept_of [] ∷ []) }
        ensures err { OnErr result (self.new ≡ self.old) }
    {
        let index = self.lists.len() as u32;
        let alloc = *self.lists.allocator();
        self.lists.push(KeptList::new(alloc))?;
        Ok(index)
    }

    /// Appends a use to the list at an index: the version that was derived, and the index of its
    /// row. Out of memory, the lists stay as they were.
    pub fn add(&mut self, index: u32, dep: &Dep, row: u32) -> Result<(), Memory>
        requires { index < length self.old }
        ensures kept { OnOk result (self.new ≡ with_one_at self.old index dep.now row) }
        ensures uses { (lists : List (List Use)) → self.old ≡ map kept_of lists
            → OnOk result (self.new ≡ map kept_of
            (with_use_at lists index (record { version = dep.now; row = row }))) }
        ensures err { OnErr result (self.new ≡ self.old) }
    {
        self.lists[index as usize].push(dep, row)?;
        Ok(())
    }

    /// Closes the list at an index, which is handed out; an empty one is open in its place. It
    /// takes no memory.
    #[tactic(auto, using(crate::proofs::Growing::closed_uses, crate::proofs::Growing::uses_emptied))]
    pub fn close(&mut self, index: u32) -> Closed
        requires { index < length self.old }
        ensures closed { result ≡ closed_list (kept_at self.old index) }
        ensures emptied { self.new ≡ emptied_at self.old index }
        ensures uses { (lists : List (List Use)) → self.old ≡ map kept_of lists
            → result ≡ closed_of (slice_index_or lists index []) }
        ensures others { (lists : List (List Use)) → self.old ≡ map kept_of lists
            → self.new ≡ map kept_of (slice_set lists index []) }
    {
        let alloc = *self.lists.allocator();
        let list = mem::replace(&mut self.lists[index as usize], KeptList::new(alloc));
        list.close()
    }

    /// The number and the digest of the list at an index.
    #[tactic(auto, using(crate::proofs::Growing::open_uses))]
    pub fn peek(&self, index: u32) -> OpenList
        requires { index < length self.now }
        ensures kept { result ≡ open_list (kept_at self.now index) }
        ensures uses { (lists : List (List Use)) → self.now ≡ map kept_of lists
            → result ≡ open_of (slice_index_or lists index []) }
    {
        self.lists[index as usize].open()
    }

    /// The indexes of the rows of the uses of the list at an index, in the order of the uses.
    #[tactic(auto, using(crate::proofs::Growing::rows_kept))]
    pub fn list(&self, index: u32) -> &[u32]
        requires { index < length self.now }
        ensures kept { result.now ≡ (kept_at self.now index).rows }
        ensures uses { (lists : List (List Use)) → self.now ≡ map kept_of lists
            → result.now ≡ rows_of (slice_index_or lists index []) }
    {
        self.lists[index as usize].rows.as_slice()
    }
}
