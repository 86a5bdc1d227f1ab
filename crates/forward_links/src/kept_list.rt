//! A forward list is kept as the indexes of the rows of its uses, and their digest.

ghost use Rattle.std.specs.Prelude.{◌≡◌, [], OnErr, OnOk};
ghost use Rattle.lc_base.specs.declared.row.Dep.{Dep};
ghost use Rattle.forward_links.specs.Lists.{kept_of, closed_list, open_list, with_one};

use crate::open_list::OpenList;
use lc_base::{Dep, Digest, Memory, Seq};
use prov_entry::{no_uses, with_use};
use std::alloc::Global;

/// What is kept of a forward list. The number of its uses is that of the rows.
#[derive(Drop)]
pub(crate) struct KeptList {
    /// The indexes of the rows of its uses, in the order of the uses.
    pub rows: Seq<u32>,
    /// The digest of its uses.
    pub digest: Digest,
}

/// A forward list that was closed.
#[derive(Drop)]
pub struct Closed {
    /// The number of its uses.
    pub count: u64,
    /// The digest of its uses.
    pub digest: Digest,
    /// The indexes of the rows of its uses, in the order of the uses.
    pub rows: Seq<u32>,
}

impl KeptList {
    /// The empty list. It takes no memory.
    pub fn new(alloc: Global) -> KeptList
        ensures { result ≡ kept_of [] }
    {
        KeptList {
            rows: Seq::new(alloc),
            digest: no_uses(),
        }
    }

    /// Appends a use, whose row has this index. Out of memory, the list stays as it was.
    pub fn push(&mut self, dep: &Dep, row: u32) -> Result<(), Memory>
        ensures ok { OnOk result (self.new ≡ with_one self.old dep.now row) }
        ensures err { OnErr result (self.new ≡ self.old) }
    {
        self.rows.push(row)?;
        self.digest = with_use(&self.digest, dep);
        Ok(())
    }

    /// Its number and its digest.
    pub fn open(&self) -> OpenList
        ensures { result ≡ open_list self.now }
    {
        OpenList {
            count: self.rows.len() as u64,
            digest: self.digest,
        }
    }

    /// The list as one that was closed. It takes no memory.
    pub fn close(self) -> Closed
        ensures { result ≡ closed_list self }
    {
        let KeptList { rows, digest } = self;
        Closed {
            count: rows.len() as u64,
            digest,
            rows,
        }
    }
}
