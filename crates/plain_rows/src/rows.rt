ghost use Rattle.std.specs.{
  Prelude.{◌≡◌, [], ◌++◌, length, IfOk, OnOk, OnErr},
  List.{All},
};
ghost use Rattle.lc_base.specs.History.{IsLawful, scan};
ghost use Rattle.root_laws.specs.TypedLedger.{IsTypedRow};

use crate::adding::append;
use crate::asking::answer;
use crate::index::RowsIndex;
use crate::kept::KeptRow;
use lc_base::{Answer, Memory, Query, RowList};
use std::alloc::Global;
use std::marker::Model;

/// The rows of all blocks so far: a lawful history. The index over them is `None` after a call that
/// was to add rows ran out of memory; the next call that adds rows makes it again, and until then
/// each question is answered `Memory`.
#[derive(Drop)]
pub struct PlainRows {
    pub(crate) rows: Vec<KeptRow>,
    pub(crate) index: Option<RowsIndex>,
}

impl Model for PlainRows {
    ghost use Rattle.std.specs.Prelude.{List};
    ghost use Rattle.lc_base.specs.declared.row.Row.{Row};
    ghost use Rattle.plain_rows.specs.Kept.{KeepsRows, rows_of};

    ghost Value = { List Row };

    ghost view = { λ kept. rows_of kept.rows.items };

    ghost invariant = { λ kept. KeepsRows (rows_of kept.rows.items) kept.rows.items kept.index };
}

impl PlainRows {
    /// No rows. It takes no memory.
    #[tactic(auto, using(crate::proofs::Keeping::none_kept, crate::proofs::Keeping::keeps_none))]
    pub fn new(alloc: Global) -> PlainRows
        ensures { result ≡ [] }
    {
        PlainRows {
            rows: Vec::new(alloc),
            index: Some(RowsIndex::new(alloc)),
        }
    }

    /// Appends these rows. If memory runs out, the rows stay as they were.
    pub fn add(&mut self, rows: &RowList) -> Result<(), Memory>
        requires { IsLawful (self.old ++ rows.now) }
        ensures ok { OnOk result (self.new ≡ self.old ++ rows.now) }
        ensures err { OnErr result (self.new ≡ self.old) }
    {
        append(&mut self.rows, &mut self.index, rows.as_slice())
    }

    /// The number of the rows, which are a lawful history, each within its types.
    pub fn len(&self) -> usize
        ensures count { result ≡ length self.now }
        ensures lawful { IsLawful self.now }
        ensures typed { All IsTypedRow self.now }
    {
        self.rows.len()
    }

    /// The answer to a question: that of scanning the rows.
    pub fn ask(&mut self, query: &Query) -> Result<Answer, Memory>
        ensures answer { IfOk result (λ answer. answer ≡ scan self.old query.now) }
        ensures unchanged { self.new ≡ self.old }
    {
        match &self.index {
            None => Err(Memory),
            Some(index) => answer(*self.rows.allocator(), self.rows.as_slice(), index, query),
        }
    }
}
