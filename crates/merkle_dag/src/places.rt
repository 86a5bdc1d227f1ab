//! Where the row of a version is among all rows.

ghost use Rattle.lineage_rewind.specs.plain_rows.Places.{IsRowAt};
ghost use Rattle.merkle_dag.specs.Places.{row_in_block};

use crate::lineage::Lineage;
use lc_base::Key;
use lineage_rewind::{Counter, Steps};

/// The counter of the entries that are read for a place, which nobody asks for. Counts of it are
/// begun in this file alone.
struct Placing;

impl Counter for Placing {
    ghost use Rattle.std.specs.Prelude.{true};

    ghost may_begin = { true };
}

impl Lineage {
    /// The index of the row of the key in a block; `None` exactly if the block has none. It takes
    /// no memory.
    pub fn row_place(&self, key: &Key, block: u32) -> Option<u32>
        ensures { IsRowAt self.now.rows result (row_in_block self.now.rows key.now block) }
    {
        let mut steps = Steps::<Placing>::new();
        let index = self.latest_row(key, block, &mut steps)?;
        if self.row_facts(index).block == block {
            Some(index)
        } else {
            None
        }
    }
}
