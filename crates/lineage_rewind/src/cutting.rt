//! How many entries are of the blocks up to one: rows are in the order of their blocks, so these
//! are the first entries.

ghost use Rattle.std.specs.Prelude.{ℕ, List};
ghost use Rattle.lc_base.specs.declared.row.Row.{Row};
ghost use Rattle.lineage_index.specs.Settling.{IsStoreOf};
ghost use Rattle.lineage_rewind.specs.Front.{AreUpTo};

use lineage_index::{EntryId, Store};

/// The number of the entries of rows of the blocks up to `at`: they are the first ones.
pub(crate) fn count_up_to(store: &Store, at: u32) -> u32
    requires { (rows : List Row) × IsStoreOf rows store.now }
    ensures { (rows : List Row) → IsStoreOf rows store.now → AreUpTo rows at result }
{
    for index in 0..store.count() {
        if store.facts(EntryId(index)).block > at {
            return index;
        }
    }
    store.count()
}
