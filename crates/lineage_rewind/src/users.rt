//! The users of a row among the first rows: those of its users whose indexes are below the number
//! of these rows.

ghost use Rattle.std.specs.Prelude.{◌≡◌, ◌∷◌, ◌++◌, [], filter, OnOk, IfOk};
ghost use Rattle.lineage_index.specs.plain_rows.First.{is_below, numbers_below};

use lc_base::Memory;
use lineage_index::IndexList;
use std::alloc::Global;

/// Appends the index of a row if it is below `end`.
fn push_below(list: &mut IndexList, index: u32, end: u32) -> Result<(), Memory>
    ensures { OnOk result (list.new ≡ list.old ++ filter (is_below end) (index ∷ [])) }
{
    if index < end {
        list.push(index)?;
    }
    Ok(())
}

/// The indexes below `end`.
pub(crate) fn indexes_below(alloc: Global, indexes: &[u32], end: u32) -> Result<IndexList, Memory>
    ensures { IfOk result (λ below. below ≡ numbers_below end indexes.now) }
{
    let mut below = IndexList::new(alloc);
    for index in indexes {
        push_below(&mut below, *index, end)?;
    }
    Ok(below)
}
