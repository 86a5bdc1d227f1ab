//! The rows of the versions of a key between two blocks: from the last of them, one after another
//! by the lowest link.

ghost use Rattle.std.specs.Prelude.{◌≡◌, ◌≤◌, ◌+◌, length, reverse, IfOk};
ghost use Rattle.entry_store.specs.Steps.{raised_count};
ghost use Rattle.prov_query.specs.merkle_dag.Ledger.{most_looked_at};
ghost use Rattle.root_laws.specs.{Ranges.{rows_between}, RangeSteps.{range_steps}};
ghost use Rattle.range_proof.specs.Finding.{AreRowsAt};

use crate::going_back::{last, previous};
use lc_base::{Key, Memory};
use plain_rows::IndexList;
use prov_query::{Counter, Lineage, Steps};
use std::alloc::Global;

/// The indexes of the rows of the versions of a key in the blocks from `from` to `to`, the last one
/// first. The count rises by the number of the versions that are looked at: those on the path of
/// the lookup of the last one up to `to`, and each further one in the range once.
pub fn indexes_between<C: Counter>(
    alloc: Global,
    lineage: &Lineage,
    key: &Key,
    from: u32,
    to: u32,
    steps: &mut Steps<C>,
) -> Result<IndexList, Memory>
    ensures between { IfOk result (λ indexes. AreRowsAt lineage.now.rows indexes
        (reverse (rows_between lineage.now.rows key.now from to))) }
    ensures counted { IfOk result (λ _. steps.new
        ≡ raised_count steps.old (range_steps lineage.now.rows key.now from to)) }
    ensures never_less { steps.old ≤ steps.new }
    ensures rises { steps.new
        ≤ raised_count steps.old (range_steps lineage.now.rows key.now from to) }
    ensures few { steps.new ≤ steps.old + (most_looked_at lineage.now.digests
        + length (rows_between lineage.now.rows key.now from to)) }
{
    // By these calls contracts know that the rows are a lawful history, and that the count is
    // within its type.
    let _rows = lineage.row_count();
    let _count = steps.count();
    let mut found = IndexList::new(alloc);
    let Some(last) = last(lineage, key, from, to, steps) else {
        return Ok(found);
    };
    found.push(last.index)?;
    let mut next = last.previous;
    while let Some(index) = next {
        found.push(index)?;
        next = previous(lineage, index, from, steps);
    }
    Ok(found)
}
