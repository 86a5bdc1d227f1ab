//! From a version of a key to the one before it, and to the last one up to a block.

ghost use Rattle.std.specs.{
  Prelude.{◌≡◌, ◌<◌, ◌≤◌, ◌+◌, length, Some, slice_get, IfSome},
  Option.{option_map},
};
ghost use Rattle.lc_base.specs.{
  History.{below, latest, newest},
  declared.row.Row.{Row},
};
ghost use Rattle.skip_links.specs.Paths.{path};
ghost use Rattle.plain_rows.specs.Places.{IsRowAt};
ghost use Rattle.entry_store.specs.Steps.{raised_count};
ghost use Rattle.prov_query.specs.merkle_dag.Ledger.{most_looked_at};
ghost use Rattle.range_proof.specs.{
  declared.going_back.LastVersion.{LastVersion},
  Finding.{unless_before, index_unless_before},
};

use entry_store::{EntryId, Hop};
use lc_base::Key;
use prov_query::{Counter, Lineage, Steps};

/// The last version of a key up to a block.
#[derive(Clone, Copy)]
pub(crate) struct LastVersion {
    /// The index of its row.
    pub index: u32,
    /// The index of the row of the version before it; `None` if there is none, or if it is of a
    /// block before the first one of the range.
    pub previous: Option<u32>,
}

/// The index of the row that a link leads to, unless it is of a block before `from`.
fn leads_to(link: Option<Hop>, from: u32) -> Option<u32>
    ensures { result ≡ index_unless_before from link }
{
    match link {
        None => None,
        Some(hop) => {
            if hop.block < from {
                None
            } else {
                Some(hop.id.0)
            }
        }
    }
}

/// The index of the row that the lowest link leads to, unless it is of a block before `from`.
fn lowest(hops: &[Hop], from: u32) -> Option<u32>
    ensures { result ≡ index_unless_before from (slice_get hops.now 0) }
{
    leads_to(hops.first().copied(), from)
}

/// The index of the row of the version before that of the row at an index; `None` if there is none,
/// or if it is of a block before `from`. The version at the index is looked at, and counted; the
/// one before it isn't.
pub(crate) fn previous<C: Counter>(
    lineage: &Lineage,
    index: u32,
    from: u32,
    steps: &mut Steps<C>,
) -> Option<u32>
    requires within { index < length lineage.now.rows }
    ensures previous { (row : Row) → slice_get lineage.now.rows index ≡ Some row
        → IsRowAt lineage.now.rows result
        (unless_before from (newest (below lineage.now.rows row.block) row.key)) }
    ensures back { IfSome result (λ older. older < index) }
    ensures step { steps.new ≡ raised_count steps.old 1 }
    ensures never_less { steps.old ≤ steps.new }
{
    // By this call contracts know that the rows are a lawful history.
    let _count = lineage.row_count();
    let links = lineage.store().entry(EntryId(index), steps);
    lowest(links.hops.as_slice(), from)
}

/// The last version of a key up to `to`; `None` if there is none, or if it is of a block before
/// `from`. The count rises by the length of the path of its lookup, which ends at that version: so
/// it is known from there which one was before it.
pub(crate) fn last<C: Counter>(
    lineage: &Lineage,
    key: &Key,
    from: u32,
    to: u32,
    steps: &mut Steps<C>,
) -> Option<LastVersion>
    ensures last { IsRowAt lineage.now.rows (option_map (λ (last : LastVersion). last.index) result)
        (unless_before from (latest lineage.now.rows key.now to)) }
    ensures previous { IfSome result (λ (last : LastVersion). (row : Row)
        → slice_get lineage.now.rows last.index ≡ Some row
        → IsRowAt lineage.now.rows last.previous
        (unless_before from (newest (below lineage.now.rows row.block) row.key))) }
    ensures count { steps.new ≡ raised_count steps.old (length (path lineage.now.rows key.now to)) }
    ensures few { steps.new ≤ steps.old + most_looked_at lineage.now.digests }
{
    // By this call contracts know that the rows are a lawful history.
    let _count = lineage.row_count();
    match lineage.latest(key, to, steps) {
        None => None,
        Some(found) => {
            let index = found.id.0;
            if lineage.row_facts(index).block < from {
                None
            } else {
                let previous = leads_to(found.previous, from);
                Some(LastVersion { index, previous })
            }
        }
    }
}
