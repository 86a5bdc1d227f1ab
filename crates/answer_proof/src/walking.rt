//! The headers on the path of a lookup, the newest version's first.

ghost use Rattle.std.specs.{Prelude.{◌≡◌, ℕ, List, IfOk}, List.{filter_map}};
ghost use Rattle.merkle_dag.specs.lineage_index.OnPath.{AreEntriesIn};
ghost use Rattle.proof_checks.specs.Making.{header_in, path_headers};

use entry_store::EntryId;
use lc_base::{Key, Memory};
use merkle_dag::{Counter, Lineage, Steps};
use proof_codec::HeaderList;
use std::alloc::Global;

/// The headers of the rows of a key, in the order of their entries.
fn headers_of<C: Counter>(
    alloc: Global,
    lineage: &Lineage,
    ids: &[EntryId],
    steps: &mut Steps<C>,
) -> Result<HeaderList, Memory>
    requires { (key : List ℕ) × (blocks : List ℕ) × AreEntriesIn lineage.now.rows key blocks ids.now }
    ensures { (key blocks : List ℕ) → AreEntriesIn lineage.now.rows key blocks ids.now
        → IfOk result (λ headers. headers ≡ filter_map (header_in lineage.now.rows key) blocks) }
{
    // The call makes it known that the rows are lawful.
    let _rows = lineage.row_count();
    let mut headers = HeaderList::new(alloc);
    for id in ids {
        let header = lineage.header(id.0, steps)?;
        headers.push(header)?;
    }
    Ok(headers)
}

/// The headers on the path from the newest version of a key to the last one up to a block.
pub(crate) fn path_headers<C: Counter>(
    alloc: Global,
    lineage: &Lineage,
    key: &Key,
    at: u32,
    steps: &mut Steps<C>,
) -> Result<HeaderList, Memory>
    ensures { IfOk result (λ headers. headers ≡ path_headers lineage.now.rows key.now at) }
{
    let ids = lineage.path(key, at, steps)?;
    headers_of(alloc, lineage, ids.as_slice(), steps)
}
