//! Versions are read by the indexes of their rows: blocks and transactions are in memory, and
//! values are read from the scratch device.

ghost use Rattle.std.specs.Prelude.{
  ◌≡◌,
  ◌<◌,
  true,
  List,
  length,
  map,
  Some,
  slice_get,
  IfOk,
  IsErrOf,
};
ghost use Rattle.lc_base.specs.declared.row.Row.{Row};
ghost use Rattle.lc_io.specs.Scratch.{is_known};
ghost use Rattle.prov_query.specs.merkle_dag.Lineage.{AgreesWith, LeavesLineage};
ghost use Rattle.root_laws.specs.Ranges.{as_version};
ghost use Rattle.range_proof.specs.{Finding.{AreRowsAt}, Telling.{place_of, AreButForValues}};

use entry_store::EntryId;
use entry_views::value_of_bytes;
use lc_base::{HostError, Version, VersionList};
use lc_io::Scratch;
use prov_query::Lineage;
use std::alloc::Global;

/// The version of the row at an index.
fn version_at<S: Scratch>(
    alloc: Global,
    lineage: &mut Lineage,
    scratch: &mut S,
    index: u32,
) -> Result<Version, HostError>
    requires within { index < length lineage.old.rows }
    requires agrees { AgreesWith lineage.old (S.state scratch.old) }
    // If it is known which bytes the device holds:
    ensures version { is_known (S.state scratch.old) ≡ true → (row : Row)
        → slice_get lineage.old.rows index ≡ Some row
        → IfOk result (λ version. version ≡ as_version row) }
    // Whether that is known or not:
    ensures always { (row : Row) → slice_get lineage.old.rows index ≡ Some row
        → IfOk result (λ version. place_of version ≡ place_of (as_version row)) }
    ensures leaves { LeavesLineage S.state S.scratch_faults lineage.old scratch.old lineage.new
        scratch.new (IsErrOf result HostError.Fault) }
{
    // By this call contracts know that the rows are within their types, so their bodies can be
    // spelled.
    let _count = lineage.row_count();
    let facts = lineage.row_facts(index);
    let (block, tx) = (facts.block, facts.tx);
    let body = lineage.body_of(scratch, EntryId(index))?;
    let value = value_of_bytes(alloc, &body)?;
    Ok(Version { block, tx, value })
}

/// The versions of the rows at these indexes, one after another.
pub(crate) fn versions_at<S: Scratch>(
    alloc: Global,
    lineage: &mut Lineage,
    scratch: &mut S,
    indexes: &[u32],
) -> Result<VersionList, HostError>
    requires rows { (found : List Row) × AreRowsAt lineage.old.rows indexes.now found }
    requires agrees { AgreesWith lineage.old (S.state scratch.old) }
    // If it is known which bytes the device holds:
    ensures versions { is_known (S.state scratch.old) ≡ true → (found : List Row)
        → AreRowsAt lineage.old.rows indexes.now found
        → IfOk result (λ versions. versions ≡ map as_version found) }
    // Whether that is known or not:
    ensures always { (found : List Row) → AreRowsAt lineage.old.rows indexes.now found
        → IfOk result (AreButForValues (map as_version found)) }
    ensures leaves { LeavesLineage S.state S.scratch_faults lineage.old scratch.old lineage.new
        scratch.new (IsErrOf result HostError.Fault) }
{
    let mut versions = VersionList::new(alloc);
    for index in indexes {
        match version_at(alloc, lineage, scratch, *index) {
            Ok(version) => versions.push(version)?,
            Err(error) => return Err(error),
        }
    }
    Ok(versions)
}
