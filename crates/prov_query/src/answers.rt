//! The answer to a question over all rows of a lineage, by one lookup and at most one body.

ghost use Rattle.std.specs.Prelude.{
  ◌≡◌,
  ◌<◌,
  ◌≤◌,
  ◌+◌,
  true,
  length,
  slice_get,
  Some,
  IfOk,
  IsErrOf,
};
ghost use Rattle.lc_base.specs.{History.{answer_about, scan}, declared.row.Row.{Row}};
ghost use Rattle.skip_links.specs.Paths.{path};
ghost use Rattle.merkle_dag.specs.{
  entry_store.Steps.{raised_count},
  Ledger.{most_looked_at},
  Lineage.{AgreesWith, LeavesLineage},
};
ghost use Rattle.lc_io.specs.Scratch.{is_known};
ghost use Rattle.prov_query.specs.Bodiless.{IsButForBody};

use crate::found::Found;
use entry_views::{deps_of_bytes, value_of_bytes};
use lc_base::{Answer, HostError, Kind, Query};
use lc_io::Scratch;
use merkle_dag::{Counter, Lineage, Steps};
use std::alloc::Global;

/// The answer about the row at an index. A question of its uses is answered without its body.
fn about<S: Scratch>(
    alloc: Global,
    lineage: &mut Lineage,
    scratch: &mut S,
    index: u32,
    kind: Kind,
) -> Result<Answer, HostError>
    requires within { index < length lineage.old.rows }
    requires agrees { AgreesWith lineage.old (S.state scratch.old) }
    ensures answer { (row : Row) → slice_get lineage.old.rows index ≡ Some row
        → is_known (S.state scratch.old) ≡ true
        → IfOk result (λ answer. answer ≡ answer_about lineage.old.rows kind row.key row) }
    ensures always { (row : Row) → slice_get lineage.old.rows index ≡ Some row
        → IfOk result (IsButForBody (answer_about lineage.old.rows kind row.key row)) }
    ensures leaves { LeavesLineage S.state S.scratch_faults lineage.old scratch.old lineage.new
        scratch.new (IsErrOf result HostError.Fault) }
{
    match kind {
        Kind::Hist => {
            let Found { block, tx, body } = Found::at(lineage, scratch, index)?;
            let value = value_of_bytes(alloc, &body)?;
            Ok(Answer::Hist { block, tx, value })
        }
        Kind::Back => {
            let Found { block, tx: _, body } = Found::at(lineage, scratch, index)?;
            let deps = deps_of_bytes(alloc, &body)?;
            Ok(Answer::Back { block, deps })
        }
        Kind::Fwd => {
            let block = lineage.row_facts(index).block;
            let uses = lineage.uses(index)?;
            Ok(Answer::Fwd { block, uses })
        }
    }
}

/// The answer to a question over all rows of a lineage, by one lookup. If it is not known which
/// bytes the device holds, nothing is promised of the value and of the dependencies, and of all
/// else as much as if it were. The count rises by the number of the versions of the key that are
/// looked at, also if the call fails. The rows stay; `Fault` exactly if a call of the device failed.
pub fn answer<C: Counter, S: Scratch>(
    alloc: Global,
    lineage: &mut Lineage,
    scratch: &mut S,
    query: &Query,
    steps: &mut Steps<C>,
) -> Result<Answer, HostError>
    requires agrees { AgreesWith lineage.old (S.state scratch.old) }
    ensures answer { is_known (S.state scratch.old) ≡ true
        → IfOk result (λ answer. answer ≡ scan lineage.old.rows query.now) }
    ensures always { IfOk result (IsButForBody (scan lineage.old.rows query.now)) }
    ensures count { steps.new ≡ raised_count steps.old
        (length (path lineage.old.rows query.now.key query.now.at)) }
    ensures few { steps.new ≤ steps.old + most_looked_at lineage.old.digests }
    ensures leaves { LeavesLineage S.state S.scratch_faults lineage.old scratch.old lineage.new
        scratch.new (IsErrOf result HostError.Fault) }
{
    match lineage.latest_row(&query.key, query.at, steps) {
        None => Ok(Answer::Nothing),
        Some(index) => about(alloc, lineage, scratch, index, query.kind),
    }
}
