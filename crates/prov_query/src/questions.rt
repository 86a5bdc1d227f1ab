//! Answers a question about the rows of a lineage up to a block, and refuses one past the last
//! block before it reads anything.

ghost use Rattle.std.specs.Prelude.{◌≡◌, ◌≤◌, ◌+◌, true, IfOk, IsErrOf};
ghost use Rattle.lc_base.specs.History.{scan};
ghost use Rattle.lc_io.specs.Scratch.{is_known};
ghost use Rattle.prov_query.specs.{Bodiless.{IsButForBody}, Asking.{IsAnswered, IsCounted}};
ghost use Rattle.merkle_dag.specs.{
  Ledger.{most_looked_at},
  Lineage.{ledger_in, AgreesWith, LeavesLineage},
  Questions.{TellsPastHead},
};

use crate::answers::answer;
use lc_base::{Answer, Query};
use lc_io::Scratch;
use merkle_dag::{Counter, Lineage, QueryError, Steps};
use std::alloc::Global;

/// The answer to a question about the blocks up to the one that it names. If it is not known which
/// bytes the device holds, nothing is promised of the value and of the dependencies, and of all
/// else as much as if it were. The lineage stays as it was, but for the bodies at hand, whether
/// there is an answer or not. The count rises by the number of the versions of the key that are
/// looked at: those of the path, also if the device fails or memory runs out, and none past the
/// last block. It never rises by more than `2 * B + 2`, where `B` is the number of binary digits of
/// the last block's number.
pub fn ask<C: Counter, S: Scratch>(
    alloc: Global,
    lineage: &mut Lineage,
    scratch: &mut S,
    query: &Query,
    steps: &mut Steps<C>,
) -> Result<Answer, QueryError>
    requires agrees { AgreesWith lineage.old (S.state scratch.old) }
    ensures answered { is_known (S.state scratch.old) ≡ true
        → IsAnswered (ledger_in lineage.old) query.now result }
    ensures always { IfOk result (IsButForBody (scan lineage.old.rows query.now)) }
    ensures beyond { TellsPastHead lineage.old.digests query.now.at result }
    ensures counted { IsCounted (ledger_in lineage.old) query.now result steps.old steps.new }
    ensures few { steps.new ≤ steps.old + most_looked_at lineage.old.digests }
    ensures leaves { LeavesLineage S.state S.scratch_faults lineage.old scratch.old lineage.new
        scratch.new (IsErrOf result QueryError.Fault) }
{
    if lineage.digest(query.at).is_none() {
        return Err(QueryError::Beyond {
            head: lineage.head(),
        });
    }
    Ok(answer(alloc, lineage, scratch, query, steps)?)
}
