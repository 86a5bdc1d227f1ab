//! The last version of a key up to a block, with all of its ancestors.

ghost use Rattle.std.specs.Prelude.{
  ◌≡◌,
  ◌≤◌,
  ◌+◌,
  ◌*◌,
  true,
  length,
  IfSome,
  IfOk,
  IsErrOf,
};
ghost use Rattle.lc_base.specs.History.{latest};
ghost use Rattle.skip_links.specs.Paths.{path};
ghost use Rattle.entry_store.specs.Steps.{raised_count};
ghost use Rattle.lc_io.specs.Scratch.{is_known};
ghost use Rattle.prov_query.specs.{
  merkle_dag.Ledger.{most_looked_at},
  merkle_dag.Lineage.{ledger_in, AgreesWith, LeavesLineage},
  merkle_dag.Questions.{TellsPastHead},
};
ghost use Rattle.root_laws.specs.{
  Ancestors.{trace_at},
  AncestorSteps.{steps_of, ancestors_if_any, trace_steps},
};
ghost use Rattle.lineage_trace.specs.{
  Counting.{RisesUpTo},
  Tracing.{ancestors_in, IsButForAncestors},
};

use crate::finding::look_up;
use crate::reaching::reached;
use lc_base::{HostError, Key};
use lc_io::Scratch;
use prov_query::{Counter, Lineage, QueryError, Steps};
use root_laws::{Trace, trace_steps_are_few};
use row_walks::reversed;
use std::alloc::Global;

/// The newest version of a key up to `at` over all rows of a lineage, with its ancestors; `None`
/// exactly if there is no such version. If it is not known which bytes the device holds, nothing is
/// promised of the ancestors but that they are no more than rows. For each ancestor there is one
/// lookup; `steps` rises by the number of versions that are looked at, also if the call fails. The
/// rows stay; `Fault` exactly if a call of the device failed.
pub fn trace_rows<C: Counter, S: Scratch>(
    alloc: Global,
    lineage: &mut Lineage,
    scratch: &mut S,
    key: &Key,
    at: u32,
    steps: &mut Steps<C>,
) -> Result<Option<Trace>, HostError>
    requires agrees { AgreesWith lineage.old (S.state scratch.old) }
    // If it is known which bytes the device holds:
    ensures traced { is_known (S.state scratch.old) ≡ true
        → IfOk result (λ trace. trace ≡ trace_at lineage.old.rows key.now at) }
    ensures counted { is_known (S.state scratch.old) ≡ true → IfOk result
        (λ trace. steps.new ≡ raised_count steps.old (trace_steps lineage.old.rows key.now at)) }
    ensures rises { is_known (S.state scratch.old) ≡ true
        → RisesUpTo (trace_steps lineage.old.rows key.now at) steps.old steps.new }
    // Whether that is known or not:
    ensures always { IfOk result (IsButForAncestors (trace_at lineage.old.rows key.now at)) }
    ensures short { IfOk result (λ trace. IfSome trace
        (λ trace. length trace.ancestors ≤ length lineage.old.rows)) }
    ensures looked_up { IfOk result (λ trace. steps.new ≡ raised_count steps.old
        (length (path lineage.old.rows key.now at)
        + steps_of lineage.old.rows (ancestors_in trace))) }
    ensures told { IfOk result (λ trace. steps.new ≤ steps.old + (length (ancestors_in trace) + 1)
        * most_looked_at lineage.old.digests) }
    ensures bounded { steps.new ≤ steps.old + (length lineage.old.rows + 1)
        * most_looked_at lineage.old.digests }
    ensures leaves { LeavesLineage S.state S.scratch_faults lineage.old scratch.old lineage.new
        scratch.new (IsErrOf result HostError.Fault) }
{
    // By this call contracts know that the count is within its type.
    let _count = steps.count();
    let found = look_up(alloc, lineage, scratch, key, at, steps)?;
    match found {
        None => Ok(None),
        Some(derived) => {
            let ancestors = reached(alloc, lineage, scratch, derived.deps.as_slice(), steps)?;
            Ok(Some(Trace {
                block: derived.block,
                ancestors: reversed(ancestors),
            }))
        }
    }
}

/// The newest version of a key up to a block of a lineage, with its ancestors; `None` exactly if
/// there is no such version. A block past the last one is refused before anything is read. If it is
/// not known which bytes the device holds, nothing is promised of the ancestors but that they are
/// no more than rows. For each ancestor there is one lookup; `steps` rises by the number of
/// versions that are looked at, also if the device fails or memory runs out. With `N` ancestors it
/// never rises by more than `(N + 1) * (2 * B + 2)`, where `B` is the number of binary digits of
/// the last block's number. The lineage stays as it was, but for the bodies at hand.
pub fn trace<C: Counter, S: Scratch>(
    alloc: Global,
    lineage: &mut Lineage,
    scratch: &mut S,
    key: &Key,
    at: u32,
    steps: &mut Steps<C>,
) -> Result<Option<Trace>, QueryError>
    requires agrees { AgreesWith lineage.old (S.state scratch.old) }
    // If it is known which bytes the device holds:
    ensures traced { is_known (S.state scratch.old) ≡ true
        → IfOk result (λ trace. trace ≡ trace_at lineage.old.rows key.now at) }
    ensures counted { is_known (S.state scratch.old) ≡ true → IfOk result
        (λ trace. steps.new ≡ raised_count steps.old (trace_steps lineage.old.rows key.now at)) }
    ensures rises { is_known (S.state scratch.old) ≡ true
        → RisesUpTo (trace_steps lineage.old.rows key.now at) steps.old steps.new }
    ensures few { is_known (S.state scratch.old) ≡ true → steps.new ≤ steps.old
        + (length (ancestors_if_any lineage.old.rows (latest lineage.old.rows key.now at)) + 1)
        * most_looked_at lineage.old.digests }
    // Whether that is known or not:
    ensures always { IfOk result (IsButForAncestors (trace_at lineage.old.rows key.now at)) }
    ensures short { IfOk result (λ trace. IfSome trace
        (λ trace. length trace.ancestors ≤ length lineage.old.rows)) }
    ensures looked_up { IfOk result (λ trace. steps.new ≡ raised_count steps.old
        (length (path lineage.old.rows key.now at)
        + steps_of lineage.old.rows (ancestors_in trace))) }
    ensures told { IfOk result (λ trace. steps.new ≤ steps.old + (length (ancestors_in trace) + 1)
        * most_looked_at lineage.old.digests) }
    ensures bounded { steps.new ≤ steps.old + (length lineage.old.rows + 1)
        * most_looked_at lineage.old.digests }
    ensures unread { length lineage.old.digests ≤ at → steps.new ≡ steps.old }
    ensures beyond { TellsPastHead lineage.old.digests at result }
    ensures leaves { LeavesLineage S.state S.scratch_faults lineage.old scratch.old lineage.new
        scratch.new (IsErrOf result QueryError.Fault) }
{
    // By these calls contracts know that the count is within its type, and how few versions are
    // looked at.
    let _steps = steps.count();
    let _count = lineage.row_count();
    trace_steps_are_few();
    if lineage.digest(at).is_none() {
        return Err(QueryError::Beyond {
            head: lineage.head(),
        });
    }
    Ok(trace_rows(alloc, lineage, scratch, key, at, steps)?)
}
