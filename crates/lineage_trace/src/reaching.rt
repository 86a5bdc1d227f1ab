//! All that is reached from some versions: the last one is looked up, and what it was derived from
//! is wanted too, until nothing more is wanted.

ghost use Rattle.std.specs.{
  Prelude.{◌≡◌, ◌≤◌, ◌+◌, ◌*◌, true, [], length, IfOk, IsErrOf},
  List.{Contains},
};
ghost use Rattle.lc_base.specs.declared.row.Row.{Row};
ghost use Rattle.entry_store.specs.Steps.{raised_count};
ghost use Rattle.lc_io.specs.Scratch.{is_known};
ghost use Rattle.prov_query.specs.{
  merkle_dag.Ledger.{most_looked_at},
  merkle_dag.Lineage.{AgreesWith, LeavesLineage},
};
ghost use Rattle.root_laws.specs.{
  Ancestors.{itself, all_inserted, reached_from},
  AncestorSteps.{steps_of},
};
ghost use Rattle.lineage_trace.specs.Counting.{RisesUpTo};

use crate::finding::insert_deps_of;
use lc_base::{Dep, DepList, HostError};
use lc_io::Scratch;
use prov_query::{Counter, Lineage, Steps};
use row_walks::{Wanted, insert_all};
use std::alloc::Global;

/// The dependencies of a row and all that they were derived from, the last version first. There are
/// at most as many as rows, whatever the bodies on the device say.
pub(crate) fn reached<C: Counter, S: Scratch>(
    alloc: Global,
    lineage: &mut Lineage,
    scratch: &mut S,
    deps: &[Dep],
    steps: &mut Steps<C>,
) -> Result<DepList, HostError>
    requires agrees { AgreesWith lineage.old (S.state scratch.old) }
    // If it is known which bytes the device holds:
    ensures reached { is_known (S.state scratch.old) ≡ true → (row : Row)
        → Contains lineage.old.rows row → deps.now ≡ row.deps
        → IfOk result (λ found. found ≡ reached_from (length lineage.old.rows)
        lineage.old.rows (all_inserted itself row.deps [])) }
    ensures counted { is_known (S.state scratch.old) ≡ true → (row : Row)
        → Contains lineage.old.rows row → deps.now ≡ row.deps
        → IfOk result (λ found. steps.new ≡ raised_count steps.old
        (steps_of lineage.old.rows (reached_from (length lineage.old.rows) lineage.old.rows
        (all_inserted itself row.deps [])))) }
    ensures rises { is_known (S.state scratch.old) ≡ true → (row : Row)
        → Contains lineage.old.rows row → deps.now ≡ row.deps
        → RisesUpTo (steps_of lineage.old.rows (reached_from (length lineage.old.rows)
        lineage.old.rows (all_inserted itself row.deps []))) steps.old steps.new }
    // Whether that is known or not:
    ensures short { IfOk result (λ found. length found ≤ length lineage.old.rows) }
    ensures looked_up { IfOk result (λ found. steps.new ≡ raised_count steps.old
        (steps_of lineage.old.rows found)) }
    ensures few { IfOk result (λ found. steps.new ≤ steps.old + length found
        * most_looked_at lineage.old.digests) }
    ensures bounded { steps.new ≤ steps.old + length lineage.old.rows
        * most_looked_at lineage.old.digests }
    ensures leaves { LeavesLineage S.state S.scratch_faults lineage.old scratch.old lineage.new
        scratch.new (IsErrOf result HostError.Fault) }
{
    // By this call contracts know that the count is within its type.
    let _count = steps.count();
    let mut left = lineage.row_count();
    let mut wanted = Wanted::new(alloc);
    insert_all(&mut wanted, deps)?;
    let mut found = DepList::new(alloc);
    while left > 0 {
        let Some(version) = wanted.take_last() else {
            return Ok(found);
        };
        match insert_deps_of(alloc, lineage, scratch, &mut wanted, &version, steps) {
            Ok(()) => {}
            Err(error) => return Err(error),
        }
        found.push(version)?;
        left -= 1;
    }
    Ok(found)
}
