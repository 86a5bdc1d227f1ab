//! One lookup: what a version was derived from directly.

ghost use Rattle.std.specs.{
  Prelude.{◌≡◌, ◌≤◌, ◌+◌, true, length, IfOk, OnOk, IsErrOf},
  Option.{option_map},
};
ghost use Rattle.lc_base.specs.History.{latest};
ghost use Rattle.skip_links.specs.Paths.{path};
ghost use Rattle.entry_store.specs.Steps.{raised_count};
ghost use Rattle.lc_io.specs.Scratch.{is_known};
ghost use Rattle.prov_query.specs.{
  merkle_dag.Ledger.{most_looked_at},
  merkle_dag.Lineage.{AgreesWith, LeavesLineage},
};
ghost use Rattle.root_laws.specs.Ancestors.{itself, all_inserted, deps_of};
ghost use Rattle.row_walks.specs.Finding.{derived_of};
ghost use Rattle.lineage_trace.specs.Finding.{IsButForDeps};

use lc_base::{Dep, HostError, Key, Kind, Query};
use lc_io::Scratch;
use prov_query::{Counter, Lineage, Steps, answer};
use row_walks::{Derived, Wanted, derived_in, insert_found};
use std::alloc::Global;

/// The newest version of a key in the blocks up to `at`; `None` if there is none.
pub(crate) fn look_up<C: Counter, S: Scratch>(
    alloc: Global,
    lineage: &mut Lineage,
    scratch: &mut S,
    key: &Key,
    at: u32,
    steps: &mut Steps<C>,
) -> Result<Option<Derived>, HostError>
    requires agrees { AgreesWith lineage.old (S.state scratch.old) }
    // If it is known which bytes the device holds:
    ensures derived { is_known (S.state scratch.old) ≡ true → IfOk result
        (λ found. found ≡ option_map derived_of (latest lineage.old.rows key.now at)) }
    // Whether that is known or not:
    ensures always { IfOk result (IsButForDeps (latest lineage.old.rows key.now at)) }
    ensures count { steps.new ≡ raised_count steps.old
        (length (path lineage.old.rows key.now at)) }
    ensures few { steps.new ≤ steps.old + most_looked_at lineage.old.digests }
    ensures leaves { LeavesLineage S.state S.scratch_faults lineage.old scratch.old lineage.new
        scratch.new (IsErrOf result HostError.Fault) }
{
    let query = Query {
        kind: Kind::Back,
        key: *key,
        at,
    };
    match answer(alloc, lineage, scratch, &query, steps) {
        Ok(told) => Ok(derived_in(told)),
        Err(error) => Err(error),
    }
}

/// Inserts what a version was derived from directly.
pub(crate) fn insert_deps_of<C: Counter, S: Scratch>(
    alloc: Global,
    lineage: &mut Lineage,
    scratch: &mut S,
    wanted: &mut Wanted,
    version: &Dep,
    steps: &mut Steps<C>,
) -> Result<(), HostError>
    requires agrees { AgreesWith lineage.old (S.state scratch.old) }
    // If it is known which bytes the device holds:
    ensures wanted { is_known (S.state scratch.old) ≡ true → OnOk result
        (wanted.new ≡ all_inserted itself
        (deps_of (latest lineage.old.rows version.now.key version.now.block)) wanted.old) }
    // Whether that is known or not:
    ensures count { steps.new ≡ raised_count steps.old
        (length (path lineage.old.rows version.now.key version.now.block)) }
    ensures few { steps.new ≤ steps.old + most_looked_at lineage.old.digests }
    ensures leaves { LeavesLineage S.state S.scratch_faults lineage.old scratch.old lineage.new
        scratch.new (IsErrOf result HostError.Fault) }
{
    match look_up(alloc, lineage, scratch, &version.key, version.block, steps) {
        Ok(found) => {
            insert_found(wanted, &found)?;
            Ok(())
        }
        Err(error) => Err(error),
    }
}
