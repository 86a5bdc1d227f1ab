//! All versions of a key from one block of a lineage to another.

ghost use Rattle.std.specs.Prelude.{◌≡◌, ◌≤◌, ◌+◌, true, length, reverse, IfOk, IsErrOf};
ghost use Rattle.entry_store.specs.Steps.{raised_count};
ghost use Rattle.lc_io.specs.Scratch.{is_known};
ghost use Rattle.prov_query.specs.{
  merkle_dag.Ledger.{most_looked_at},
  merkle_dag.Lineage.{AgreesWith, LeavesLineage},
  merkle_dag.Questions.{TellsPastHead},
};
ghost use Rattle.root_laws.specs.{Ranges.{rows_between, between}, RangeSteps.{range_steps}};
ghost use Rattle.range_proof.specs.Telling.{AreButForValues};

use crate::between::indexes_between;
use crate::reading::versions_at;
use lc_base::{HostError, Key, VersionList};
use lc_io::Scratch;
use plain_rows::IndexList;
use prov_query::{Counter, Lineage, QueryError, Steps};
use std::alloc::Global;

/// The indexes in the opposite order.
fn reversed(indexes: IndexList) -> IndexList
    ensures { result ≡ reverse indexes }
{
    let mut indexes = indexes.into_vec();
    indexes.reverse();
    IndexList::from_vec(indexes)
}

/// The versions of a key from one block to another over all rows of a lineage.
fn range_rows<C: Counter, S: Scratch>(
    alloc: Global,
    lineage: &mut Lineage,
    scratch: &mut S,
    key: &Key,
    from: u32,
    to: u32,
    steps: &mut Steps<C>,
) -> Result<VersionList, HostError>
    requires agrees { AgreesWith lineage.old (S.state scratch.old) }
    // If it is known which bytes the device holds:
    ensures versions { is_known (S.state scratch.old) ≡ true → IfOk result
        (λ versions. versions ≡ between lineage.old.rows key.now from to) }
    // Whether that is known or not:
    ensures always { IfOk result (AreButForValues (between lineage.old.rows key.now from to)) }
    ensures counted { IfOk result (λ _. steps.new
        ≡ raised_count steps.old (range_steps lineage.old.rows key.now from to)) }
    ensures never_less { steps.old ≤ steps.new }
    ensures rises { steps.new
        ≤ raised_count steps.old (range_steps lineage.old.rows key.now from to) }
    ensures few { steps.new ≤ steps.old + (most_looked_at lineage.old.digests
        + length (rows_between lineage.old.rows key.now from to)) }
    ensures leaves { LeavesLineage S.state S.scratch_faults lineage.old scratch.old lineage.new
        scratch.new (IsErrOf result HostError.Fault) }
{
    let indexes = indexes_between(alloc, lineage, key, from, to, steps)?;
    let rising = reversed(indexes);
    versions_at(alloc, lineage, scratch, rising.as_slice())
}

/// The versions of a key in the blocks from `from` to `to` of a lineage, in rising order of their
/// blocks, each with its block, its transaction and its value. If `to` is past the last block, the
/// question is refused before anything is read. If it is not known which bytes the device holds,
/// nothing is promised of the values, and of all else as much as if it were.
///
/// `steps` rises by the number of versions that are looked at: those on the path of the lookup of
/// the last version up to `to`, and, if there are versions between the blocks, the others of them.
/// It never rises by more, also if the device fails or memory runs out. That is at most
/// `2 * B + 2` besides the versions between the blocks, where `B` is the number of binary digits of
/// the last block's number. The lineage stays as it was, but for the bodies at hand.
pub fn range<C: Counter, S: Scratch>(
    alloc: Global,
    lineage: &mut Lineage,
    scratch: &mut S,
    key: &Key,
    from: u32,
    to: u32,
    steps: &mut Steps<C>,
) -> Result<VersionList, QueryError>
    requires agrees { AgreesWith lineage.old (S.state scratch.old) }
    requires ordered { from ≤ to }
    // If it is known which bytes the device holds:
    ensures versions { is_known (S.state scratch.old) ≡ true → IfOk result
        (λ versions. versions ≡ between lineage.old.rows key.now from to) }
    // Whether that is known or not: the versions, but for their values.
    ensures always { IfOk result (AreButForValues (between lineage.old.rows key.now from to)) }
    ensures counted { IfOk result (λ _. steps.new
        ≡ raised_count steps.old (range_steps lineage.old.rows key.now from to)) }
    ensures never_less { steps.old ≤ steps.new }
    ensures rises { steps.new
        ≤ raised_count steps.old (range_steps lineage.old.rows key.now from to) }
    ensures few { steps.new ≤ steps.old + (most_looked_at lineage.old.digests
        + length (rows_between lineage.old.rows key.now from to)) }
    ensures unread { length lineage.old.digests ≤ to → steps.new ≡ steps.old }
    ensures beyond { TellsPastHead lineage.old.digests to result }
    ensures leaves { LeavesLineage S.state S.scratch_faults lineage.old scratch.old lineage.new
        scratch.new (IsErrOf result QueryError.Fault) }
{
    // By this call contracts know that the count is within its type.
    let _count = steps.count();
    if lineage.digest(to).is_none() {
        return Err(QueryError::Beyond {
            head: lineage.head(),
        });
    }
    Ok(range_rows(alloc, lineage, scratch, key, from, to, steps)?)
}
