//! The headers and the bodies of versions: headers are made of what is in memory, and bodies are
//! read from the scratch device.

ghost use Rattle.std.specs.{
  Prelude.{◌≡◌, ◌<◌, ◌≤◌, ◌+◌, true, length, slice_get, Some, IfOk, OnOk, IsErrOf},
  List.{All, AllByRecursion, filter_map},
  Option.{option_map},
};
ghost use Rattle.lc_base.specs.{declared.row.Row.{Row}, History.{latest}};
ghost use Rattle.lc_io.specs.Scratch.{is_known};
ghost use Rattle.prov_query.specs.merkle_dag.Lineage.{AgreesWith, LeavesLineage};
ghost use Rattle.proof_checks.specs.{TraceMaking.{item_of, item_in}, TraceTexts.{IsTraceItem}};
ghost use Rattle.lineage_trace.specs.Items.{IsLastUpToItself, with_item};

use entry_store::EntryId;
use entry_views::body_of_bytes;
use lc_base::{Dep, HostError};
use lc_io::Scratch;
use proof_checks::{TraceItem, TraceItemList};
use prov_query::{Counter, Lineage, Steps};
use std::alloc::Global;

/// The header and the body of the row at an index.
fn item_at<C: Counter, S: Scratch>(
    alloc: Global,
    lineage: &mut Lineage,
    scratch: &mut S,
    index: u32,
    steps: &mut Steps<C>,
) -> Result<TraceItem, HostError>
    requires within { index < length lineage.old.rows }
    requires agrees { AgreesWith lineage.old (S.state scratch.old) }
    // If it is known which bytes the scratch device holds:
    ensures item { is_known (S.state scratch.old) ≡ true → (row : Row)
        → slice_get lineage.old.rows index ≡ Some row
        → IfOk result (λ item. item ≡ item_of lineage.old.rows row) }
    // Whether that is known or not:
    ensures lawful { IfOk result IsTraceItem }
    ensures leaves { LeavesLineage S.state S.scratch_faults lineage.old scratch.old lineage.new
        scratch.new (IsErrOf result HostError.Fault) }
{
    // All rows are typed, so their headers and bodies can be spelled.
    let _typed = lineage.row_count();
    let header = lineage.header(index, steps)?;
    let bytes = lineage.body_of(scratch, EntryId(index))?;
    let body = body_of_bytes(alloc, &bytes)?;
    Ok(TraceItem { header, body })
}

/// Appends the header and the body of the version; nothing if the lineage has none up to its block.
fn push_item<C: Counter, S: Scratch>(
    alloc: Global,
    lineage: &mut Lineage,
    scratch: &mut S,
    items: &mut TraceItemList,
    version: &Dep,
    steps: &mut Steps<C>,
) -> Result<(), HostError>
    requires agrees { AgreesWith lineage.old (S.state scratch.old) }
    requires lawful { AllByRecursion IsTraceItem items.old }
    // If it is known which bytes the scratch device holds:
    ensures items { is_known (S.state scratch.old) ≡ true → OnOk result
        (items.new ≡ with_item items.old (option_map (item_of lineage.old.rows)
        (latest lineage.old.rows version.now.key version.now.block))) }
    // Whether that is known or not:
    ensures lawful { OnOk result (AllByRecursion IsTraceItem items.new) }
    ensures few { OnOk result (length items.new ≤ length items.old + 1) }
    ensures leaves { LeavesLineage S.state S.scratch_faults lineage.old scratch.old lineage.new
        scratch.new (IsErrOf result HostError.Fault) }
{
    match lineage.latest_row(&version.key, version.block, steps) {
        None => Ok(()),
        Some(index) => {
            let item = item_at(alloc, lineage, scratch, index, steps)?;
            items.push(item)?;
            Ok(())
        }
    }
}

/// The headers and the bodies of versions, each the last of its key up to its block.
pub(crate) fn items_of<C: Counter, S: Scratch>(
    alloc: Global,
    lineage: &mut Lineage,
    scratch: &mut S,
    versions: &[Dep],
    steps: &mut Steps<C>,
) -> Result<TraceItemList, HostError>
    requires agrees { AgreesWith lineage.old (S.state scratch.old) }
    // If it is known which bytes the scratch device holds:
    ensures items { is_known (S.state scratch.old) ≡ true
        → All (IsLastUpToItself lineage.old.rows) versions.now
        → IfOk result (λ items. items ≡ filter_map (item_in lineage.old.rows) versions.now) }
    // Whether that is known or not:
    ensures lawful { IfOk result (AllByRecursion IsTraceItem) }
    ensures few { IfOk result (λ items. length items ≤ length versions.now) }
    ensures leaves { LeavesLineage S.state S.scratch_faults lineage.old scratch.old lineage.new
        scratch.new (IsErrOf result HostError.Fault) }
{
    let mut items = TraceItemList::new(alloc);
    for version in versions {
        match push_item(alloc, lineage, scratch, &mut items, version, steps) {
            Ok(()) => {}
            Err(error) => return Err(error),
        }
    }
    Ok(items)
}
