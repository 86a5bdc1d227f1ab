//! The items are checked one after another. What is wanted before an item is kept in order, so that
//! the version that the item must be is found at once; nothing else takes memory. Their versions
//! are copied once all are checked.

ghost use Rattle.std.specs.{
  Prelude.{◌≡◌, ◌≤◌, ◌++◌, ◌∷◌, [], length, map, IfOk, IfErr, OnOk},
  Option.{option_map},
};
ghost use Rattle.lc_base.specs.{Answers.{Answers}, declared.limits.TheConstants.{MAX_ROWS}};
ghost use Rattle.proof_verifier.specs.proof_checks.TraceChecks.{
  with_deps,
  after_item,
  after_items,
  version_of_item,
};
ghost use Rattle.trace_verifier.specs.{
  Errors.{fault_told},
  Starting.{wanted_in},
  Items.{item_fault},
  Wanting.{DepsWant, ItemWants, ItemsWant, StartWants, MayRunOut},
};

use crate::error::TraceError;
use crate::item_view::ItemView;
use crate::items_view::ItemsView;
use crate::wanted::Wanted;
use entry_views::{BodyDepView, BodyView};
use lc_base::{Dep, DepList, Memory};
use proof_verifier::{TraceReject, body_digest, header_digest};
use prov_entry::BodyDep;
use std::alloc::Global;

/// Inserts all dependencies of the item with this number, in the order of its body.
#[tactic(auto, using(crate::proofs::Wanting::deps_later, crate::proofs::Wanting::dep_short))]
fn add_all(
    number: u32,
    block: u32,
    deps: BodyDepView,
    wanted: &mut Wanted,
) -> Result<(), TraceError>
    ensures adds { Answers (λ done. wanted.new) fault_told result
        (with_deps number block deps.entry wanted.old) }
    ensures short { IfErr result (MayRunOut
        (λ short. (short ≡ number) × DepsWant number block deps.entry wanted.old) ⊥) }
{
    let mut deps = deps;
    while let Some(dep) = deps.next() {
        wanted.add(number, block, &dep)?;
    }
    Ok(())
}

/// What the start wants, given the block of its version and its body: nothing if there is none.
pub(crate) fn wanted_by_start(
    alloc: Global,
    block: Option<u32>,
    body: Option<&BodyView>,
) -> Result<Wanted, TraceError>
    ensures wanted { Answers (λ wanted. wanted) fault_told result
        (wanted_in block (option_map (λ body. body.now.value) body.entry)) }
    ensures short { IfErr result (MayRunOut (λ short. (short ≡ 0)
        × StartWants block (option_map (λ body. body.now.value) body.entry)) ⊥) }
{
    let mut wanted = Wanted::new(alloc);
    let Some(block) = block else {
        return Ok(wanted);
    };
    let Some(body) = body else {
        return Ok(wanted);
    };
    add_all(0, block, body.deps(), &mut wanted)?;
    Ok(wanted)
}

/// What is wrong with an item where this is the last version that is wanted.
fn item_fault(number: u32, item: &ItemView, last: &BodyDep) -> Option<TraceReject>
    ensures { result ≡ item_fault number item.now last.now }
{
    if last.key.as_bytes() != item.header.fields().key.as_bytes() {
        return Some(TraceReject::Order { item: number });
    }
    if last.block != item.header.fields().block {
        return Some(TraceReject::Order { item: number });
    }
    let computed = header_digest(&item.header);
    if computed.0 != last.digest.0 {
        return Some(TraceReject::Header {
            item: number,
            computed,
        });
    }
    let computed = body_digest(&item.body);
    if computed.0 != item.header.fields().body.0 {
        return Some(TraceReject::Body {
            item: number,
            computed,
        });
    }
    None
}

/// Checks the item with this number: it must be the last version that is wanted, which is wanted no
/// more; what it was derived from directly is.
#[tactic(auto, using(crate::proofs::Wanting::last_short))]
fn check_item(number: u32, item: &ItemView, wanted: &mut Wanted) -> Result<(), TraceError>
    ensures checked { Answers (λ done. wanted.new) fault_told result
        (after_item number item.now wanted.old) }
    ensures short { IfErr result (MayRunOut
        (λ short. (short ≡ number) × ItemWants number item.now wanted.old) ⊥) }
{
    let Some(last) = wanted.take_last() else {
        return Err(TraceError::Rejected(TraceReject::Extra { item: number }));
    };
    if let Some(fault) = item_fault(number, item, &last) {
        return Err(TraceError::Rejected(fault));
    }
    let block = item.header.fields().block;
    add_all(number, block, item.body.deps(), wanted)
}

/// Checks all items, given what is wanted before the first one. Nothing must be wanted after the
/// last one.
#[tactic(auto, using(crate::proofs::Wanting::items_later, crate::proofs::Wanting::item_short))]
pub(crate) fn check_items(items: ItemsView, wanted: Wanted) -> Result<(), TraceError>
    requires { length items ≤ MAX_ROWS }
    ensures checked { Answers (λ done. tt) fault_told result
        (after_items 1 items.entry wanted) }
    ensures short { IfErr result (MayRunOut (ItemsWant 1 items.entry wanted) ⊥) }
{
    let mut items = items;
    let mut wanted = wanted;
    let mut number = 1;
    while let Some(item) = items.next() {
        check_item(number, &item, &mut wanted)?;
        number += 1;
    }
    match wanted.take_last() {
        None => Ok(()),
        Some(_) => Err(TraceError::Rejected(TraceReject::Missing { item: number })),
    }
}

/// Appends the version of an item.
fn push_version(versions: &mut DepList, item: &ItemView) -> Result<(), Memory>
    ensures { OnOk result (versions.new ≡ versions.old ++ version_of_item item.now ∷ []) }
{
    let header = item.header.fields();
    versions.push(Dep {
        key: header.key,
        block: header.block,
    })
}

/// Copies the versions of the items, in their order.
pub(crate) fn versions_of(alloc: Global, items: ItemsView) -> Result<DepList, Memory>
    ensures { IfOk result (λ versions. versions ≡ map version_of_item items.entry) }
{
    let mut items = items;
    let mut versions = DepList::new(alloc);
    while let Some(item) = items.next() {
        push_version(&mut versions, &item)?;
    }
    Ok(versions)
}
