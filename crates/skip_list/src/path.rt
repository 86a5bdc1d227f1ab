//! Lists the versions that a lookup looks at: their blocks are its path.

ghost use Rattle.std.specs.Prelude.{◌≡◌, List, length, map, Some, IfOk};
ghost use Rattle.skip_links.specs.Paths.{path_over};
ghost use Rattle.entry_store.specs.{declared.entry.Hop.{Hop}, Steps.{raised_count}};
ghost use Rattle.skip_list.specs.{
  Towered.{blocks_of, IsTowered},
  LookedAt.{next_entry, entry_block, AreAmong},
};

use crate::lookup::{Turn, path_next};
use entry_store::{Counter, EntryId, EntryList, Steps, Store};
use lc_base::Memory;
use std::alloc::Global;

fn next_entry(turn: Turn) -> Option<EntryId>
    ensures { result ≡ next_entry turn }
{
    match turn {
        Turn::Hop(id) => Some(id),
        Turn::Answer => None,
        Turn::Nothing => None,
    }
}

/// The versions that a lookup from the newest one looks at, in this order. They are versions of the
/// key, and their blocks are the path. The count rises by their number.
pub fn path_entries<C: Counter>(
    alloc: Global,
    store: &Store,
    newest: EntryId,
    at: u32,
    steps: &mut Steps<C>,
) -> Result<EntryList, Memory>
    requires towered { (versions : List Hop) × IsTowered store.now newest versions }
    ensures path { (versions : List Hop) → IsTowered store.now newest versions
        → IfOk result (λ ids. map (entry_block store.now) ids ≡ map Some (path_over (blocks_of versions) at)) }
    ensures among { (versions : List Hop) → IsTowered store.now newest versions → IfOk result (AreAmong versions) }
    ensures count { IfOk result (λ ids. steps.new ≡ raised_count steps.old (length ids)) }
{
    // By this call contracts know that the count fits into a u64.
    let _count = steps.count();
    let mut ids = EntryList::new(alloc);
    let mut next = Some(newest);
    while let Some(id) = next {
        ids.push(id)?;
        next = next_entry(path_next(store, id, at, steps));
    }
    Ok(ids)
}
