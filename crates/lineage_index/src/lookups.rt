//! Lookups over the entries of a history: each reads as many entries as its path over the rows has
//! versions.

ghost use Rattle.std.specs.Prelude.{◌≡◌, ◌<◌, ℕ, List, length, None, slice_get, IfOk, IfSome};
ghost use Rattle.std.specs.Prelude.{MatchOption};
ghost use Rattle.lc_base.specs.{declared.row.Row.{Row}, History.{latest}};
ghost use Rattle.skip_links.specs.Paths.{path};
ghost use Rattle.skip_list.specs.{
  entry_store.Steps.{raised_count},
  declared.lookup.Found.{Found},
  Lookups.{IsPrevious},
};
ghost use Rattle.lineage_index.specs.{Entries.{IsNewestOf}, OnPath.{AreEntriesIn}};

use lc_base::Memory;
use skip_list::{Counter, EntryId, EntryList, Found, Steps, Store, find, path_entries};
use std::alloc::Global;

/// The entry of the last row of a key in a block up to `at`, with its lowest link; `None` exactly if
/// there is no such row. `newest` is the entry of the key's newest version. The count rises by the
/// length of the path, and by 0 for a key without versions.
pub fn latest_entry<C: Counter>(
    store: &Store,
    newest: Option<EntryId>,
    at: u32,
    steps: &mut Steps<C>,
) -> Option<Found>
    requires { (rows : List Row) × (key : List ℕ) × IsNewestOf rows key newest store.now }
    ensures latest { (rows : List Row) (key : List ℕ) → IsNewestOf rows key newest store.now
        → MatchOption result (latest rows key at ≡ None)
        (λ (found : Found). (found.id.0 < length rows) × (slice_get rows found.id.0 ≡ latest rows key at)) }
    ensures previous { IfSome result (λ (found : Found). IsPrevious store.now found.id found.previous) }
    ensures count { (rows : List Row) (key : List ℕ) → IsNewestOf rows key newest store.now → steps.new ≡ raised_count steps.old (length (path rows key at)) }
{
    // So that the count is known to be one that a u64 has.
    let _count = steps.count();
    match newest {
        None => None,
        Some(newest) => find(store, newest, at, steps),
    }
}

/// The entries that `latest_entry` looks at, in this order: those of the versions on the path. The
/// count rises by their number.
pub fn entries_on_path<C: Counter>(
    alloc: Global,
    store: &Store,
    newest: Option<EntryId>,
    at: u32,
    steps: &mut Steps<C>,
) -> Result<EntryList, Memory>
    requires { (rows : List Row) × (key : List ℕ) × IsNewestOf rows key newest store.now }
    ensures path { (rows : List Row) (key : List ℕ) → IsNewestOf rows key newest store.now → IfOk result (AreEntriesIn rows key (path rows key at)) }
    ensures count { IfOk result (λ ids. steps.new ≡ raised_count steps.old (length ids)) }
{
    // So that the count is known to be one that a u64 has.
    let _count = steps.count();
    match newest {
        None => Ok(EntryList::new(alloc)),
        Some(newest) => path_entries(alloc, store, newest, at, steps),
    }
}
