//! Adds the version of the next row: its links are found over the versions before it, and then it
//! is pushed.

ghost use Rattle.std.specs.Prelude.{◌≡◌, ◌≤◌, ◌+◌, ◌++◌, ◌∷◌, [], List, length, OnOk, OnErr, IfOk};
ghost use Rattle.lc_base.specs.declared.row.Row.{Row};
ghost use Rattle.skip_links.specs.Paths.{binary_digits};
ghost use Rattle.skip_list.specs.entry_store.declared.entry.EntryId.{EntryId};
ghost use Rattle.lineage_index.specs.{Entries.{entries_of}, Growing.{IsNextVersion}};

use lc_base::{Bytes, Digest, Key, Memory};
use skip_list::{Counter, EntryId, Steps, Store, links_for};
use std::alloc::Global;

/// A version that is to become an entry.
#[derive(Drop)]
pub struct NewVersion {
    pub key: Key,
    /// The number of its block.
    pub block: u32,
    /// The index of its transaction in the block, from 0.
    pub tx: u16,
    /// How many versions were derived from the version of the key before it.
    pub closed: u64,
    /// The digest of these, as a forward list.
    pub closed_digest: Digest,
}

/// Adds the version of a row, with the links to older versions of its key, and returns its entry.
/// `newest` is the entry of the newest one of these. If memory runs out, the store stays as it was.
pub fn push_version<C: Counter>(
    alloc: Global,
    store: &mut Store,
    newest: Option<EntryId>,
    version: NewVersion,
    body: &Bytes,
    steps: &mut Steps<C>,
) -> Result<EntryId, Memory>
    requires { (all : List Row) × (rows : List Row) × (row : Row) × IsNextVersion all rows row newest store.old version body.now }
    ensures ok { (all rows : List Row) (row : Row) → IsNextVersion all rows row newest store.old version body.now → OnOk result (store.new ≡ entries_of all (rows ++ row ∷ [])) }
    ensures id { IfOk result (λ (id : EntryId). id.0 ≡ length store.old) }
    ensures err { OnErr result (store.new ≡ store.old) }
    ensures never_less { steps.old ≤ steps.new }
    ensures count { steps.new ≤ steps.old + binary_digits version.block }
{
    let hops = links_for(alloc, store, newest, version.block, steps)?;
    let id = store.push(
        version.key,
        version.block,
        version.tx,
        hops,
        version.closed,
        version.closed_digest,
        body,
    )?;
    Ok(id)
}
