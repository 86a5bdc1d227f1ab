//! Makes headers again from entries: the digests of their links are those of the entries that the
//! hops lead to.

ghost use Rattle.std.specs.{
  Prelude.{◌≡◌, ◌<◌, List, length, Some, slice_get, IfOk},
  Option.{option_map},
};
ghost use Rattle.lc_base.specs.{declared.row.Row.{Row}, History.{IsLawful}};
ghost use Rattle.plain_rows.specs.root_laws.Naming.{header_of};
ghost use Rattle.skip_list.specs.entry_store.Steps.{raised_count};
ghost use Rattle.lineage_index.specs.{Entries.{entries_of}, Headers.{header_made}};

use entry_views::Header;
use lc_base::Memory;
use skip_list::{Counter, EntryId, Steps, Store};
use std::alloc::Global;

/// The header of an entry; if the entries are those of a history, it is that of the entry's row. It
/// reads one entry.
pub fn entry_header<C: Counter>(
    alloc: Global,
    store: &Store,
    id: EntryId,
    steps: &mut Steps<C>,
) -> Result<Header, Memory>
    requires { id.0 < length store.now }
    ensures made { IfOk result (λ header. option_map (header_made store.now) (slice_get store.now id.0) ≡ Some header) }
    ensures row { (rows : List Row) (row : Row) → IsLawful rows → store.now ≡ entries_of rows rows → slice_get rows id.0 ≡ Some row → IfOk result (λ header. header ≡ header_of rows row) }
    ensures step { steps.new ≡ raised_count steps.old 1 }
{
    let facts = store.facts(id);
    let hops = store.entry(id, steps).hops.as_slice();
    let links = store.named_links(alloc, hops)?;
    Ok(Header {
        key: facts.key,
        block: facts.block,
        tx: facts.tx,
        body: facts.body,
        closed: facts.closed,
        closed_digest: facts.closed_digest,
        links,
    })
}
