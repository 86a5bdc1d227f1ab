//! The arena of entries: they are added at the end, and none is changed or removed.

ghost use Rattle.std.specs.{
  Prelude.{◌≡◌, ◌<◌, ◌≤◌, [], ◌∷◌, ◌++◌, length, map, take, slice_get, Some, MatchOption, IfOk, OnOk, OnErr},
  List.{All},
  Option.{option_map},
};
ghost use Rattle.lc_base.specs.declared.limits.TheConstants.{MAX_ROWS};
ghost use Rattle.prov_entry.specs.declared.limits.TheConstants.{MAX_LINKS};
ghost use Rattle.entry_store.specs.{
  declared.entry.Hop.{Hop},
  Steps.{raised_count},
  Entries.{Entry, LeadsBack, AreEntries, named_link, new_entry},
};

use crate::entry::{EntryId, Facts, Hop, HopList, Links};
use crate::facts::{body_digest, facts_of, links_of};
use crate::kept::Kept;
use crate::steps::{Counter, Steps};
use lc_base::{Bytes, Digest, Key, Memory};
use prov_entry::{Header, LinkList};
use shared_list::Shared;
use std::alloc::Global;
use std::marker::Model;

/// Versions in the order in which they were pushed. An entry never changes, and a front shares its
/// entries with the store that it was made from.
#[derive(Drop)]
pub struct Store {
    entries: Shared<Kept>,
}

impl Model for Store {
    ghost use Rattle.std.specs.Prelude.{List};
    ghost use Rattle.entry_store.specs.Entries.{Entry, AreEntries};

    ghost Value = { List Entry };

    ghost view = { λ store. store.entries };

    ghost invariant = { λ store. AreEntries store.entries };
}

impl Store {
    /// The store without an entry.
    pub fn new(alloc: Global) -> Result<Store, Memory>
        ensures { IfOk result (λ store. store ≡ []) }
    {
        Ok(Store {
            entries: Shared::new(alloc),
        })
    }

    /// Adds an entry at the end, digests its header, and returns its id. `closed` is the number of
    /// versions that were derived from the version of the key before, and `closed_digest` their
    /// digest as a forward list. If memory runs out, the store stays as it was.
    pub fn push(
        &mut self,
        key: Key,
        block: u32,
        tx: u16,
        hops: HopList,
        closed: u64,
        closed_digest: Digest,
        body: &Bytes,
    ) -> Result<EntryId, Memory>
        requires room { length self.old < MAX_ROWS }
        requires few { length hops ≤ MAX_LINKS }
        requires back { All (LeadsBack self.old key block) hops }
        ensures id { IfOk result (λ id. id.0 ≡ length self.old) }
        ensures ok { OnOk result (self.new ≡ self.old ++ new_entry self.old key block tx hops closed closed_digest body.now ∷ []) }
        ensures err { OnErr result (self.new ≡ self.old) }
    {
        let alloc = self.entries.allocator();
        let id = EntryId(self.entries.len() as u32);
        let header = Header {
            key,
            block,
            tx,
            body: body_digest(body.as_slice()),
            closed,
            closed_digest,
            links: links_of(alloc, &self.entries, hops.as_slice())?,
        };
        let facts = facts_of(&header);
        let links = Links { block, hops };
        self.entries.push(Kept::new(links, facts, body))?;
        Ok(id)
    }

    /// Reads the links of an entry, and counts it. No other call reads links.
    pub fn entry<C: Counter>(&self, id: EntryId, steps: &mut Steps<C>) -> &Links
        requires { id.0 < length self.now }
        ensures links { option_map (λ (entry : Entry). entry.links) (slice_get self.now id.0) ≡ Some result.now }
        ensures back { All (λ (hop : Hop). hop.id.0 < id.0) result.now.hops }
        ensures few { length result.now.hops ≤ MAX_LINKS }
        ensures step { steps.new ≡ raised_count steps.old 1 }
        ensures never_less { steps.old ≤ steps.new }
    {
        steps.raise();
        self.entries.at(id.0 as usize).links()
    }

    /// The fields of an entry's header but for its links, and the header's digest.
    pub fn facts(&self, id: EntryId) -> Facts
        requires { id.0 < length self.now }
        ensures { option_map (λ (entry : Entry). entry.facts) (slice_get self.now id.0) ≡ Some result }
    {
        self.entries.at(id.0 as usize).facts()
    }

    /// The links of a header: hops, each with the digest of the header that it leads to.
    pub fn named_links(&self, alloc: Global, hops: &[Hop]) -> Result<LinkList, Memory>
        requires { All (λ (hop : Hop). hop.id.0 < length self.now) hops.now }
        ensures { IfOk result (λ links. links ≡ map (named_link self.now) hops.now) }
    {
        links_of(alloc, &self.entries, hops)
    }

    /// The number of entries. By this call contracts know what holds of the entries of every store.
    pub fn count(&self) -> u32
        ensures count { result ≡ length self.now }
        ensures entries { AreEntries self.now }
    {
        self.entries.len() as u32
    }

    /// The entry at an index in the order of `push`; `None` exactly past the end.
    pub fn id(&self, index: u32) -> Option<EntryId>
        ensures { MatchOption result (length self.now ≤ index) (λ id. (index < length self.now) × (id.0 ≡ index)) }
    {
        if index < self.count() {
            return Some(EntryId(index));
        }
        None
    }
    /// The store of the first `count` entries, which it shares with this store.
    pub fn front(&self, count: u32) -> Result<Store, Memory>
        requires { count ≤ length self.now }
        ensures { IfOk result (λ front. front ≡ take count self.now) }
    {
        Ok(Store {
            entries: self.entries.prefix(count as usize)?,
        })
    }
}
