//! The versions of one key, with their skip list: each is added in a block above the newest one's.

ghost use Rattle.std.specs.{
  Prelude.{◌≡◌, ◌<◌, true, length, Some, IfOk, OnErr},
  Option.{option_map},
};
ghost use Rattle.lc_base.specs.declared.limits.TheConstants.{MAX_ROWS};
ghost use Rattle.entry_store.specs.declared.entry.Hop.{Hop};
ghost use Rattle.ledger_tests.specs.Versions.{HasVersions, IsAbove};

use entry_store::{Counter, EntryId, Hop, Store};
use lc_base::{Bytes, Digest, Key, MAX_ROWS, Memory};
use skip_list::{find, links_for, path_entries};
use std::alloc::Global;
use std::marker::Model;

/// The counter of the entries that are read here.
pub struct TestCounter;

impl Counter for TestCounter {
    ghost use Rattle.std.specs.Prelude.{true};

    ghost may_begin = { true };
}

/// The number of entries that were read.
pub type Steps = entry_store::Steps<TestCounter>;

/// The versions of one key, the newest of which is in the highest block.
#[derive(Drop)]
pub struct Versions {
    store: Store,
    key: Key,
    newest: Option<Hop>,
}

impl Model for Versions {
    ghost use Rattle.std.specs.Prelude.{List};
    ghost use Rattle.entry_store.specs.Entries.{Entry};
    ghost use Rattle.ledger_tests.specs.Versions.{HasVersions};

    ghost Value = { List Entry };

    ghost view = { λ versions. versions.store };

    ghost invariant = { λ versions. HasVersions versions.store versions.key versions.newest };
}

/// What it took to add a version.
#[derive(Clone, Copy)]
pub struct Added {
    /// The number of its links.
    pub links: usize,
    /// The number of entries that were read to find them.
    pub read: u64,
}

/// Whether a version in this block may be added: it is above the newest one, and there is room.
fn may_add(store: &Store, newest: Option<Hop>, block: u32) -> bool
    ensures { result ≡ true → (length store.now < MAX_ROWS) × IsAbove newest block }
{
    if store.count() >= MAX_ROWS {
        return false;
    }
    match newest {
        None => true,
        Some(newest) => newest.block < block,
    }
}

fn id_of(newest: Option<Hop>) -> Option<EntryId>
    ensures { result ≡ option_map (λ (version : Hop). version.id) newest }
{
    match newest {
        None => None,
        Some(newest) => Some(newest.id),
    }
}

/// Adds a version in a block above that of the newest one.
fn push(
    alloc: Global,
    store: &mut Store,
    key: Key,
    newest: Option<Hop>,
    block: u32,
) -> Result<(Hop, Added), Memory>
    requires versions { HasVersions store.old key newest }
    requires above { IsAbove newest block }
    requires room { length store.old < MAX_ROWS }
    ensures ok { IfOk result (λ pushed. HasVersions store.new key (Some pushed.0)) }
    ensures err { OnErr result (store.new ≡ store.old) }
{
    let mut steps = Steps::new();
    let hops = links_for(alloc, store, id_of(newest), block, &mut steps)?;
    let added = Added {
        links: hops.len(),
        read: steps.count(),
    };
    let body = Bytes::new(alloc);
    let id = store.push(key, block, 0, hops, 0, Digest([0; 32]), &body)?;
    Ok((Hop { block, id }, added))
}

/// The block of the entry at an index; `None` if there is no such entry.
fn block_at(store: &Store, index: u32) -> Option<u32> {
    match store.id(index) {
        None => None,
        Some(id) => Some(store.facts(id).block),
    }
}

fn blocks_of(alloc: Global, store: &Store, ids: &[EntryId]) -> Result<Vec<u32>, Memory> {
    let mut blocks = Vec::new(alloc);
    for id in ids {
        if let Some(block) = block_at(store, id.0) {
            blocks.push(block)?;
        }
    }
    Ok(blocks)
}

impl Versions {
    /// A key without versions.
    pub fn new(alloc: Global, key: Key) -> Result<Versions, Memory> {
        Ok(Versions {
            store: Store::new(alloc)?,
            key,
            newest: None,
        })
    }

    /// Adds a version; `None` if there is one in this block or a higher one, or no room, and then
    /// nothing is added.
    pub fn add(&mut self, alloc: Global, block: u32) -> Result<Option<Added>, Memory> {
        if !may_add(&self.store, self.newest, block) {
            return Ok(None);
        }
        match push(alloc, &mut self.store, self.key, self.newest, block) {
            Err(Memory) => Err(Memory),
            Ok((newest, added)) => {
                self.newest = Some(newest);
                Ok(Some(added))
            }
        }
    }

    /// The block of the last version up to a block, and how many entries were read to find it.
    pub fn find(&self, at: u32) -> (Option<u32>, u64) {
        let mut steps = Steps::new();
        match self.newest {
            None => (None, 0),
            Some(newest) => {
                let block = match find(&self.store, newest.id, at, &mut steps) {
                    None => None,
                    Some(found) => block_at(&self.store, found.id.0),
                };
                (block, steps.count())
            }
        }
    }

    /// The blocks of the versions that a lookup looks at, in order.
    pub fn path(&self, alloc: Global, at: u32) -> Result<Vec<u32>, Memory> {
        match self.newest {
            None => Ok(Vec::new(alloc)),
            Some(newest) => {
                let mut steps = Steps::new();
                let ids = path_entries(alloc, &self.store, newest.id, at, &mut steps)?;
                blocks_of(alloc, &self.store, ids.as_slice())
            }
        }
    }
}
