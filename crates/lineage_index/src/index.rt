//! The index over the rows of a lineage. It grows by whole blocks and keeps no rows: a lookup
//! starts at the entry of the key's newest row, and follows the links of entries.

ghost use Rattle.std.specs.Prelude.{
  ◌≡◌,
  ℕ,
  ◌<◌,
  List,
  [],
  ◌+◌,
  ◌++◌,
  length,
  map,
  slice_get,
  None,
  Some,
  IfOk,
  IfSome,
  MatchOption,
  OnOk,
};
ghost use Rattle.std.specs.Option.{option_map};
ghost use Rattle.lc_base.specs.{declared.row.Row.{Row}, History.{latest, newest, uses}};
ghost use Rattle.skip_links.specs.{Versions.{newest_index}, Paths.{path}};
ghost use Rattle.plain_rows.specs.{
  Places.{IsRowAt},
  Users.{AreVersionsAt, users},
  root_laws.Naming.{header_of},
  root_laws.Root.{leaves},
};
ghost use Rattle.skip_list.specs.{
  entry_store.Steps.{raised_count},
  declared.lookup.Found.{Found},
  Lookups.{IsPrevious},
};
ghost use Rattle.lineage_index.specs.{
  Entries.{entries_of, IsNewestOf},
  OnPath.{AreEntriesIn},
  Growth.{Grows},
  Blocks.{IsKeptIndex, bytes_of_body},
  Closed.{IsOpenListOf, closed_users},
  Index.{IsIndexOf},
};

use crate::advancing::advance;
use crate::headers::entry_header;
use crate::heads::index_of;
use crate::leaves::newest_at;
use crate::lookups::{entries_on_path, latest_entry};
use crate::newest_row::{newest_entry_of, newest_row_of};
use entry_views::Header;
use forward_links::OpenLists;
use lc_base::{Key, Memory, Resources, Row, TextList};
use plain_rows::IndexList;
use skip_list::{Counter, EntryId, EntryList, Found, Steps, Store};
use state_tree::Tree;

/// The leaves, open lists and newest rows of keys, and the entries of rows. It does not keep the rows.
#[derive(Drop)]
pub struct LineageIndex {
    tree: Tree,
    lists: OpenLists,
    newest: Vec<u32>,
    store: Store,
    closed: Vec<IndexList>,
}

impl LineageIndex {
    /// The index over no rows.
    #[tactic(auto, using(crate::proofs::Keeping::kept_at_first))]
    pub fn new(resources: Resources) -> Result<LineageIndex, Memory>
        ensures { IfOk result (IsIndexOf [] 0) }
    {
        let tree = Tree::new(resources)?;
        let store = Store::new(resources.alloc)?;
        Ok(LineageIndex {
            tree,
            lists: OpenLists::new(resources.alloc),
            newest: Vec::new(resources.alloc),
            store,
            closed: Vec::new(resources.alloc),
        })
    }

    /// The index made of these parts, which `lineage_rewind` makes of entries.
    pub fn of_parts(
        tree: Tree,
        lists: OpenLists,
        newest: Vec<u32>,
        store: Store,
        closed: Vec<IndexList>,
    ) -> LineageIndex
        ensures { (rows : List Row) (n : ℕ) → IsKeptIndex rows n tree lists newest.items store
            closed.items → IsIndexOf rows n result }
    {
        LineageIndex {
            tree,
            lists,
            newest,
            store,
            closed,
        }
    }

    /// Adds the rows of the next block, and returns the bytes of their bodies. On `Memory` only a
    /// part of the block may be there, and nothing is known of the index: drop it.
    pub fn add_block(&mut self, new: &[Row]) -> Result<TextList, Memory>
        requires { (rows : List Row) × (n : ℕ) × Grows rows new.now n × IsIndexOf rows n self.old }
        ensures index { (rows : List Row) (n : ℕ) → Grows rows new.now n → IsIndexOf rows n self.old
            → OnOk result (IsIndexOf (rows ++ new.now) (n + 1) self.new) }
        ensures bodies { (rows : List Row) (n : ℕ) → Grows rows new.now n
            → IsIndexOf rows n self.old
            → IfOk result (λ bodies. bodies ≡ map (bytes_of_body (rows ++ new.now)) new.now) }
    {
        let alloc = *self.newest.allocator();
        let bodies = advance(
            alloc,
            &mut self.tree,
            &mut self.lists,
            &mut self.newest,
            &mut self.store,
            &mut self.closed,
            new,
        )?;
        Ok(bodies)
    }

    /// Hashes the leaves that blocks touched since the last call. The index is over the same rows
    /// after it, also on `Memory`.
    pub fn settle(&mut self) -> Result<(), Memory>
        ensures index { (rows : List Row) (n : ℕ) → IsIndexOf rows n self.old → IsIndexOf rows n self.new }
        ensures store { self.new.store ≡ self.old.store }
    {
        self.tree.settle()
    }

    /// The leaves of the keys, after the sentinel.
    pub fn tree(&self) -> &Tree
        ensures { (rows : List Row) (n : ℕ) → IsIndexOf rows n self.now → result.now ≡ leaves rows }
    {
        &self.tree
    }

    /// The entries of the rows, each with the index of its row as its id.
    pub fn store(&self) -> &Store
        ensures { (rows : List Row) (n : ℕ) → IsIndexOf rows n self.now → result.now ≡ entries_of rows rows }
    {
        &self.store
    }

    /// The index of the newest row of a key; `None` exactly if the key has none.
    pub fn newest_row(&self, key: &Key) -> Option<u32>
        requires { (rows : List Row) × (n : ℕ) × IsIndexOf rows n self.now }
        ensures { (rows : List Row) (n : ℕ) → IsIndexOf rows n self.now → result ≡ newest_index rows key.now }
    {
        newest_row_of(&self.tree, self.newest.as_slice(), key)
    }

    /// The entry of the newest row of a key; `None` if the key has none.
    fn newest_entry(&self, key: &Key) -> Option<EntryId>
        requires { (rows : List Row) × (n : ℕ) × IsIndexOf rows n self.now }
        ensures { (rows : List Row) (n : ℕ) → IsIndexOf rows n self.now → IsNewestOf rows key.now result self.now.store }
    {
        newest_entry_of(&self.tree, self.newest.as_slice(), key)
    }

    /// The entry of the last row of a key in a block up to `at`, with the link to that of the key's
    /// row before it; `None` exactly if there is no such row. The entry's id is the index of the
    /// row. `steps` rises by the length of the path, so by 0 for a key without rows.
    pub fn latest<C: Counter>(&self, key: &Key, at: u32, steps: &mut Steps<C>) -> Option<Found>
        requires { (rows : List Row) × (n : ℕ) × IsIndexOf rows n self.now }
        ensures latest { (rows : List Row) (n : ℕ) → IsIndexOf rows n self.now
            → IsRowAt rows (option_map (λ (found : Found). found.id.0) result) (latest rows key.now at) }
        ensures previous { (rows : List Row) (n : ℕ) → IsIndexOf rows n self.now
            → IfSome result (λ (found : Found). IsPrevious (entries_of rows rows) found.id found.previous) }
        ensures count { (rows : List Row) (n : ℕ) → IsIndexOf rows n self.now → steps.new ≡ raised_count steps.old (length (path rows key.now at)) }
    {
        latest_entry(&self.store, self.newest_entry(key), at, steps)
    }

    /// The index of the last row of a key in a block up to `at`; `None` exactly if there is none.
    /// `steps` rises by the length of the path, so by 0 for a key without rows.
    pub fn latest_row<C: Counter>(&self, key: &Key, at: u32, steps: &mut Steps<C>) -> Option<u32>
        requires { (rows : List Row) × (n : ℕ) × IsIndexOf rows n self.now }
        ensures latest { (rows : List Row) (n : ℕ) → IsIndexOf rows n self.now → IsRowAt rows result (latest rows key.now at) }
        ensures count { (rows : List Row) (n : ℕ) → IsIndexOf rows n self.now → steps.new ≡ raised_count steps.old (length (path rows key.now at)) }
    {
        match self.latest(key, at, steps) {
            None => None,
            Some(found) => Some(found.id.0),
        }
    }

    /// The entries of the rows of a key that `latest_row` looks at, in this order. `steps` rises by
    /// their number.
    pub fn path<C: Counter>(
        &self,
        key: &Key,
        at: u32,
        steps: &mut Steps<C>,
    ) -> Result<EntryList, Memory>
        requires { (rows : List Row) × (n : ℕ) × IsIndexOf rows n self.now }
        ensures path { (rows : List Row) (n : ℕ) → IsIndexOf rows n self.now → IfOk result (AreEntriesIn rows key.now (path rows key.now at)) }
        ensures count { IfOk result (λ ids. steps.new ≡ raised_count steps.old (length ids)) }
    {
        let alloc = *self.newest.allocator();
        entries_on_path(alloc, &self.store, self.newest_entry(key), at, steps)
    }

    /// The open list of a key: the indexes of the rows that were derived from its newest row, in
    /// order. `None` exactly if the key has no row.
    pub fn open_list(&self, key: &Key) -> Option<&[u32]>
        requires { (rows : List Row) × (n : ℕ) × IsIndexOf rows n self.now }
        ensures { (rows : List Row) (n : ℕ) → IsIndexOf rows n self.now
            → MatchOption result (newest rows key.now ≡ None)
            (λ list. IsOpenListOf rows key.now list.now) }
    {
        match index_of(&self.tree, key) {
            None => None,
            Some(index) => Some(self.lists.list(index)),
        }
    }

    /// The list of the row at an index, once it was closed: the indexes of the rows that were
    /// derived from it, in order. It is empty while the row is the newest of its key.
    pub fn closed_list(&self, index: u32) -> &[u32]
        requires { (rows : List Row) × (n : ℕ) × IsIndexOf rows n self.now × (index < length rows) }
        ensures { (rows : List Row) (n : ℕ) (row : Row) → IsIndexOf rows n self.now
            → slice_get rows index ≡ Some row → result.now ≡ closed_users rows rows index row }
    {
        self.closed[index as usize].as_slice()
    }

    /// The list of the row at an index, whose key is given: the open list of the key if it is the
    /// newest row of the key.
    fn list_of(&self, key: &Key, index: u32) -> &[u32]
        requires { (rows : List Row) × (n : ℕ) × (row : Row) × IsIndexOf rows n self.now
            × (slice_get rows index ≡ Some row) × (key.now ≡ row.key) }
        ensures { (rows : List Row) (n : ℕ) (row : Row) → IsIndexOf rows n self.now
            → slice_get rows index ≡ Some row → key.now ≡ row.key → result.now ≡ users rows row }
    {
        match index_of(&self.tree, key) {
            None => unreachable!(),
            Some(at) => {
                if newest_at(self.newest.as_slice(), at) == index {
                    self.lists.list(at)
                } else {
                    self.closed_list(index)
                }
            }
        }
    }

    /// The indexes of the rows that were derived from the row at an index, in order.
    pub fn uses(&self, index: u32) -> &[u32]
        requires { (rows : List Row) × (n : ℕ) × IsIndexOf rows n self.now × (index < length rows) }
        ensures indexes { (rows : List Row) (n : ℕ) (row : Row) → IsIndexOf rows n self.now
            → slice_get rows index ≡ Some row → result.now ≡ users rows row }
        ensures versions { (rows : List Row) (n : ℕ) (row : Row) → IsIndexOf rows n self.now
            → slice_get rows index ≡ Some row
            → AreVersionsAt rows result.now (uses rows row.key row.block) }
    {
        let facts = self.store.facts(EntryId(index));
        self.list_of(&facts.key, index)
    }

    /// The header of the row at an index, made again of its entry: it reads that one.
    pub fn header<C: Counter>(&self, index: u32, steps: &mut Steps<C>) -> Result<Header, Memory>
        requires { (rows : List Row) × (n : ℕ) × IsIndexOf rows n self.now × (index < length rows) }
        ensures row { (rows : List Row) (n : ℕ) (row : Row) → IsIndexOf rows n self.now → slice_get rows index ≡ Some row
            → IfOk result (λ header. header ≡ header_of rows row) }
        ensures step { steps.new ≡ raised_count steps.old 1 }
    {
        let alloc = *self.newest.allocator();
        let header = entry_header(alloc, &self.store, EntryId(index), steps)?;
        Ok(header)
    }

    /// Drops the index: its many parts are dropped in this function alone.
    pub fn give_up(self) {}
}
