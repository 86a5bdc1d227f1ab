//! The lineage of a ledger. It grows by whole blocks: on an error it is given up, and never seen
//! with a part of a block.

ghost use Rattle.std.specs.{
  Prelude.{
    ◌≡◌,
    ◌≤◌,
    ◌<◌,
    ◌+◌,
    ◌^◌,
    ◌++◌,
    ◌∷◌,
    true,
    [],
    None,
    Some,
    length,
    slice_get,
    take,
    IfErr,
    IfOk,
    IfSome,
    IsErrOf,
    MatchOption,
  },
  List.{All},
  Option.{option_map},
  Rc.{rc_slice_items},
};
ghost use Rattle.lc_base.specs.{
  Faults.{HasCause},
  History.{IsLawful, latest, newest, up_to, uses},
  declared.row.Row.{Row},
};
ghost use Rattle.lc_io.specs.Scratch.{ScratchState, is_known, Retains};
ghost use Rattle.skip_links.specs.Paths.{path};
ghost use Rattle.skip_list.specs.{declared.lookup.Found.{Found}, Lookups.{IsPrevious}};
ghost use Rattle.lineage_rewind.specs.{
  plain_rows.Places.{IsRowAt},
  entry_store.Steps.{raised_count},
  lineage_index.Closed.{IsOpenListOf, closed_users},
  lineage_index.Versions.{newest_entry},
  lineage_index.Entries.{entries_of},
  lineage_index.OnPath.{AreEntriesIn},
  root_laws.Naming.{header_of},
  root_laws.Root.{root_of, leaves},
  root_laws.TypedLedger.{IsTypedLedger},
};
ghost use Rattle.merkle_dag.specs.{
  Adding.{bytes_of},
  declared.limits.TheConstants.{MAX_LINEAGE_BLOCKS},
  Ledger.{IsLedger, IsHead, most_looked_at},
  Lineage.{AgreesWith, AreFactsOf, LeavesLineage, first_bodies, ledger_in},
};

use crate::kept::{Kept, discard, grow, settle};
use crate::rewinding::first_blocks;
use crate::root::{make_root, root_at};
use crate::uses::{nth_version, users_of, versions_at};
use body_store::Bodies;
use lc_base::{Dep, DepList, Digest, HostError, Key, Memory, Resources, RowList};
use lc_io::Scratch;
use lineage_rewind::{
    Counter, EntryId, EntryList, Facts, Found, Header, LineageIndex, Steps, Store, Tree,
};
use std::marker::Model;
use std::rc::RcSlice;

/// What is kept of the rows of all blocks, the digest of each block, and the roots that were made.
/// The bodies of the rows are on a scratch device.
#[derive(Drop)]
pub struct Lineage {
    pub(crate) kept: Kept,
}

// Contracts see the rows, the digests of the blocks, and where the bodies of the rows are kept.
impl Model for Lineage {
    ghost use Rattle.merkle_dag.specs.Lineage.{LineageState};
    ghost use Rattle.merkle_dag.specs.Kept.{IsWhole, rows_kept};

    ghost Value = { LineageState };

    ghost view = { λ lineage. record {
      rows = rows_kept lineage.kept.index;
      digests = lineage.kept.digests.items;
      bodies = lineage.kept.bodies;
    } };

    ghost invariant = { λ lineage. IsWhole lineage.kept };
}

impl Lineage {
    /// The lineage without a block. It agrees with every device.
    pub fn new(resources: Resources) -> Result<Lineage, Memory>
        ensures none { IfOk result
            (λ lineage. ledger_in lineage ≡ record { rows = []; digests = [] }) }
        ensures agrees { IfOk result
            (λ lineage. (scratch : ScratchState) → AgreesWith lineage scratch) }
    {
        let index = LineageIndex::new(resources)?;
        let bodies = Bodies::new(resources.alloc)?;
        let kept = Kept {
            index,
            bodies,
            digests: Vec::new(resources.alloc),
            roots: Vec::new(resources.alloc),
        };
        Ok(Lineage { kept })
    }

    /// Adds a block: its number, its digest and its rows, whose bodies the device is to keep.
    /// Returns the lineage with the block, and the root at the block. On an error the lineage is
    /// given up; `Fault` means that the device failed.
    pub fn add_block<S: Scratch>(
        self,
        scratch: &mut S,
        number: u32,
        digest: Digest,
        rows: &RowList,
    ) -> Result<(Lineage, Digest), HostError>
        requires next { number ≡ length self.digests }
        requires low { number < MAX_LINEAGE_BLOCKS }
        requires block { All (λ (row : Row). row.block ≡ number) rows.now }
        requires lawful { IsLawful (self.rows ++ rows.now) }
        requires agrees { AgreesWith self (S.state scratch.old) }
        ensures kept { IfOk result
            (λ pair. ledger_in pair.0 ≡ record
            { rows = self.rows ++ rows.now; digests = self.digests ++ digest ∷ [] }) }
        ensures root { IfOk result
            (λ pair. pair.1.0 ≡ root_of (self.rows ++ rows.now) (self.digests ++ digest ∷ [])
            number) }
        ensures agrees { IfOk result (λ pair. AgreesWith pair.0 (S.state scratch.new)) }
        ensures retains { Retains (S.state scratch.old) (S.state scratch.new) }
        ensures cause { HasCause (S.scratch_faults scratch.old) (S.scratch_faults scratch.new)
            (IsErrOf result HostError.Fault) }
    {
        match self.add_rows(scratch, number, digest, rows) {
            Ok(lineage) => lineage.with_root(number),
            Err(error) => Err(error),
        }
    }

    /// Adds a block as `add_block` does, but makes no root: nothing is hashed but the bodies and the
    /// headers of its rows. The root at the block is made when it is asked for.
    pub fn add_rows<S: Scratch>(
        self,
        scratch: &mut S,
        number: u32,
        digest: Digest,
        rows: &RowList,
    ) -> Result<Lineage, HostError>
        requires next { number ≡ length self.digests }
        requires low { number < MAX_LINEAGE_BLOCKS }
        requires block { All (λ (row : Row). row.block ≡ number) rows.now }
        requires lawful { IsLawful (self.rows ++ rows.now) }
        requires agrees { AgreesWith self (S.state scratch.old) }
        ensures kept { IfOk result
            (λ lineage. ledger_in lineage ≡ record
            { rows = self.rows ++ rows.now; digests = self.digests ++ digest ∷ [] }) }
        ensures agrees { IfOk result (λ lineage. AgreesWith lineage (S.state scratch.new)) }
        ensures retains { Retains (S.state scratch.old) (S.state scratch.new) }
        ensures cause { HasCause (S.scratch_faults scratch.old) (S.scratch_faults scratch.new)
            (IsErrOf result HostError.Fault) }
    {
        let Lineage { mut kept } = self;
        match grow(&mut kept, scratch, number, digest, rows) {
            Ok(()) => Ok(Lineage { kept }),
            Err(error) => {
                discard(kept);
                Err(error)
            }
        }
    }

    /// Makes the root at the last block, keeps it, and returns it. Out of memory, the lineage is
    /// given up.
    fn with_root(self, last: u32) -> Result<(Lineage, Digest), HostError>
        requires last { last + 1 ≡ length self.digests }
        ensures same { IfOk result (λ pair. pair.0 ≡ self) }
        ensures root { IfOk result (λ pair. pair.1.0 ≡ root_of self.rows self.digests last) }
        ensures err { IfErr result (λ error. error ≡ HostError.Memory) }
    {
        let Lineage { mut kept } = self;
        match make_root(&mut kept, last) {
            Ok(root) => Ok((Lineage { kept }, root)),
            Err(Memory) => {
                discard(kept);
                Err(HostError::Memory)
            }
        }
    }

    /// Hashes the leaves that blocks changed since leaves were last hashed. It changes no answer:
    /// call it before several questions to the tree, as each of them hashes all leaves else. Out of
    /// memory, the lineage stays as it was too.
    pub fn settle(&mut self) -> Result<(), Memory>
        ensures { self.new ≡ self.old }
    {
        settle(&mut self.kept)
    }

    /// Drops the lineage. What it keeps has many parts; a function that drops it by this call, and
    /// not at the end of its scope, is checked in much less time.
    pub fn give_up(self) {
        discard(self.kept);
    }

    /// The number of the last block; `None` exactly if there is no block.
    pub fn head(&self) -> Option<u32>
        ensures { IsHead self.now.digests result }
    {
        if self.kept.digests.is_empty() {
            return None;
        }
        Some((self.kept.digests.len() - 1) as u32)
    }

    /// The root at a block; `None` exactly if the block is past the last one. A root that
    /// `add_block` made is kept; any other one is made anew each time. It takes no memory.
    pub fn root(&self, at: u32) -> Option<Digest>
        ensures { MatchOption result (length self.now.digests ≤ at)
            (λ root. (at < length self.now.digests)
            × (root.0 ≡ root_of self.now.rows self.now.digests at)) }
    {
        root_at(&self.kept, at)
    }

    /// The digest that a block was added with; `None` exactly if the block is past the last one.
    pub fn digest(&self, at: u32) -> Option<Digest>
        ensures { result ≡ slice_get self.now.digests at }
    {
        digest_at(&self.kept.digests, at)
    }

    /// The number of the rows of all blocks. Its contract says of these rows that they are a lawful
    /// history of blocks up to the last one, within its types.
    pub fn row_count(&self) -> usize
        ensures count { result ≡ length self.now.rows }
        ensures ledger { IsLedger self.now.rows self.now.digests }
        ensures typed { IsTypedLedger self.now.rows self.now.digests }
    {
        self.kept.index.store().count() as usize
    }

    /// The entries of the rows, each with the index of its row as its id.
    pub fn store(&self) -> &Store
        ensures { result.now ≡ entries_of self.now.rows self.now.rows }
    {
        self.kept.index.store()
    }

    /// The entry of the newest row of the key; `None` exactly if the key has none.
    pub fn newest(&self, key: &Key) -> Option<EntryId>
        ensures { result ≡ newest_entry self.now.rows key.now }
    {
        match self.kept.index.newest_row(key) {
            None => None,
            Some(index) => Some(EntryId(index)),
        }
    }

    /// The open list of the key: the indexes of the rows that were derived from its newest row, in
    /// their order. `None` exactly if the key has no row.
    pub fn open_list(&self, key: &Key) -> Option<&[u32]>
        ensures { MatchOption result (newest self.now.rows key.now ≡ None)
            (λ list. IsOpenListOf self.now.rows key.now list.now) }
    {
        self.kept.index.open_list(key)
    }

    /// The list of the row at an index, once the next version of its key closed it: the indexes of
    /// the rows that were derived from the row, in their order. It is empty while the row is the
    /// newest of its key.
    pub fn closed_list(&self, index: u32) -> &[u32]
        requires { index < length self.now.rows }
        ensures { (row : Row) → slice_get self.now.rows index ≡ Some row
            → result.now ≡ closed_users self.now.rows self.now.rows index row }
    {
        self.kept.index.closed_list(index)
    }

    /// The entry of the last row of the key in a block up to `at`, with the link to that of the
    /// key's row before it; `None` exactly if there is no such row. The entry's id is the index of
    /// the row. `steps` rises by the number of the versions of the key that are looked at, also if
    /// none of them is found.
    pub fn latest<C: Counter>(&self, key: &Key, at: u32, steps: &mut Steps<C>) -> Option<Found>
        ensures latest { IsRowAt self.now.rows (option_map (λ (found : Found). found.id.0) result)
            (latest self.now.rows key.now at) }
        ensures previous { IfSome result (λ (found : Found).
            IsPrevious (entries_of self.now.rows self.now.rows) found.id found.previous) }
        ensures count { steps.new ≡ raised_count steps.old (length (path self.now.rows key.now at)) }
        ensures few { steps.new ≤ steps.old + most_looked_at self.now.digests }
    {
        self.kept.index.latest(key, at, steps)
    }

    /// The index of the last row of the key in a block up to `at`; `None` exactly if there is none.
    /// `steps` rises by the number of the versions of the key that are looked at, also if none of
    /// them is found.
    pub fn latest_row<C: Counter>(&self, key: &Key, at: u32, steps: &mut Steps<C>) -> Option<u32>
        ensures latest { IsRowAt self.now.rows result (latest self.now.rows key.now at) }
        ensures count { steps.new ≡ raised_count steps.old (length (path self.now.rows key.now at)) }
        ensures few { steps.new ≤ steps.old + most_looked_at self.now.digests }
    {
        self.kept.index.latest_row(key, at, steps)
    }

    /// The entries of the rows of the key that `latest_row` looks at, from the newest one on; the
    /// id of a row's entry is the row's index. `steps` rises by their number.
    pub fn path<C: Counter>(
        &self,
        key: &Key,
        at: u32,
        steps: &mut Steps<C>,
    ) -> Result<EntryList, Memory>
        ensures path { IfOk result
            (AreEntriesIn self.now.rows key.now (path self.now.rows key.now at)) }
        ensures count { IfOk result (λ ids. steps.new ≡ raised_count steps.old (length ids)) }
    {
        self.kept.index.path(key, at, steps)
    }

    /// The header of the row at an index. It looks at that version alone.
    pub fn header<C: Counter>(&self, index: u32, steps: &mut Steps<C>) -> Result<Header, Memory>
        requires { index < length self.now.rows }
        ensures row { (row : Row) → slice_get self.now.rows index ≡ Some row
            → IfOk result (λ header. header ≡ header_of self.now.rows row) }
        ensures step { steps.new ≡ raised_count steps.old 1 }
    {
        self.kept.index.header(index, steps)
    }

    /// Where the row at an index is in the history: its key, its block and its transaction.
    pub fn row_facts(&self, index: u32) -> Facts
        requires { index < length self.now.rows }
        ensures { (row : Row) → slice_get self.now.rows index ≡ Some row → AreFactsOf row result }
    {
        self.kept.index.store().facts(EntryId(index))
    }

    /// The versions that were derived from the row at an index, in the order of their rows.
    pub fn uses(&self, index: u32) -> Result<DepList, Memory>
        requires { index < length self.now.rows }
        ensures { (row : Row) → slice_get self.now.rows index ≡ Some row
            → IfOk result (λ list. list ≡ uses self.now.rows row.key row.block) }
    {
        let alloc = *self.kept.digests.allocator();
        versions_at(alloc, self.kept.index.store(), users_of(&self.kept, index))
    }

    /// How many versions were derived from the row at an index, fewer than 2^63.
    pub fn use_count(&self, index: u32) -> u64
        requires { index < length self.now.rows }
        ensures count { (row : Row) → slice_get self.now.rows index ≡ Some row
            → result ≡ length (uses self.now.rows row.key row.block) }
        ensures bound { result < 2 ^ 63 }
    {
        users_of(&self.kept, index).len() as u64
    }

    /// The version at `item`, from 0, of those that were derived from the row at an index. `None`
    /// exactly if `item` is past the last one.
    pub fn use_at(&self, index: u32, item: u64) -> Option<Dep>
        requires { index < length self.now.rows }
        ensures { (row : Row) → slice_get self.now.rows index ≡ Some row
            → result ≡ slice_get (uses self.now.rows row.key row.block) item }
    {
        let places = users_of(&self.kept, index);
        nth_version(self.kept.index.store(), places, item as usize)
    }

    /// The bytes of the body of a row, by the id of its entry. Rows and digests stay as they are.
    /// `Fault` means that the device failed.
    pub fn body_of<S: Scratch>(
        &mut self,
        scratch: &mut S,
        id: EntryId,
    ) -> Result<RcSlice<u8>, HostError>
        requires within { id.0 < length self.old.rows }
        requires agrees { AgreesWith self.old (S.state scratch.old) }
        ensures body { (row : Row) → slice_get self.old.rows id.0 ≡ Some row
            → is_known (S.state scratch.old) ≡ true
            → IfOk result (λ bytes. rc_slice_items bytes ≡ bytes_of self.old.rows row) }
        ensures leaves { LeavesLineage S.state S.scratch_faults self.old scratch.old self.new
            scratch.new (IsErrOf result HostError.Fault) }
    {
        self.kept.bodies.body(scratch, id.0)
    }

    /// The lineage of the blocks 0 to `at`. The bodies stay where they are; none of them is at
    /// hand.
    pub fn rewind(&self, at: u32) -> Result<Lineage, Memory>
        requires { at < length self.now.digests }
        ensures rewound { IfOk result
            (λ lineage. ledger_in lineage ≡ record
            { rows = up_to self.now.rows at; digests = take (at + 1) self.now.digests }) }
        ensures agrees { IfOk result
            (λ lineage. (scratch : ScratchState) → AgreesWith self.now scratch
            → AgreesWith lineage scratch) }
        ensures bodies { IfOk result
            (λ lineage. lineage.bodies ≡ first_bodies (length (up_to self.now.rows at))
            self.now.bodies) }
    {
        let alloc = *self.kept.digests.allocator();
        let kept = first_blocks(alloc, &self.kept, at)?;
        Ok(Lineage { kept })
    }

    /// The leaves at the last block.
    pub fn tree(&self) -> &Tree
        ensures { result.now ≡ leaves self.now.rows }
    {
        self.kept.index.tree()
    }
}

fn digest_at(digests: &[Digest], at: u32) -> Option<Digest>
    ensures { result ≡ slice_get digests.now at }
{
    digests.get(at as usize).copied()
}
