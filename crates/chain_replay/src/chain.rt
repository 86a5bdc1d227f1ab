//! A chain in memory: its digests, rows and world always belong to the same blocks.

ghost use Rattle.std.specs.Prelude.{◌≡◌, false, List, [], ◌∷◌, ◌++◌, length, IfOk, OnOk};
ghost use Rattle.lc_base.specs.History.{IsLawful, scan};
ghost use Rattle.block_codec.specs.{
  Spelling.{IsBlock},
  Placement.{digest_of, last_digest},
  declared.block.Block.{Block as Blocks},
};
ghost use Rattle.row_walks.specs.root_laws.{Ancestors.{trace_at}, Ranges.{between}};
ghost use Rattle.chain_exec.specs.Compiled.{compiled_in};
ghost use Rattle.chain_replay.specs.Chain.{nothing_kept, placement_in, HasRoom, IsAfter, StandsFor};

use crate::replaying::Replay;
use block_codec::{Block, NO_PARENT, Placement, place};
use chain_exec::{BlockRun, Checked, run_block};
use lc_base::{
    Answer, Digest, DigestList, HostError, Key, Memory, Query, Resources, RowList, VersionList,
};
use lc_io::Scratch;
use row_walks::{PlainRows, Trace, range, trace};
use std::alloc::Global;
use std::marker::Model;
use world_state::World;

/// A chain with all of its rows in memory: the digest of each block, the rows of all, and the state
/// that the next block runs on.
#[derive(Drop)]
pub struct Chain {
    digests: DigestList,
    rows: PlainRows,
    world: World<Checked>,
}

impl Model for Chain {
    ghost use Rattle.chain_replay.specs.Chain.{ChainState, IsKeptChain};
    ghost use Rattle.contract_tree.specs.contracts.tree.Contract as contracts;
    ghost use Rattle.std.specs.Coded.{codes};

    ghost Value = { ChainState };

    ghost coded = { Prim.hlevel (codes, contracts.the_row.coded) };

    ghost view = { λ chain. record { digests = chain.digests; rows = chain.rows; codes = chain.world.codes } };

    ghost invariant = { λ chain. IsKeptChain chain.digests chain.rows chain.world };
}

/// Keeps the digest and the rows of a block after those of the others. On `Memory` a part of them
/// may have been kept.
fn record(
    digests: &mut DigestList,
    digest: Digest,
    rows: &mut PlainRows,
    more: &RowList,
) -> Result<(), Memory>
    requires lawful { IsLawful (rows.old ++ more.now) }
    ensures digests { OnOk result (digests.new ≡ digests.old ++ digest ∷ []) }
    ensures rows { OnOk result (rows.new ≡ rows.old ++ more.now) }
{
    digests.push(digest)?;
    rows.add(more)
}

/// Drops a world. It has many parts, so this is the one place where it is dropped.
fn discard(_world: World<Checked>) {}

impl Chain {
    /// The chain of no block. It takes no memory.
    pub fn new(resources: Resources) -> Chain
        ensures { result ≡ nothing_kept }
    {
        Chain {
            digests: DigestList::new(resources.alloc),
            rows: PlainRows::new(resources.alloc),
            world: World::new(resources),
        }
    }

    /// The number of its blocks, at most `MAX_MARKED_BLOCKS`.
    pub fn len(&self) -> u32
        ensures { result ≡ length self.now.digests }
    {
        self.digests.len() as u32
    }

    /// The answer to a question over its rows.
    pub fn ask(&mut self, query: &Query) -> Result<Answer, Memory>
        ensures answer { IfOk result (λ answer. answer ≡ scan self.old.rows query.now) }
        ensures unchanged { self.new ≡ self.old }
    {
        self.rows.ask(query)
    }

    /// The newest version of a key in the blocks up to `at` over its rows, with all of its ancestors;
    /// `None` exactly if there is no such version.
    pub fn trace(&mut self, alloc: Global, key: &Key, at: u32) -> Result<Option<Trace>, Memory>
        ensures traced { IfOk result (λ trace. trace ≡ trace_at self.old.rows key.now at) }
        ensures unchanged { self.new ≡ self.old }
    {
        trace(alloc, &mut self.rows, key, at)
    }

    /// The versions of a key in the blocks from `from` to `to` over its rows, in rising order of
    /// their blocks.
    pub fn range(
        &mut self,
        alloc: Global,
        key: &Key,
        from: u32,
        to: u32,
    ) -> Result<VersionList, Memory>
        ensures versions { IfOk result (λ versions. versions ≡ between self.old.rows key.now from to) }
        ensures unchanged { self.new ≡ self.old }
    {
        range(alloc, &mut self.rows, key, from, to)
    }

    /// The digest of the last block, or `NO_PARENT` if the chain has no block.
    fn last_digest(&self) -> Digest
        ensures { result ≡ last_digest self.now.digests }
    {
        match self.digests.as_slice().last() {
            Some(digest) => *digest,
            None => NO_PARENT,
        }
    }

    /// Runs the next block: the chain with this block after the others, and what the block did. On
    /// `Memory` the chain is discarded.
    pub fn with_block(
        self,
        alloc: Global,
        block: &Block,
        digest: Digest,
    ) -> Result<(Chain, BlockRun), Memory>
        requires room { HasRoom self block.now }
        requires is_block { IsBlock block.now }
        ensures after { IfOk result (λ done. IsAfter self block.now digest done.0 done.1) }
        ensures stands { IfOk result (λ done. (blocks : List Blocks) → StandsFor self blocks → digest ≡ digest_of block.now → placement_in compiled_in blocks block.now ≡ Placement.Next → StandsFor done.0 (blocks ++ block.now ∷ [])) }
    {
        let Chain {
            mut digests,
            mut rows,
            mut world,
        } = self;
        let run = match run_block(alloc, &mut rows, &mut world, block) {
            Ok(run) => run,
            Err(HostError::Memory) => {
                discard(world);
                return Err(Memory);
            }
            Err(HostError::Fault) => unreachable!(),
        };
        let world = world.commit()?;
        match record(&mut digests, digest, &mut rows, &run.rows) {
            Ok(()) => {
                let chain = Chain {
                    digests,
                    rows,
                    world,
                };
                Ok((chain, run))
            }
            Err(Memory) => {
                discard(world);
                Err(Memory)
            }
        }
    }
}

impl Replay for Chain {
    ghost kept = { λ chain. chain };

    ghost calls_scratch = { false };

    ghost agrees = { λ _ _. Unit {0} };

    fn start(resources: Resources) -> Result<Chain, Memory> {
        Ok(Chain::new(resources))
    }

    #[tactic(auto, using(crate::proofs::Kept::next_room))]
    fn place(&self, block: &Block, digest: Digest, marked: bool) -> Placement {
        let have = self.digests.get(block.number as usize).copied();
        let rows = self.rows.len() as u64;
        place(
            self.len(),
            rows,
            have,
            self.last_digest(),
            block,
            digest,
            marked,
        )
    }

    #[tactic(auto, using(lc_io::proofs::Retaining::retains_refl))]
    fn replay<S: Scratch>(
        self,
        alloc: Global,
        _scratch: &mut S,
        block: &Block,
        digest: Digest,
    ) -> Result<Chain, HostError> {
        match self.with_block(alloc, block, digest) {
            Ok((longer, _run)) => Ok(longer),
            Err(Memory) => Err(HostError::Memory),
        }
    }

    fn give_up(self) {
        let Chain {
            digests: _digests,
            rows: _rows,
            world,
        } = self;
        discard(world);
    }
}
