//! A chain over a lineage: the lineage and the world always belong to the same blocks.

ghost use Rattle.std.specs.Prelude.{◌≡◌, ◌<◌, ◌≤◌, true, List, length, map, slice_get, MatchOption};
ghost use Rattle.block_codec.specs.{
  Placement.{digest_of, last_digest},
  declared.limits.TheConstants.{MAX_MARKED_BLOCKS},
  declared.block.Block.{Block as Blocks},
};
ghost use Rattle.chain_replay.specs.{chain_exec.Compiled.{compiled_in}, Chain.{StandsFor}};
ghost use Rattle.root_laws.specs.Root.{root_of};
ghost use Rattle.prov_query.specs.merkle_dag.Lineage.{AgreesWith};
ghost use Rattle.rooted_chain.specs.Roots.{kept_in, lineage_in, root_in};

use block_codec::{Block, NO_PARENT, Placement, place};
use chain_replay::Replay;
use contract_check::Checked;
use lc_base::{Digest, HostError, Memory, Resources};
use lc_io::Scratch;
use prov_query::Lineage;
use std::alloc::Global;
use std::marker::Model;
use world_state::World;

/// A chain that keeps a lineage of its rows, with the bodies on a scratch device, and the state
/// that the next block runs on.
#[derive(Drop)]
pub struct LineageChain {
    pub(crate) lineage: Lineage,
    pub(crate) world: World<Checked>,
}

impl Model for LineageChain {
    ghost use Rattle.chain_replay.specs.Chain.{IsKeptChain};
    ghost use Rattle.rooted_chain.specs.Roots.{RootedState};
    ghost use Rattle.contract_tree.specs.contracts.tree.Contract as contracts;
    ghost use Rattle.std.specs.Coded.{codes};

    ghost Value = { RootedState };

    ghost coded = { Prim.hlevel (codes, contracts.the_row.coded) };

    ghost view = { λ chain. record { digests = chain.lineage.digests; rows = chain.lineage.rows; codes = chain.world.codes; bodies = chain.lineage.bodies } };

    ghost invariant = { λ chain. IsKeptChain chain.lineage.digests chain.lineage.rows chain.world };
}

/// Drops a world. It has many parts, so this is the one place where it is dropped.
pub(crate) fn discard(_world: World<Checked>) {}

/// The number of blocks of a lineage.
fn count_of(lineage: &Lineage) -> u32
    requires { length lineage.now.digests ≤ MAX_MARKED_BLOCKS }
    ensures { result ≡ length lineage.now.digests }
{
    match lineage.head() {
        None => 0,
        Some(head) => head + 1,
    }
}

/// The digest of the last block, or `NO_PARENT` if the lineage has no block.
fn last_digest(lineage: &Lineage) -> Digest
    ensures { result ≡ last_digest lineage.now.digests }
{
    match lineage.head() {
        None => NO_PARENT,
        Some(head) => lineage.digest(head).unwrap_or(NO_PARENT),
    }
}

impl LineageChain {
    /// The number of its blocks, at most `MAX_MARKED_BLOCKS`.
    pub fn len(&self) -> u32
        ensures { result ≡ length self.now.digests }
    {
        count_of(&self.lineage)
    }

    /// The digest of the block `at`; `None` exactly if the chain has no such block.
    pub fn digest(&self, at: u32) -> Option<Digest>
        ensures digest { result ≡ slice_get self.now.digests at }
        ensures stands { (blocks : List Blocks) → StandsFor (kept_in self.now) blocks → result ≡ slice_get (map digest_of blocks) at }
    {
        self.lineage.digest(at)
    }

    /// The root at the block `at`; `None` exactly if the chain has no such block. A root that
    /// `with_block` made is kept; any other one is made anew each time.
    pub fn root(&self, at: u32) -> Option<Digest>
        ensures root { MatchOption result (length self.now.digests ≤ at) (λ root. (at < length self.now.digests) × (root.0 ≡ root_of self.now.rows self.now.digests at)) }
        ensures stands { (blocks : List Blocks) → StandsFor (kept_in self.now) blocks → MatchOption result (length blocks ≤ at) (λ root. (at < length blocks) × (root.0 ≡ root_in compiled_in blocks at)) }
    {
        self.lineage.root(at)
    }

    /// The lineage of its blocks.
    pub fn lineage(&self) -> &Lineage
        ensures { result.now ≡ lineage_in self.now }
    {
        &self.lineage
    }

    /// The lineage alone, of a chain that is to take no further block.
    pub fn into_lineage(self) -> Lineage
        ensures { result ≡ lineage_in self }
    {
        let LineageChain { lineage, world } = self;
        discard(world);
        lineage
    }
}

// No root is made of a block that is replayed: most chains are asked for one or for none.
impl Replay for LineageChain {
    ghost kept = { λ chain. kept_in chain };

    ghost calls_scratch = { true };

    ghost agrees = { λ chain scratch. AgreesWith (lineage_in chain) scratch };

    fn start(resources: Resources) -> Result<LineageChain, Memory> {
        let lineage = Lineage::new(resources)?;
        Ok(LineageChain {
            lineage,
            world: World::new(resources),
        })
    }

    #[tactic(auto, using(chain_replay::proofs::Kept::next_room, chain_replay::proofs::Chains::placed_as_kept))]
    fn place(&self, block: &Block, digest: Digest, marked: bool) -> Placement {
        let have = self.lineage.digest(block.number);
        let rows = self.lineage.row_count() as u64;
        place(
            self.len(),
            rows,
            have,
            last_digest(&self.lineage),
            block,
            digest,
            marked,
        )
    }

    fn replay<S: Scratch>(
        self,
        alloc: Global,
        scratch: &mut S,
        block: &Block,
        digest: Digest,
    ) -> Result<LineageChain, HostError> {
        match self.with_rows(alloc, scratch, block, digest) {
            Ok((longer, _run)) => Ok(longer),
            Err(error) => Err(error),
        }
    }

    fn give_up(self) {
        let LineageChain { lineage, world } = self;
        lineage.give_up();
        discard(world);
    }
}
