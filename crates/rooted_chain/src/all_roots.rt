//! A chain for a caller who asks for the root of each block.

ghost use Rattle.std.specs.Prelude.{◌≡◌, true};
ghost use Rattle.prov_query.specs.merkle_dag.Lineage.{AgreesWith};
ghost use Rattle.rooted_chain.specs.Roots.{kept_in, lineage_in};

use crate::chain::LineageChain;
use block_codec::{Block, Placement};
use chain_replay::Replay;
use lc_base::{Digest, HostError, Memory, Resources};
use lc_io::Scratch;
use prov_query::Lineage;
use std::alloc::Global;
use std::marker::Model;

/// A chain that makes the root of each block when the block is added, and keeps it. A root that is
/// asked for later costs nothing then, where a `LineageChain` makes it anew of all leaves.
#[derive(Drop)]
pub struct AllRootsChain {
    chain: LineageChain,
}

impl Model for AllRootsChain {
    ghost use Rattle.rooted_chain.specs.Roots.{RootedState};
    ghost use Rattle.contract_tree.specs.contracts.tree.Contract as contracts;
    ghost use Rattle.std.specs.Coded.{codes};

    ghost Value = { RootedState };

    ghost coded = { Prim.hlevel (codes, contracts.the_row.coded) };

    ghost view = { λ all. all.chain };
}

impl AllRootsChain {
    /// The lineage alone, of a chain that is to take no further block.
    pub fn into_lineage(self) -> Lineage
        ensures { result ≡ lineage_in self }
    {
        self.chain.into_lineage()
    }
}

impl Replay for AllRootsChain {
    ghost kept = { λ chain. kept_in chain };

    ghost calls_scratch = { true };

    ghost agrees = { λ chain scratch. AgreesWith (lineage_in chain) scratch };

    fn start(resources: Resources) -> Result<AllRootsChain, Memory> {
        let chain = LineageChain::start(resources)?;
        Ok(AllRootsChain { chain })
    }

    fn place(&self, block: &Block, digest: Digest, marked: bool) -> Placement {
        self.chain.place(block, digest, marked)
    }

    fn replay<S: Scratch>(
        self,
        alloc: Global,
        scratch: &mut S,
        block: &Block,
        digest: Digest,
    ) -> Result<AllRootsChain, HostError> {
        match self.chain.with_block(alloc, scratch, block, digest) {
            Ok((chain, _run, _root)) => Ok(AllRootsChain { chain }),
            Err(error) => Err(error),
        }
    }

    fn give_up(self) {
        self.chain.give_up();
    }
}
