//! Questions about each row of chains, answered by plain rows and by a lineage over a scratch
//! device: the answers are the same. And the root at a block is the same whether it was made with
//! the block or is made when it is asked for, at the last block by its tree and at an older one by a
//! walk over the index.

ghost use Rattle.lc_io.specs.MemScratch.{state_over};
ghost use Rattle.merkle_dag.specs.Lineage.{AgreesWith};

use crate::acts::{Act, holds_of};
use crate::lineages::{chain_of, device, is_same_answer};
use crate::versions::Steps;
use chain_pack::blocks_of_seed;
use chain_replay::{Chain, Replay};
use lc_base::{Kind, Query, TextList};
use lc_io::MemScratch;
use merkle_dag::Lineage;
use prov_query::ask;
use rooted_chain::AllRootsChain;
use std::alloc::Global;

/// The number of blocks of a chain whose rows are asked about.
const BLOCKS: u32 = 16;

/// The seeds of the chains whose rows are asked about.
const SEEDS: [u32; 3] = [1, 7, 2026];

/// The number of blocks of the chain whose roots are asked for.
const ROOTS: u32 = 24;

/// The seed of the chain whose roots are asked for.
const SEED: u32 = 7;

/// The questions about a row: the kind, and the least block, up to which it is asked if the row's
/// own is lower.
const QUESTIONS: [(Kind, u32); 6] = [
    (Kind::Hist, 0),
    (Kind::Hist, BLOCKS - 1),
    (Kind::Back, 0),
    (Kind::Back, BLOCKS - 1),
    (Kind::Fwd, 0),
    (Kind::Fwd, BLOCKS - 1),
];

/// Whether both answer a question alike.
fn answer_alike(
    alloc: Global,
    chain: &mut Chain,
    lineage: &mut Lineage,
    scratch: &mut MemScratch,
    query: &Query,
) -> bool
    requires agrees { AgreesWith lineage.old (state_over scratch.old.bytes) }
    ensures agrees { AgreesWith lineage.new (state_over scratch.new.bytes) }
{
    let plain = chain.ask(query);
    let found = ask(alloc, lineage, scratch, query, &mut Steps::new());
    match (&plain, &found) {
        (Ok(plain), Ok(found)) => is_same_answer(plain, found),
        _ => false,
    }
}

/// Whether both answer each question about a row alike: at its block, and at the last one.
fn answer_row_alike(
    alloc: Global,
    chain: &mut Chain,
    lineage: &mut Lineage,
    scratch: &mut MemScratch,
    index: u32,
) -> bool
    requires agrees { AgreesWith lineage.old (state_over scratch.old.bytes) }
    ensures agrees { AgreesWith lineage.new (state_over scratch.new.bytes) }
{
    if index as usize >= lineage.row_count() {
        return false;
    }
    let facts = lineage.row_facts(index);
    let (key, block) = (facts.key, facts.block);
    for question in QUESTIONS {
        let (kind, least) = question;
        let query = Query {
            kind,
            key,
            at: block.max(least),
        };
        if !answer_alike(alloc, chain, lineage, scratch, &query) {
            return false;
        }
    }
    true
}

/// Whether both have rows, and answer each question about each row alike.
fn answer_rows_alike(
    alloc: Global,
    chain: &mut Chain,
    lineage: &mut Lineage,
    scratch: &mut MemScratch,
) -> bool
    requires agrees { AgreesWith lineage.old (state_over scratch.old.bytes) }
    ensures agrees { AgreesWith lineage.new (state_over scratch.new.bytes) }
{
    let rows = lineage.row_count();
    for index in 0..rows as u32 {
        if !answer_row_alike(alloc, chain, lineage, scratch, index) {
            return false;
        }
    }
    rows > 0
}

/// Whether plain rows answer each question about each row as the lineage of the blocks does.
pub(crate) fn has_same_answers(
    alloc: Global,
    blocks: &TextList,
    lineage: &mut Lineage,
    scratch: &mut MemScratch,
) -> bool
    requires agrees { AgreesWith lineage.old (state_over scratch.old.bytes) }
    ensures agrees { AgreesWith lineage.new (state_over scratch.new.bytes) }
{
    let Some(mut other) = device(alloc, &[]) else {
        return false;
    };
    let chain: Option<Chain> = chain_of(alloc, &mut other, blocks);
    match chain {
        Some(mut chain) => {
            let alike = answer_rows_alike(alloc, &mut chain, lineage, scratch);
            chain.give_up();
            alike
        }
        None => false,
    }
}

/// Whether two lineages have the same root at each block, and none is missing.
fn are_roots_alike(one: &Lineage, other: &Lineage) -> bool {
    for at in 0..ROOTS {
        let is_same = match (one.root(at), other.root(at)) {
            (Some(one), Some(other)) => one == other,
            _ => false,
        };
        if !is_same {
            return false;
        }
    }
    true
}

/// Whether a chain of the blocks that makes each root with its block has the roots of the lineage.
pub(crate) fn has_same_roots(alloc: Global, blocks: &TextList, lineage: &Lineage) -> bool {
    let Some(mut other) = device(alloc, &[]) else {
        return false;
    };
    let chain: Option<AllRootsChain> = chain_of(alloc, &mut other, blocks);
    match chain {
        Some(chain) => {
            let made = chain.into_lineage();
            let alike = are_roots_alike(&made, lineage);
            made.give_up();
            alike
        }
        None => false,
    }
}

#[test]
fn answers_are_those_of_plain_rows(rt: HostRuntime) {
    for seed in SEEDS {
        let blocks = blocks_of_seed(rt.alloc(), BLOCKS, seed).ok();
        assert!(rt; holds_of(rt.alloc(), blocks, &[], &[Act::AskAlike]) == Some(true));
    }
}

#[test]
fn roots_are_made_alike(rt: HostRuntime) {
    let blocks = blocks_of_seed(rt.alloc(), ROOTS, SEED).ok();
    assert!(rt; holds_of(rt.alloc(), blocks, &[], &[Act::RootsAlike]) == Some(true));
}
