//! Making the blocks of a chain, one after another. All have the first version.

ghost use Rattle.std.specs.Prelude.{◌≡◌, ℕ, ◌<◌, ◌≤◌, length, IfOk, IfSome};
ghost use Rattle.block_codec.specs.Spelling.{Spells};
ghost use Rattle.chain_pack.specs.{
  Draws.{number_below, key_drawn},
  declared.limits.TheConstants.{MAX_TXS_MADE},
  Generator.{
    block_drawn,
    blocks_of_seed,
    first_blocks,
    none_made,
    next_block,
    progress,
    spelling,
    standing_at,
    GoesOn,
    IsPlaced,
  },
};

use crate::draws::Draws;
use crate::txs::txs_drawn;
use block_codec::{Block, EncodeError, FIRST_VERSION, NO_PARENT, block_digest, encode};
use lc_base::{Bytes, Digest, Key, Memory, TextList};
use std::alloc::Global;
use std::marker::Model;

/// Makes the blocks of a chain, one after another, and draws their contents.
#[derive(Drop)]
pub struct Gen {
    state: u64,
    given: u32,
    count: u32,
}

impl Model for Gen {
    ghost use Rattle.std.specs.Prelude.{◌≤◌};
    ghost use Rattle.chain_pack.specs.declared.limits.TheConstants.{MAX_TXS_MADE};
    ghost use Rattle.chain_pack.specs.Generator.{Progress};

    ghost Value = { Progress };

    ghost view = { λ gen. record { state = gen.state; given = gen.given; count = gen.count } };

    ghost invariant = { λ gen. gen.given ≤ gen.count };
}

/// The bytes that spell a block.
#[tactic(auto, unfolding(crate::specs::Generator::spelling))]
fn spell(alloc: Global, block: &Block) -> Result<Bytes, Memory>
    requires { Spells (spelling block.now) block.now }
    ensures bytes { IfOk result (λ bytes. bytes ≡ spelling block.now) }
    ensures lawful { IfOk result (λ bytes. Spells bytes block.now) }
{
    match encode(alloc, block) {
        Ok(bytes) => Ok(bytes),
        Err(EncodeError::Limit) => unreachable!(),
        Err(EncodeError::Memory) => Err(Memory),
    }
}

/// The same digest. The prover learns its length where its bytes are read.
fn with_known_length(digest: Digest) -> Digest
    ensures same { result ≡ digest }
    ensures whole { length digest.0 ≡ 32 }
{
    let _bytes = &digest.0[..];
    digest
}

/// The bytes of a block of the first version whose contents are drawn.
#[tactic(auto, unfolding(crate::specs::Generator::block_drawn))]
fn block_drawn(
    alloc: Global,
    draws: &mut Draws,
    number: u32,
    parent: Digest,
) -> Result<Bytes, Memory>
    ensures bytes { IfOk result (λ bytes. bytes ≡ spelling (block_drawn number parent draws.old).0) }
    ensures lawful { IfOk result (λ bytes. Spells bytes (block_drawn number parent draws.old).0) }
    ensures state { IfOk result (λ bytes. draws.new ≡ (block_drawn number parent draws.old).1) }
{
    let txs = txs_drawn(alloc, draws, number)?;
    let block = Block {
        version: FIRST_VERSION,
        number,
        parent: with_known_length(parent),
        txs,
    };
    spell(alloc, &block)
}

impl Gen {
    /// A generator of `blocks` blocks. No block has been drawn yet: drawing begins at the seed.
    #[tactic(auto, unfolding(crate::specs::Generator::first_blocks))]
    pub fn new(blocks: u32, seed: u32) -> Gen
        ensures start { result ≡ progress seed blocks 0 }
        ensures none { first_blocks seed 0 ≡ none_made seed }
    {
        Gen {
            state: u64::from(seed),
            given: 0,
            count: blocks,
        }
    }

    /// Draws a number below the bound. Later blocks are drawn from the state after it.
    #[tactic(auto, unfolding(crate::specs::Draws::number_below))]
    pub fn draw(&mut self, bound: u32) -> u32
        requires { 0 < bound }
        ensures number { result ≡ (number_below bound self.old.state).0 }
        ensures state { self.new ≡ standing_at (number_below bound self.old.state).1 self.old }
        ensures bound { result < bound }
    {
        let mut draws = Draws::new(self.state);
        let number = draws.number_below(bound);
        self.state = draws.state();
        number
    }

    /// Draws a key, as blocks draw theirs. Later blocks are drawn from the state after it.
    pub fn draw_key(&mut self) -> Key
        ensures key { result ≡ (key_drawn self.old.state).0 }
        ensures state { self.new ≡ standing_at (key_drawn self.old.state).1 self.old }
    {
        let mut draws = Draws::new(self.state);
        let key = draws.key();
        self.state = draws.state();
        key
    }

    /// The bytes of the next block, whose parent is `parent`, and the generator after it; `None`
    /// after the last block.
    #[tactic(auto, using(crate::proofs::Small::drawn_is_placed, crate::proofs::Small::drawn_are_few))]
    pub fn next(self, alloc: Global, parent: Digest) -> Result<Option<(Bytes, Gen)>, Memory>
        ensures next { IfOk result (λ next. next ≡ next_block self parent) }
        ensures lawful { IfOk result (λ next. IfSome next (λ next. Spells next.0 (block_drawn self.given parent self.state).0)) }
        ensures few { length (block_drawn self.given parent self.state).0.txs ≤ MAX_TXS_MADE }
        ensures placed { IsPlaced self.given parent (block_drawn self.given parent self.state).0 }
        ensures goes_on { IfOk result (λ next. (seed : ℕ) → self ≡ progress seed self.count self.given → parent ≡ (first_blocks seed self.given).parent → GoesOn seed self next) }
    {
        if self.given == self.count {
            return Ok(None);
        }
        let mut draws = Draws::new(self.state);
        let bytes = block_drawn(alloc, &mut draws, self.given, parent)?;
        Ok(Some((
            bytes,
            Gen {
                state: draws.state(),
                given: self.given + 1,
                count: self.count,
            },
        )))
    }
}

/// The bytes of the first `blocks` blocks of a seed, in order.
pub fn blocks_of_seed(alloc: Global, blocks: u32, seed: u32) -> Result<TextList, Memory>
    ensures { IfOk result (λ texts. texts ≡ blocks_of_seed blocks seed) }
{
    let mut texts = TextList::new(alloc);
    let mut generator = Gen::new(blocks, seed);
    let mut parent = NO_PARENT;
    for _ in 0..blocks {
        match generator.next(alloc, parent)? {
            Some((bytes, rest)) => {
                parent = block_digest(bytes.as_bytes());
                texts.push(bytes)?;
                generator = rest;
            }
            None => unreachable!(),
        }
    }
    Ok(texts)
}
