//! Building the chain of a seed: each block is made with the digest of the one before as its
//! parent.

ghost use Rattle.std.specs.Prelude.{
  ◌≡◌,
  ℕ,
  ◌+◌,
  ◌*◌,
  ◌<◌,
  ◌≤◌,
  true,
  List,
  [],
  ◌∷◌,
  ◌++◌,
  length,
  IfOk,
  IsErrOf,
};
ghost use Rattle.lc_base.specs.Faults.{HasCause};
ghost use Rattle.lc_io.specs.Scratch.{is_known, Retains};
ghost use Rattle.dep_capture.specs.declared.limits.TheConstants.{MAX_KEYS_PUT};
ghost use Rattle.block_codec.specs.{
  Placement.{digest_of},
  Spelling.{Spells},
  declared.block.Block.{Block as Blocks},
  declared.limits.TheConstants.{MAX_BLOCKS},
  declared.placement.Placement.TheVariants.{Next},
};
ghost use Rattle.rooted_chain.specs.{
  chain_exec.Compiled.{compiled_in},
  chain_replay.Chain.{placement_in, HasRoom, StandsFor},
  merkle_dag.Lineage.{AgreesWith},
  Roots.{kept_in, lineage_in},
};
ghost use Rattle.chain_pack.specs.Generator.{first_blocks, progress};
ghost use Rattle.chain_load.specs.Building.{HasAdded};

use block_codec::{DecodeError, NO_PARENT, block_digest, decode};
use chain_pack::Gen;
use lc_base::{Digest, HostError, Memory, Resources};
use lc_io::Scratch;
use rooted_chain::{LineageChain, Replay};
use std::alloc::Global;

/// Adds the block that these bytes spell, which is the chain's next one. On an error the chain is
/// discarded.
fn with_block<S: Scratch>(
    alloc: Global,
    scratch: &mut S,
    chain: LineageChain,
    bytes: &[u8],
) -> Result<LineageChain, HostError>
    requires next { (block : Blocks) × Spells bytes.now block × HasRoom (kept_in chain) block }
    requires agrees { AgreesWith (lineage_in chain) (S.state scratch.old) }
    ensures stands { IfOk result
        (λ longer. is_known (S.state scratch.old) ≡ true → (blocks : List Blocks) (block : Blocks)
        → StandsFor (kept_in chain) blocks → Spells bytes.now block
        → placement_in compiled_in blocks block ≡ Next
        → StandsFor (kept_in longer) (blocks ++ block ∷ [])) }
    ensures digests { (block : Blocks) → Spells bytes.now block
        → IfOk result (λ longer. longer.digests ≡ chain.digests ++ digest_of block ∷ []) }
    ensures few { (block : Blocks) → Spells bytes.now block
        → IfOk result (λ longer. length longer.rows ≤ length chain.rows + MAX_KEYS_PUT * length
        block.txs) }
    ensures agrees { IfOk result (λ longer. AgreesWith (lineage_in longer) (S.state scratch.new)) }
    ensures retains { Retains (S.state scratch.old) (S.state scratch.new) }
    ensures cause { HasCause (S.scratch_faults scratch.old) (S.scratch_faults scratch.new)
        (IsErrOf result HostError.Fault) }
{
    match decode(alloc, bytes) {
        Ok(block) => {
            let digest = block_digest(bytes);
            match chain.with_rows(alloc, scratch, &block, digest) {
                Ok((longer, _)) => Ok(longer),
                Err(error) => Err(error),
            }
        }
        Err(DecodeError::Malformed { .. }) => unreachable!(),
        Err(DecodeError::Memory) => {
            chain.give_up();
            Err(HostError::Memory)
        }
    }
}

/// A chain of the blocks that a generator has made so far, and the parent of the next one.
struct Building {
    chain: LineageChain,
    generator: Gen,
    parent: Digest,
}

/// Adds the next block of the generator. On an error the chain is discarded.
fn with_next<S: Scratch>(
    alloc: Global,
    scratch: &mut S,
    building: Building,
) -> Result<Building, HostError>
    requires next { (seed : ℕ) × (count : ℕ) × (added : ℕ)
        × HasAdded (is_known (S.state scratch.old)) seed count added (kept_in building.chain)
        building.generator building.parent × (added < count) × (count ≤ MAX_BLOCKS) }
    requires agrees { AgreesWith (lineage_in building.chain) (S.state scratch.old) }
    ensures added { (seed count added : ℕ)
        → HasAdded (is_known (S.state scratch.old)) seed count added (kept_in building.chain)
        building.generator building.parent → added < count → count ≤ MAX_BLOCKS
        → IfOk result (λ more. HasAdded (is_known (S.state scratch.old)) seed count (added + 1)
        (kept_in more.chain) more.generator more.parent) }
    ensures agrees { IfOk result (λ more. AgreesWith (lineage_in more.chain) (S.state scratch.new)) }
    ensures retains { Retains (S.state scratch.old) (S.state scratch.new) }
    ensures cause { HasCause (S.scratch_faults scratch.old) (S.scratch_faults scratch.new)
        (IsErrOf result HostError.Fault) }
{
    let Building {
        chain,
        generator,
        parent,
    } = building;
    match generator.next(alloc, parent) {
        Ok(Some((bytes, generator))) => {
            let parent = block_digest(bytes.as_bytes());
            match with_block(alloc, scratch, chain, bytes.as_bytes()) {
                Ok(chain) => Ok(Building {
                    chain,
                    generator,
                    parent,
                }),
                Err(error) => Err(error),
            }
        }
        Ok(None) => unreachable!(),
        Err(Memory) => {
            chain.give_up();
            Err(HostError::Memory)
        }
    }
}

/// The chain of the first `blocks` blocks of a seed, and the generator after these.
pub(crate) fn chain_made<S: Scratch>(
    resources: Resources,
    scratch: &mut S,
    blocks: u32,
    seed: u32,
) -> Result<(LineageChain, Gen), HostError>
    requires { blocks ≤ MAX_BLOCKS }
    ensures chain { IfOk result
        (λ pair. is_known (S.state scratch.old) ≡ true
        → StandsFor (kept_in pair.0) (first_blocks seed blocks).blocks) }
    ensures digests { IfOk result (λ pair. length pair.0.digests ≡ blocks) }
    ensures generator { IfOk result (λ pair. pair.1 ≡ progress seed blocks blocks) }
    ensures agrees { IfOk result (λ pair. AgreesWith (lineage_in pair.0) (S.state scratch.new)) }
    ensures retains { Retains (S.state scratch.old) (S.state scratch.new) }
    ensures cause { HasCause (S.scratch_faults scratch.old) (S.scratch_faults scratch.new)
        (IsErrOf result HostError.Fault) }
{
    let chain = match LineageChain::start(resources) {
        Ok(chain) => chain,
        Err(Memory) => return Err(HostError::Memory),
    };
    let mut building = Building {
        chain,
        generator: Gen::new(blocks, seed),
        parent: NO_PARENT,
    };
    for _ in 0..blocks {
        building = match with_next(resources.alloc, scratch, building) {
            Ok(more) => more,
            Err(error) => return Err(error),
        };
    }
    let Building {
        chain,
        generator,
        parent: _,
    } = building;
    Ok((chain, generator))
}
