//! Running a load: as many look-ups as blocks, over a chain that takes no further block.

ghost use Rattle.std.specs.Prelude.{◌≡◌, ℕ, ◌<◌, ◌≤◌, ◌+◌, ◌-◌, ◌*◌, true, length, IfOk, IsErrOf};
ghost use Rattle.lc_base.specs.Faults.{HasCause};
ghost use Rattle.lc_io.specs.Scratch.{is_known, Retains};
ghost use Rattle.skip_links.specs.Paths.{binary_digits};
ghost use Rattle.block_codec.specs.declared.limits.TheConstants.{MAX_BLOCKS};
ghost use Rattle.rooted_chain.specs.{
  chain_exec.Compiled.{compiled_in},
  chain_replay.Chain.{StandsFor},
  merkle_dag.Lineage.{AgreesWith},
  Roots.{kept_in, lineage_in, root_in},
};
ghost use Rattle.chain_pack.specs.Generator.{first_blocks, progress};
ghost use Rattle.chain_load.specs.Loads.{load_of};

use crate::building::chain_made;
use crate::looking::look_up_all;
use chain_pack::Gen;
use lc_base::{Digest, HostError, Resources};
use lc_io::Scratch;
use rooted_chain::LineageChain;
use std::alloc::Global;

/// What a load reports.
#[derive(Clone, Copy)]
pub struct Load {
    /// The number of blocks.
    pub blocks: u32,
    /// The number of rows.
    pub rows: usize,
    /// The root at the last block.
    pub root: Digest,
    /// The number of look-ups, which is that of blocks.
    pub lookups: u32,
    /// The number of versions that all look-ups looked at.
    pub entries: u64,
    /// The most versions that one of them looked at.
    pub most: u64,
    /// How many bytes the values have that they found; a number has eight. It is not printed.
    pub value_bytes: u64,
}

/// The root at the last block of a chain of `blocks` blocks.
fn last_root(chain: &LineageChain, blocks: u32) -> Digest
    requires some { 0 < blocks }
    requires blocks { length chain.now.digests ≡ blocks }
    ensures { (seed : ℕ) → StandsFor (kept_in chain.now) (first_blocks seed blocks).blocks
        → result.0 ≡ root_in compiled_in (first_blocks seed blocks).blocks (blocks - 1) }
{
    match chain.root(blocks - 1) {
        Some(root) => root,
        None => unreachable!(),
    }
}

/// Makes the look-ups over the chain, which takes no further block, and reports the load.
fn load_over<S: Scratch>(
    alloc: Global,
    scratch: &mut S,
    chain: LineageChain,
    generator: Gen,
    blocks: u32,
) -> Result<Load, HostError>
    requires some { 0 < blocks }
    requires blocks { length chain.digests ≡ blocks }
    requires agrees { AgreesWith (lineage_in chain) (S.state scratch.old) }
    ensures load { is_known (S.state scratch.old) ≡ true → (seed : ℕ)
        → StandsFor (kept_in chain) (first_blocks seed blocks).blocks
        → generator ≡ progress seed blocks blocks
        → IfOk result (λ load. load ≡ load_of compiled_in blocks seed) }
    ensures most { IfOk result (λ load. load.most ≤ 2 * binary_digits (blocks - 1) + 2) }
    ensures retains { Retains (S.state scratch.old) (S.state scratch.new) }
    ensures cause { HasCause (S.scratch_faults scratch.old) (S.scratch_faults scratch.new)
        (IsErrOf result HostError.Fault) }
{
    let root = last_root(&chain, blocks);
    let mut lineage = chain.into_lineage();
    let rows = lineage.row_count();
    let looked = look_up_all(alloc, &mut lineage, scratch, generator, blocks);
    lineage.give_up();
    match looked {
        Ok(looked) => Ok(Load {
            blocks,
            rows,
            root,
            lookups: blocks,
            entries: looked.entries,
            most: looked.most,
            value_bytes: looked.value_bytes,
        }),
        Err(error) => Err(error),
    }
}

/// Adds the first `blocks` blocks of a seed to a chain in memory, whose bodies are on the scratch
/// device, and makes as many look-ups, which are drawn after the blocks. What the load reports is
/// known only if it is known which bytes the device holds; but no look-up ever looks at more than
/// `2 * B + 2` versions, where `B` is the number of binary digits of the last block's number.
pub fn load_chain<S: Scratch>(
    resources: Resources,
    scratch: &mut S,
    blocks: u32,
    seed: u32,
) -> Result<Load, HostError>
    requires some { 0 < blocks }
    requires few { blocks ≤ MAX_BLOCKS }
    ensures load { is_known (S.state scratch.old) ≡ true
        → IfOk result (λ load. load ≡ load_of compiled_in blocks seed) }
    ensures most { IfOk result (λ load. load.most ≤ 2 * binary_digits (blocks - 1) + 2) }
    ensures retains { Retains (S.state scratch.old) (S.state scratch.new) }
    ensures cause { HasCause (S.scratch_faults scratch.old) (S.scratch_faults scratch.new)
        (IsErrOf result HostError.Fault) }
{
    match chain_made(resources, scratch, blocks, seed) {
        Ok((chain, generator)) => load_over(resources.alloc, scratch, chain, generator, blocks),
        Err(error) => Err(error),
    }
}
