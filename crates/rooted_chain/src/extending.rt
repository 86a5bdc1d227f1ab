//! The next block of a chain, and the root at it: a chain whose block couldn't be run, committed and
//! added is discarded.

ghost use Rattle.std.specs.Prelude.{◌≡◌, ◌≤◌, ◌+◌, ◌*◌, true, [], ◌∷◌, ◌++◌, length, IfOk, IsErrOf};
ghost use Rattle.lc_base.specs.{
  Faults.{HasCause},
  declared.host_error.HostError.TheVariants.{Fault},
};
ghost use Rattle.lc_io.specs.Scratch.{is_known, Retains};
ghost use Rattle.dep_capture.specs.declared.limits.TheConstants.{MAX_KEYS_PUT};
ghost use Rattle.block_codec.specs.Spelling.{IsBlock};
ghost use Rattle.chain_replay.specs.{
  chain_exec.Compiled.{compiled_in},
  Chain.{HasRoom, IsAfter, StandsFor},
};
ghost use Rattle.root_laws.specs.Root.{root_of};
ghost use Rattle.prov_query.specs.merkle_dag.Lineage.{AgreesWith};
ghost use Rattle.rooted_chain.specs.Roots.{kept_in, lineage_in, root_in, IsSoWithNext};

use crate::chain::{LineageChain, discard};
use crate::running::Committed;
use block_codec::Block;
use chain_replay::BlockRun;
use lc_base::{Digest, HostError};
use lc_io::Scratch;
use std::alloc::Global;

impl LineageChain {
    /// Runs the next block: the chain with this block after the others, what the block did, and the
    /// root at it, which is kept. On an error the chain is discarded.
    pub fn with_block<S: Scratch>(
        self,
        alloc: Global,
        scratch: &mut S,
        block: &Block,
        digest: Digest,
    ) -> Result<(LineageChain, BlockRun, Digest), HostError>
        requires room { HasRoom (kept_in self) block.now }
        requires is_block { IsBlock block.now }
        requires agrees { AgreesWith (lineage_in self) (S.state scratch.old) }
        // Holds if it is known which bytes the device holds.
        ensures after { IfOk result (λ done. is_known (S.state scratch.old) ≡ true → IsAfter (kept_in self) block.now digest (kept_in done.0) done.1) }
        ensures stands { IfOk result
            (λ done. is_known (S.state scratch.old) ≡ true
            → IsSoWithNext (kept_in self) block.now digest (StandsFor (kept_in done.0))) }
        ensures root_in { IfOk result
            (λ done. is_known (S.state scratch.old) ≡ true
            → IsSoWithNext (kept_in self) block.now digest
            (λ blocks. done.2.0 ≡ root_in compiled_in blocks block.now.number)) }
        // Holds in either case.
        ensures digests { IfOk result (λ done. done.0.digests ≡ self.digests ++ digest ∷ []) }
        ensures rows { IfOk result (λ done. done.0.rows ≡ self.rows ++ done.1.rows) }
        ensures few { IfOk result (λ done. length done.0.rows ≤ length self.rows + MAX_KEYS_PUT * length block.now.txs) }
        ensures root { IfOk result (λ done. done.2.0 ≡ root_of done.0.rows done.0.digests block.now.number) }
        ensures agrees { IfOk result (λ done. AgreesWith (lineage_in done.0) (S.state scratch.new)) }
        ensures retains { Retains (S.state scratch.old) (S.state scratch.new) }
        ensures cause { HasCause (S.scratch_faults scratch.old) (S.scratch_faults scratch.new) (IsErrOf result Fault) }
    {
        let Committed {
            lineage,
            world,
            run,
        } = match self.run_and_commit(alloc, scratch, block) {
            Ok(committed) => committed,
            Err(error) => return Err(error),
        };
        match lineage.add_block(scratch, block.number, digest, &run.rows) {
            Ok((lineage, root)) => {
                let chain = LineageChain { lineage, world };
                Ok((chain, run, root))
            }
            Err(error) => {
                discard(world);
                Err(error)
            }
        }
    }

    /// Runs the next block as `with_block` does, but makes no root: the chain with this block after
    /// the others, and what the block did. The root at it is made when it is asked for.
    pub fn with_rows<S: Scratch>(
        self,
        alloc: Global,
        scratch: &mut S,
        block: &Block,
        digest: Digest,
    ) -> Result<(LineageChain, BlockRun), HostError>
        requires room { HasRoom (kept_in self) block.now }
        requires is_block { IsBlock block.now }
        requires agrees { AgreesWith (lineage_in self) (S.state scratch.old) }
        // Holds if it is known which bytes the device holds.
        ensures after { IfOk result (λ done. is_known (S.state scratch.old) ≡ true → IsAfter (kept_in self) block.now digest (kept_in done.0) done.1) }
        ensures stands { IfOk result
            (λ done. is_known (S.state scratch.old) ≡ true
            → IsSoWithNext (kept_in self) block.now digest (StandsFor (kept_in done.0))) }
        // Holds in either case.
        ensures digests { IfOk result (λ done. done.0.digests ≡ self.digests ++ digest ∷ []) }
        ensures rows { IfOk result (λ done. done.0.rows ≡ self.rows ++ done.1.rows) }
        ensures few { IfOk result (λ done. length done.0.rows ≤ length self.rows + MAX_KEYS_PUT * length block.now.txs) }
        ensures agrees { IfOk result (λ done. AgreesWith (lineage_in done.0) (S.state scratch.new)) }
        ensures retains { Retains (S.state scratch.old) (S.state scratch.new) }
        ensures cause { HasCause (S.scratch_faults scratch.old) (S.scratch_faults scratch.new) (IsErrOf result Fault) }
    {
        let Committed {
            lineage,
            world,
            run,
        } = match self.run_and_commit(alloc, scratch, block) {
            Ok(committed) => committed,
            Err(error) => return Err(error),
        };
        match lineage.add_rows(scratch, block.number, digest, &run.rows) {
            Ok(lineage) => {
                let chain = LineageChain { lineage, world };
                Ok((chain, run))
            }
            Err(error) => {
                discard(world);
                Err(error)
            }
        }
    }
}
