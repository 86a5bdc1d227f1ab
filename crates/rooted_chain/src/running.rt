//! Running a block over a lineage, whose bodies are read from the device.

ghost use Rattle.std.specs.{
  Prelude.{◌≡◌, ◌≤◌, ◌*◌, true, [], ◌∷◌, ◌++◌, length, map, IfOk, OnOk, IsErrOf},
  List.{All},
};
ghost use Rattle.lc_io.specs.Scratch.{is_known, Retains};
ghost use Rattle.block_codec.specs.Spelling.{IsBlock};
ghost use Rattle.world_state.specs.{Rows.{entry_of}, World.{newest_of, StandsForRows}};
ghost use Rattle.chain_replay.specs.chain_exec.{
  BlockRows.{AreBlockRows},
  Compiled.{compiled_in},
  Fold.{block_effects},
  Running.{history_in, staged_in},
};
ghost use Rattle.chain_replay.specs.Chain.{HasRoom, IsAfter, IsKeptChain};
ghost use Rattle.dep_capture.specs.declared.limits.TheConstants.{MAX_KEYS_PUT};
ghost use Rattle.lc_base.specs.{
  Faults.{HasCause},
  History.{IsLawful},
  declared.digest.Digest.{Digest as Digests},
  declared.host_error.HostError.TheVariants.{Fault},
  declared.row.Row.{Row},
};
ghost use Rattle.prov_query.specs.merkle_dag.Lineage.{AgreesWith, LeavesLineage};
ghost use Rattle.rooted_chain.specs.Roots.{kept_in, lineage_in};

use crate::chain::{LineageChain, discard};
use block_codec::Block;
use chain_replay::{BlockRun, run_block};
use contract_check::Checked;
use lc_base::{HostError, Memory};
use lc_io::Scratch;
use prov_query::{Lineage, Reading};
use std::alloc::Global;
use world_state::World;

/// Runs a block over a lineage, as `run_block` does. What the block does is known only if it is
/// known which bytes the device holds; its rows are lawful in either case.
pub(crate) fn run_next<S: Scratch>(
    alloc: Global,
    lineage: &mut Lineage,
    scratch: &mut S,
    world: &mut World<Checked>,
    block: &Block,
) -> Result<BlockRun, HostError>
    requires agrees { AgreesWith lineage.old (S.state scratch.old) }
    requires stands { StandsForRows world.old lineage.old.rows }
    requires is_block { IsBlock block.now }
    requires no_rows { world.old.staged ≡ [] }
    requires no_codes { world.old.staged_codes ≡ [] }
    ensures effects { is_known (S.state scratch.old) ≡ true → IfOk result (λ run. staged_in world.new run ≡ block_effects compiled_in (history_in lineage.old.rows world.old) block.now) }
    ensures newest { OnOk result (world.new.newest ≡ world.old.newest) }
    ensures codes { OnOk result (world.new.codes ≡ world.old.codes) }
    ensures staged { IfOk result (λ run. world.new.staged ≡ map entry_of run.rows) }
    ensures lawful { IfOk result (λ run. AreBlockRows (newest_of world.old) block.now.number (length block.now.txs) run.rows) }
    ensures leaves { LeavesLineage S.state S.scratch_faults lineage.old scratch.old lineage.new
        scratch.new (IsErrOf result Fault) }
{
    let mut reading = Reading { lineage, scratch };
    match run_block(alloc, &mut reading, world, block) {
        Ok(run) => Ok(run),
        Err(error) => Err(error),
    }
}

/// A chain whose next block has run, and whose lineage is to get the rows of the block: the lineage
/// of the blocks before it, the state after it, and what it did.
pub(crate) struct Committed {
    pub lineage: Lineage,
    pub world: World<Checked>,
    pub run: BlockRun,
}

impl LineageChain {
    /// Runs the next block, and commits what it did to the state. On an error the chain is
    /// discarded.
    pub(crate) fn run_and_commit<S: Scratch>(
        self,
        alloc: Global,
        scratch: &mut S,
        block: &Block,
    ) -> Result<Committed, HostError>
        requires room { HasRoom (kept_in self) block.now }
        requires is_block { IsBlock block.now }
        requires agrees { AgreesWith (lineage_in self) (S.state scratch.old) }
        // Holds if it is known which bytes the device holds.
        ensures after { IfOk result
            (λ done. is_known (S.state scratch.old) ≡ true → (digest : Digests)
            → IsAfter (kept_in self) block.now digest (record { digests = self.digests ++ digest ∷ []; rows = self.rows ++ done.run.rows; codes = done.world.codes }) done.run) }
        // Holds in either case.
        ensures digests { IfOk result (λ done. done.lineage.digests ≡ self.digests) }
        ensures rows { IfOk result (λ done. done.lineage.rows ≡ self.rows) }
        ensures numbered { IfOk result (λ done. All (λ (row : Row). row.block ≡ block.now.number) done.run.rows) }
        ensures lawful { IfOk result (λ done. IsLawful (self.rows ++ done.run.rows)) }
        ensures few { IfOk result (λ done. length done.run.rows ≤ MAX_KEYS_PUT * length block.now.txs) }
        ensures kept { IfOk result
            (λ done. (digest : Digests)
            → IsKeptChain (self.digests ++ digest ∷ []) (self.rows ++ done.run.rows) done.world) }
        ensures agrees { IfOk result (λ done. AgreesWith done.lineage (S.state scratch.new)) }
        ensures retains { Retains (S.state scratch.old) (S.state scratch.new) }
        ensures cause { HasCause (S.scratch_faults scratch.old) (S.scratch_faults scratch.new) (IsErrOf result Fault) }
    {
        let LineageChain {
            mut lineage,
            mut world,
        } = self;
        let run = match run_next(alloc, &mut lineage, scratch, &mut world, block) {
            Ok(run) => run,
            Err(error) => {
                lineage.give_up();
                discard(world);
                return Err(error);
            }
        };
        match world.commit() {
            Ok(world) => Ok(Committed {
                lineage,
                world,
                run,
            }),
            Err(Memory) => {
                lineage.give_up();
                Err(HostError::Memory)
            }
        }
    }
}
