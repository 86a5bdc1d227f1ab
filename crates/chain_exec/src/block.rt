//! Running a block: its transactions run in order, each on the rows and codes that earlier blocks
//! left.

ghost use Rattle.std.specs.{
  Prelude.{◌≡◌, ◌≤◌, [], ◌∷◌, ◌++◌, length, map, IfSome, IfOk, OnOk, IsErrOf},
  List.{AllByRecursion},
};
ghost use Rattle.lc_base.specs.Faults.{HasCause};
ghost use Rattle.block_codec.specs.{
  declared.limits.TheConstants.{MAX_TXS},
  Spelling.{IsTx, IsBlock, text_limit},
};
ghost use Rattle.world_state.specs.{Rows.{entry_of}, World.{newest_of, StandsForRows}};
ghost use Rattle.chain_exec.specs.{
  BlockRows.{AreBlockRows, AreWithinBudgets},
  Compiled.{compiled_in},
  Fold.{nothing_staged, with_effect, effects_after, block_effects},
  Running.{history_in, staged_in},
};

use crate::receipt::{Receipt, ReceiptList};
use crate::staging::TxRun;
use crate::transaction::run_transaction;
use block_codec::{Block, Tx};
use contract_eval::Checked;
use lc_base::{Host, HostError, Memory, RowList};
use std::alloc::Global;
use world_state::World;

/// What a block did: the rows that it wrote, in order, and a receipt for each transaction.
#[derive(Drop)]
pub struct BlockRun {
    pub rows: RowList,
    pub receipts: ReceiptList,
}

impl BlockRun {
    /// Appends what a transaction did.
    fn add(&mut self, run: TxRun) -> Result<(), HostError>
        ensures rows { OnOk result (self.new.rows ≡ self.old.rows ++ run.rows) }
        ensures receipts { OnOk result (self.new.receipts ≡ self.old.receipts ++ run.receipt ∷ []) }
        ensures no_fault { IsErrOf result HostError.Fault → ⊥ }
    {
        let TxRun { receipt, rows } = run;
        match self.rows.append(rows) {
            Err(Memory) => Err(HostError::Memory),
            Ok(()) => match self.receipts.push(receipt) {
                Err(Memory) => Err(HostError::Memory),
                Ok(()) => Ok(()),
            },
        }
    }
}

/// Runs the transactions of a block of this edition, one after another, from the one at index 0.
fn run_txs<H: Host>(
    alloc: Global,
    host: &mut H,
    world: &mut World<Checked>,
    edition: u8,
    number: u32,
    txs: &[Tx],
) -> Result<BlockRun, HostError>
    requires ready { H.ready host.old }
    requires stands { IfSome (H.rows host.old) (StandsForRows world.old) }
    requires few { length txs.now ≤ MAX_TXS }
    requires are_txs { AllByRecursion (IsTx (text_limit edition)) txs.now }
    requires no_rows { world.old.staged ≡ [] }
    requires no_codes { world.old.staged_codes ≡ [] }
    ensures same { H.same host.old host.new }
    ensures effects { IfSome (H.rows host.old) (λ rows. IfOk result (λ run.
        staged_in world.new run ≡ effects_after (compiled_in edition) (history_in rows world.old) number 0 nothing_staged txs.now)) }
    ensures newest { OnOk result (world.new.newest ≡ world.old.newest) }
    ensures codes { OnOk result (world.new.codes ≡ world.old.codes) }
    ensures staged { IfOk result (λ run. world.new.staged ≡ map entry_of run.rows) }
    ensures lawful { IfOk result (λ run. AreBlockRows (newest_of world.old) number (length txs.now) run.rows) }
    ensures costs { IfOk result (λ run. AreWithinBudgets txs.now run.receipts) }
    ensures cause { HasCause (H.host_faults host.old) (H.host_faults host.new) (IsErrOf result HostError.Fault) }
{
    let mut run = BlockRun {
        rows: RowList::new(alloc),
        receipts: ReceiptList::new(alloc),
    };
    for (at, tx) in txs.iter().enumerate() {
        let done = run_transaction(alloc, host, world, edition, number, at as u16, tx)?;
        run.add(done)?;
    }
    Ok(run)
}

/// Runs a block on the state before it: `world` is that state, with nothing staged, and `host`
/// answers what contracts ask of its history. Each transaction sees the rows and codes of earlier
/// blocks only. The edition of the sources that it deploys is the block's version. What the block writes and deploys is staged in the world, for `commit`.
///
/// # Errors
///
/// `Fault` only if the host failed; `Memory` if memory ran out. The world must be discarded after
/// an error: a part of the block may be staged in it.
pub fn run_block<H: Host>(
    alloc: Global,
    host: &mut H,
    world: &mut World<Checked>,
    block: &Block,
) -> Result<BlockRun, HostError>
    requires ready { H.ready host.old }
    requires stands { IfSome (H.rows host.old) (StandsForRows world.old) }
    requires is_block { IsBlock block.now }
    requires no_rows { world.old.staged ≡ [] }
    requires no_codes { world.old.staged_codes ≡ [] }
    ensures same { H.same host.old host.new }
    ensures effects { IfSome (H.rows host.old) (λ rows. IfOk result (λ run.
        staged_in world.new run ≡ block_effects compiled_in (history_in rows world.old) block.now)) }
    ensures newest { OnOk result (world.new.newest ≡ world.old.newest) }
    ensures codes { OnOk result (world.new.codes ≡ world.old.codes) }
    ensures staged { IfOk result (λ run. world.new.staged ≡ map entry_of run.rows) }
    ensures lawful { IfOk result (λ run. AreBlockRows (newest_of world.old) block.now.number (length block.now.txs) run.rows) }
    ensures costs { IfOk result (λ run. AreWithinBudgets block.now.txs run.receipts) }
    ensures cause { HasCause (H.host_faults host.old) (H.host_faults host.new) (IsErrOf result HostError.Fault) }
{
    let edition = block.version;
    let txs = block.txs.as_slice();
    run_txs(alloc, host, world, edition, block.number, txs)
}
