//! What a transaction hands to its block: a receipt, and the rows that are staged before the next
//! transaction runs.

ghost use Rattle.std.specs.Prelude.{◌≡◌, [], Ok, IfOk, OnOk, IsErrOf};
ghost use Rattle.chain_exec.specs.{Effect.{free}, Running.{StagesRows}};

use crate::receipt::Receipt;
use contract_eval::Checked;
use lc_base::{HostError, Memory, RowList, TxStatus};
use std::alloc::Global;
use world_state::World;

/// What a transaction hands to its block: its receipt, and the rows that it wrote.
#[derive(Drop)]
pub(crate) struct TxRun {
    pub(crate) receipt: Receipt,
    pub(crate) rows: RowList,
}

/// A receipt with this status and cost 0.
pub(crate) fn free(status: TxStatus) -> Receipt
    ensures { result ≡ free status }
{
    Receipt { status, cost: 0 }
}

/// A transaction that costs nothing and writes nothing.
pub(crate) fn without_rows(alloc: Global, status: TxStatus) -> TxRun
    ensures { result ≡ record { receipt = free status; rows = [] } }
{
    TxRun {
        receipt: free(status),
        rows: RowList::new(alloc),
    }
}

/// Stages the rows of a transaction, and returns the transaction as it was.
pub(crate) fn stage(world: &mut World<Checked>, run: TxRun) -> Result<TxRun, Memory>
    ensures same { IfOk result (λ staged. staged ≡ run) }
    ensures staged { OnOk result (StagesRows world.old world.new run.rows) }
    ensures codes { world.new.staged_codes ≡ world.old.staged_codes }
{
    world.stage(&run.rows)?;
    Ok(run)
}

/// The same result with the error type of calls, which a host can stop too.
pub(crate) fn or_memory(run: Result<TxRun, Memory>) -> Result<TxRun, HostError>
    ensures same { IfOk result (λ given. run ≡ Ok given) }
    ensures no_fault { IsErrOf result HostError.Fault → ⊥ }
{
    match run {
        Ok(run) => Ok(run),
        Err(Memory) => Err(HostError::Memory),
    }
}
