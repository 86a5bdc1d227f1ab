//! Running a Call: a call that fails writes no rows.

ghost use Rattle.std.specs.Prelude.{◌≡◌, ◌≤◌, Some, IfSome, IfOk, IsErrOf};
ghost use Rattle.lc_base.specs.Faults.{HasCause};
ghost use Rattle.contract_tree.specs.Tree.{contract_of};
ghost use Rattle.dep_capture.specs.Captured.{AreLawfulRows};
ghost use Rattle.world_state.specs.World.{StandsForRows};
ghost use Rattle.contract_eval.specs.{
  contract_semantics.Answers.{place_in},
  contract_semantics.Calls.{rows_written},
};
ghost use Rattle.chain_exec.specs.{
  BlockRows.{AreTxRows},
  Effect.{result_effect, call_effect},
  Running.{scene_at, call_in, run_left, StagesRows},
};

use crate::receipt::Receipt;
use crate::staging::{TxRun, or_memory, stage, without_rows};
use contract_eval::{CallSite, Checked, Outcome, call};
use dep_capture::Capture;
use lc_base::{Host, HostError, Memory, RowList, TxStatus, ValueList};
use std::alloc::Global;
use world_state::World;

/// The rows of the puts of a call, or no row if the call failed.
fn rows_written(
    alloc: Global,
    number: u32,
    at: u16,
    status: TxStatus,
    capture: Capture,
) -> Result<RowList, Memory>
    ensures rows { IfOk result (λ rows. rows ≡ rows_written number at status capture) }
    ensures lawful { IfOk result (λ rows. AreLawfulRows capture.reads rows) }
{
    match status {
        TxStatus::Ok => capture.take_rows(number, at),
        _ => Ok(RowList::new(alloc)),
    }
}

/// What a call hands to its block, by how it ended, and what it read and put.
fn run_of_outcome(
    alloc: Global,
    number: u32,
    at: u16,
    outcome: Outcome,
    capture: Capture,
) -> Result<TxRun, HostError>
    ensures run { IfOk result (λ run. run ≡ run_left
        (result_effect number at (record { outcome = outcome; capture = capture }))) }
    ensures lawful { IfOk result (λ run. AreLawfulRows capture.reads run.rows) }
    ensures no_fault { IsErrOf result HostError.Fault → ⊥ }
{
    match rows_written(alloc, number, at, outcome.status, capture) {
        Err(Memory) => Err(HostError::Memory),
        Ok(rows) => Ok(TxRun {
            receipt: Receipt {
                status: outcome.status,
                cost: outcome.cost,
            },
            rows,
        }),
    }
}

/// Runs a Call at the index `at` of a block, and stages its rows. The status is `NoContract`, at
/// cost 0, if no contract has the name.
pub(crate) fn run_call<H: Host>(
    alloc: Global,
    site: &CallSite,
    args: &ValueList,
    world: &mut World<Checked>,
    host: &mut H,
    at: u16,
) -> Result<TxRun, HostError>
    requires ready { H.ready host.old }
    requires stands { IfSome (H.rows host.old) (StandsForRows world.old) }
    ensures same { H.same host.old host.new }
    ensures effect { IfSome (H.rows host.old) (λ rows. IfOk result (λ run. run ≡ run_left
        (call_in rows world.old site.now args.now at))) }
    ensures stages { IfOk result (λ run. StagesRows world.old world.new run.rows) }
    ensures codes { world.new.staged_codes ≡ world.old.staged_codes }
    ensures lawful { IfOk result (λ run. AreTxRows (place_in world.old) site.now.number at run.rows) }
    ensures cost { IfOk result (λ run. run.receipt.cost ≤ site.now.budget) }
    ensures cause { HasCause (H.host_faults host.old) (H.host_faults host.new) (IsErrOf result HostError.Fault) }
{
    let Some(code) = world.code(&site.contract) else {
        return Ok(without_rows(alloc, TxStatus::NoContract));
    };
    let mut capture = Capture::new(alloc);
    let outcome = call(alloc, code, site, args, world, host, &mut capture)?;
    let run = run_of_outcome(alloc, site.number, at, outcome, capture)?;
    or_memory(stage(world, run))
}
