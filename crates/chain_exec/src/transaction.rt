//! Running one transaction: a Set, a Deploy or a Call, each by its own rules.

ghost use Rattle.std.specs.Prelude.{◌≡◌, ◌≤◌, IfSome, IfOk, IsErrOf};
ghost use Rattle.lc_base.specs.Faults.{HasCause};
ghost use Rattle.block_codec.specs.Spelling.{IsTx, text_limit};
ghost use Rattle.world_state.specs.World.{StandsForRows};
ghost use Rattle.contract_eval.specs.contract_semantics.Answers.{place_in};
ghost use Rattle.chain_exec.specs.{
  BlockRows.{AreTxRows, IsWithinBudget},
  Running.{effect_in, StagesRows, HasEffect},
};

use crate::calling::run_call;
use crate::deploying::run_deploy;
use crate::setting::run_set;
use crate::staging::{TxRun, or_memory};
use block_codec::Tx;
use contract_eval::{CallSite, Checked};
use lc_base::{Host, HostError};
use std::alloc::Global;
use world_state::World;

/// Runs the transaction at the index `at` of a block of this edition, and stages in the world what it
/// writes or deploys. An error is `Fault` only if the host failed; the world may then be changed in part.
pub(crate) fn run_transaction<H: Host>(
    alloc: Global,
    host: &mut H,
    world: &mut World<Checked>,
    edition: u8,
    number: u32,
    at: u16,
    tx: &Tx,
) -> Result<TxRun, HostError>
    requires ready { H.ready host.old }
    requires stands { IfSome (H.rows host.old) (StandsForRows world.old) }
    requires is_tx { IsTx (text_limit edition) tx.now }
    ensures same { H.same host.old host.new }
    ensures stages { IfOk result (λ run. StagesRows world.old world.new run.rows) }
    ensures effect { IfSome (H.rows host.old) (λ rows. IfOk result (λ run.
        HasEffect world.old world.new run (effect_in rows world.old edition number at tx.now))) }
    ensures lawful { IfOk result (λ run. AreTxRows (place_in world.old) number at run.rows) }
    ensures cost { IfOk result (λ run. IsWithinBudget tx.now run.receipt) }
    ensures cause { HasCause (H.host_faults host.old) (H.host_faults host.new) (IsErrOf result HostError.Fault) }
{
    match tx {
        Tx::Set {
            key,
            value,
            deps,
            ..
        } => or_memory(run_set(alloc, world, number, at, key, value, deps.as_slice())),
        Tx::Deploy { name, source, .. } => {
            or_memory(run_deploy(alloc, world, edition, name, source.as_bytes()))
        }
        Tx::Call {
            sender,
            contract,
            function,
            args,
            budget,
        } => {
            let site = CallSite {
                contract: *contract,
                function: *function,
                sender: *sender,
                number,
                budget: *budget,
            };
            run_call(alloc, &site, args, world, host, at)
        }
    }
}
