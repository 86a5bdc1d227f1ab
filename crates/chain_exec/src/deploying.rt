//! Running a Deploy: the name is tested before the source is read, and the code is staged only.

ghost use Rattle.std.specs.{
  Prelude.{◌≡◌, ◌<◌, ◌^◌, [], ◌++◌, length, IfOk, OnOk},
  Option.{option_map},
};
ghost use Rattle.contract_tree.specs.Tree.{contract_of};
ghost use Rattle.contract_eval.specs.contract_check.Faults.{check_fault};
ghost use Rattle.chain_exec.specs.{
  Compiled.{faultless, compiled_in},
  Effect.{free},
  Running.{codes_seen, deploy_in, StagesRows, HasEffect},
};

use crate::staging::{TxRun, without_rows};
use contract_eval::{CheckError, Checked, check};
use contract_parse::{SyntaxError, parse};
use contract_tree::Contract;
use lc_base::{Memory, Name, TxStatus};
use std::alloc::Global;
use world_state::World;

/// The checked contract, or `None` if its names or kinds have a fault.
fn faultless(alloc: Global, contract: Contract) -> Result<Option<Checked>, Memory>
    ensures { IfOk result (λ code. option_map contract_of code
        ≡ faultless (contract_of contract) (check_fault (contract_of contract))) }
{
    match check(alloc, contract) {
        Ok(checked) => Ok(Some(checked)),
        Err(CheckError::Refused { .. }) => Ok(None),
        Err(CheckError::Memory) => Err(Memory),
    }
}

/// Compiles a source of this edition; `None` if it doesn't parse as a contract, or its names or kinds
/// have a fault.
fn compile(alloc: Global, source: &[u8], edition: u8) -> Result<Option<Checked>, Memory>
    requires { length source.now < 2 ^ 32 }
    ensures { IfOk result (λ code. option_map contract_of code ≡ compiled_in edition source.now) }
{
    match parse(alloc, source, edition) {
        Ok(contract) => faultless(alloc, contract),
        Err(SyntaxError::Refused { .. }) => Ok(None),
        Err(SyntaxError::Memory) => Err(Memory),
    }
}

/// Runs a Deploy of a source of this edition, which writes no row and costs nothing: stages the
/// contract of the source under the name. The status is `Taken` if the name is taken, else `BadSource` if the source is no
/// contract.
pub(crate) fn run_deploy(
    alloc: Global,
    world: &mut World<Checked>,
    edition: u8,
    name: &Name,
    source: &[u8],
) -> Result<TxRun, Memory>
    requires { length source.now < 2 ^ 32 }
    ensures effect { IfOk result (λ run. HasEffect world.old world.new run (deploy_in world.old edition name.now source.now)) }
    ensures stages { IfOk result (λ run. StagesRows world.old world.new run.rows) }
    ensures cost { IfOk result (λ run. run ≡ record { receipt = free run.receipt.status; rows = [] }) }
{
    if world.taken(name) {
        return Ok(without_rows(alloc, TxStatus::Taken));
    }
    let Some(code) = compile(alloc, source, edition)? else {
        return Ok(without_rows(alloc, TxStatus::BadSource));
    };
    world.stage_code(*name, code)?;
    Ok(without_rows(alloc, TxStatus::Ok))
}
