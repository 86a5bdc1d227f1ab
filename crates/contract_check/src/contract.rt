//! Checking a whole contract: function by function, up to the first fault.

ghost use Rattle.std.specs.{
  Prelude.{◌≡◌, ◌++◌, ◌∷◌, [], ℕ, List, None, Some, map, find, IfSome, OnOk, IfErr},
  Option.{option_copied},
};
ghost use Rattle.lc_base.specs.Answers.{Answers};
ghost use Rattle.contract_check.specs.{
  Functions.{is_called},
  Faults.{fault_of, fault_in, unless_fault, names_after_params, names_after_function, used_after_name, used_after_functions, check_fault},
  WellKinded.{IsGoodFunction, WellKinded, IsKindedAnywhere},
};
ghost use Rattle.contract_tree.specs.Tree.{function_of, contract_of};

use crate::fault::{CheckError, CheckKind};
use crate::scope::Scope;
use crate::statement::{declare, statements};
use crate::used::UsedNames;
use contract_tree::{Contract, Function, Param};
use lc_base::Name;
use std::alloc::Global;
use std::marker::Model;

fn params(scope: &mut Scope, params: &[Param]) -> Result<(), CheckError>
    ensures { Answers (λ _. scope.new) fault_of result (names_after_params scope.old params.now) }
{
    for param in params {
        declare(scope, param.at, &param.name, param.kind)?;
    }
    Ok(())
}

fn name_once(used: &mut UsedNames, function: &Function) -> Result<(), CheckError>
    ensures { Answers (λ _. used.new) fault_of result (used_after_name used.old (function_of function.now)) }
{
    if used.add(&function.name)? {
        return Ok(());
    }
    Err(CheckError::Refused {
        at: function.at,
        kind: CheckKind::Again,
    })
}

fn function(alloc: Global, function: &Function) -> Result<(), CheckError>
    ensures { Answers (λ done. done) fault_of result (unless_fault tt (fault_in (names_after_function (function_of function.now)))) }
{
    let mut scope = Scope::new(alloc);
    params(&mut scope, &function.params)?;
    statements(&mut scope, &function.body)
}

#[tactic(auto, unfolding(crate::specs::Faults::check_fault))]
fn functions(alloc: Global, functions: &[Function]) -> Result<(), CheckError>
    ensures { Answers (λ done. done) fault_of result (unless_fault tt (check_fault (map function_of functions.now))) }
{
    let mut used = UsedNames::new(alloc);
    for next in functions {
        name_once(&mut used, next)?;
        function(alloc, next)?;
    }
    Ok(())
}

fn first_fault(alloc: Global, contract: &Contract) -> Result<(), CheckError>
    ensures { Answers (λ done. done) fault_of result (unless_fault tt (check_fault (contract_of contract.now))) }
{
    functions(alloc, &contract.functions)
}

/// A contract that is well kinded. Only `check` makes one.
#[derive(Drop)]
pub struct Checked {
    contract: Contract,
}

impl Model for Checked {
    ghost use Rattle.std.specs.Prelude.{◌≡◌, None};
    ghost use Rattle.contract_tree.specs.declared.tree.Contract.{Contract};
    ghost use Rattle.contract_tree.specs.Tree.{contract_of};
    ghost use Rattle.contract_check.specs.Faults.{check_fault};
    ghost use Rattle.contract_tree.specs.contracts.tree.Contract as contracts;

    ghost Value = { Contract };

    ghost coded = { contracts.the_row.coded };

    ghost view = { λ checked. checked.contract };

    ghost invariant = { λ checked. check_fault (contract_of checked.contract) ≡ None };
}

impl Checked {
    /// The contract.
    pub fn contract(&self) -> &Contract
        ensures same { result.now ≡ self.now }
        ensures well_kinded { WellKinded (contract_of result.now) }
    {
        &self.contract
    }

    /// The function with this name, if the contract has one.
    pub fn function(&self, name: &Name) -> Option<&Function>
        ensures named { option_copied result ≡ find (is_called name.now) self.now.functions.items }
        ensures good { IfSome (option_copied result) (λ function. IsGoodFunction (function_of function)) }
    {
        function_named(&self.contract.functions, name)
    }
}

fn is_called(function: &Function, name: &Name) -> bool
    ensures { result ≡ is_called name.now function.now }
{
    function.name == *name
}

fn function_named<'a>(functions: &'a [Function], name: &Name) -> Option<&'a Function>
    ensures { option_copied result ≡ find (is_called name.now) functions.now }
{
    functions.iter().find(|function| is_called(function, name))
}

/// Checks the names and kinds of a contract, and returns it if it has no fault. Of contracts that
/// differ in their offsets only, all are well kinded or none is.
///
/// # Errors
///
/// The first fault in the order of checking, or `Memory`.
pub fn check(alloc: Global, contract: Contract) -> Result<Checked, CheckError>
    ensures answer { Answers (λ checked. checked) fault_of result (unless_fault contract (check_fault (contract_of contract))) }
    ensures well_kinded { OnOk result (WellKinded (contract_of contract)) }
    ensures offsets { IsKindedAnywhere (contract_of contract) }
    ensures only { WellKinded (contract_of contract) → IfErr result (λ error. error ≡ CheckError.Memory) }
{
    match first_fault(alloc, &contract) {
        Ok(()) => Ok(Checked { contract }),
        Err(error) => Err(error),
    }
}
