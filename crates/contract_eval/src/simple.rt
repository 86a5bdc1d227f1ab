//! Each statement without a block, and each condition, is charged when it begins.

ghost use Rattle.std.specs.Prelude.{◌≤◌, List};
ghost use Rattle.lc_base.specs.declared.tx_status.TxStatus.TheVariants as statuses;
ghost use Rattle.contract_tree.specs.Tree.{tree_of};
ghost use Rattle.eval_expressions.specs.{
  contract_semantics.declared.variable.Variable.{Variable},
  contract_semantics.declared.charge.TheConstants.{CHARGE_NODE},
  contract_semantics.Steps.{machine, after_charge, Done, Failed},
  contract_semantics.Statements.{Returns, condition_step},
  contract_semantics.Answers.{Gives, IsNoFault},
  Runs.{KeepsRun, Tells},
};
ghost use Rattle.dep_capture.specs.Captured.{Captured};
ghost use Rattle.contract_eval.specs.{Bindings.{bind_run}, Flows.{Flows}};

use crate::binding::Binding;
use crate::flow::Flow;
use contract_tree::Expr;
use eval_expressions::{CHARGE_NODE, EvalStop, Run, Variables, charge, holds, value};
use lc_base::{Host, Name, TxStatus};

/// Charges a statement, and returns whether its condition holds.
#[inline(always)]
pub fn condition_step<C, H: Host>(
    run: &mut Run<C, H>,
    variables: &Variables,
    test: &Expr,
) -> Result<bool, EvalStop>
    requires { H.ready run.old.host.now }
    ensures step { Tells H.Host run.old run.new (λ s m k. Gives (λ holds. holds) (condition_step s (tree_of test.now) variables.now m) result k) }
    ensures keeps { KeepsRun H.Host run.old run.new result }
{
    charge(&mut run.left, CHARGE_NODE)?;
    let value = value(run, variables, test)?;
    Ok(holds(&value))
}

/// Runs `let name = x;` or `name = x;`.
pub fn bind_statement<C, H: Host>(
    run: &mut Run<C, H>,
    variables: &mut Variables,
    binding: Binding,
    name: &Name,
    x: &Expr,
) -> Result<Flow, EvalStop>
    requires { H.ready run.old.host.now }
    ensures step { Tells H.Host run.old run.new (λ s m k. Flows (bind_run s binding name.now (tree_of x.now) variables.old m) result variables.new k) }
    ensures keeps { KeepsRun H.Host run.old run.new result }
{
    charge(&mut run.left, CHARGE_NODE)?;
    let value = value(run, variables, x)?;
    match binding {
        Binding::Declares => variables.declare(name, value)?,
        Binding::Assigns => variables.assign(name, value),
    }
    Ok(Flow::Goes)
}

/// Runs `fail;`.
pub fn fail_statement(left: &mut u32) -> Result<Flow, EvalStop>
    ensures step { (variables : List Variable) (c : Captured) → Flows (after_charge CHARGE_NODE (machine left.old c) (λ m. Failed statuses.Failed m)) result variables (machine left.new c) }
    ensures left { left.new ≤ left.old }
    ensures no_fault { IsNoFault result }
{
    charge(left, CHARGE_NODE)?;
    Err(EvalStop::Status(TxStatus::Failed))
}

/// Runs `return;`.
pub fn return_statement(left: &mut u32) -> Result<Flow, EvalStop>
    ensures step { (variables : List Variable) (c : Captured) → Flows (after_charge CHARGE_NODE (machine left.old c) (λ m. Done Returns m)) result variables (machine left.new c) }
    ensures left { left.new ≤ left.old }
    ensures no_fault { IsNoFault result }
{
    charge(left, CHARGE_NODE)?;
    Ok(Flow::Returns)
}
