//! Branches, loops, and blocks; the names that a block declares end with it.

ghost use Rattle.std.specs.Prelude.{map};
ghost use Rattle.contract_tree.specs.Tree.{tree_of, statement_of, statement_list};
ghost use Rattle.eval_expressions.specs.{
  contract_semantics.Statements.{
    statement_run,
    statements_run,
    block_run,
    branch_run,
    loop_turn,
    loop_run,
  },
  Runs.{KeepsRun, Tells},
};
ghost use Rattle.contract_eval.specs.{Flows.{Flows}, Turns.{Turns}};

use crate::binding::Binding;
use crate::flow::Flow;
use crate::put::{put_statement, remove_statement};
use crate::simple::{bind_statement, condition_step, fail_statement, return_statement};
use contract_tree::{Expr, Form, Statement};
use eval_expressions::{EvalStop, Run, Variables};
use lc_base::{Host, TxStatus};

/// Runs a statement.
#[cycle(statement)]
fn statement<C, H: Host>(
    run: &mut Run<C, H>,
    variables: &mut Variables,
    x: &Statement,
) -> Result<Flow, EvalStop>
    requires { H.ready run.old.host.now }
    ensures step { Tells H.Host run.old run.new (λ s m k. Flows (statement_run s (statement_of x.now) variables.old m) result variables.new k) }
    ensures keeps { KeepsRun H.Host run.old run.new result }
{
    match &x.form {
        Form::Let { name, value, .. } => {
            bind_statement(run, variables, Binding::Declares, name, value)
        }
        Form::Assign { name, value } => {
            bind_statement(run, variables, Binding::Assigns, name, value)
        }
        Form::If { test, .. } => {
            let chosen = condition_step(run, variables, test)?;
            branch(run, variables, x, chosen)
        }
        Form::While { test, body } => { turns(run, variables, body, test) }
        Form::Put { key, value, from } => put_statement(run, variables, key, value, from),
        Form::Remove { key, from } => remove_statement(run, variables, key, from),
        Form::Fail => fail_statement(&mut run.left),
        Form::Return => return_statement(&mut run.left),
    }
}

/// Runs the chosen block of an `if`.
#[cycle(statement)]
fn branch<C, H: Host>(
    run: &mut Run<C, H>,
    variables: &mut Variables,
    x: &Statement,
    chosen: bool,
) -> Result<Flow, EvalStop>
    requires { H.ready run.old.host.now }
    ensures step { Tells H.Host run.old run.new (λ s m k. Flows (branch_run s (statement_of x.now) chosen variables.old m) result variables.new k) }
    ensures keeps { KeepsRun H.Host run.old run.new result }
{
    match &x.form {
        Form::If { first, second, .. } => {
            if chosen {
                block(run, variables, first)
            } else {
                match second {
                    Some(second) => { block(run, variables, second) }
                    None => Ok(Flow::Goes),
                }
            }
        }
        _ => Ok(Flow::Goes),
    }
}

/// Runs a turn of a loop; `None` if another turn follows.
#[inline(always)]
#[cycle(statement)]
fn turn<C, H: Host>(
    run: &mut Run<C, H>,
    variables: &mut Variables,
    body: &[Statement],
    test: &Expr,
) -> Result<Option<Flow>, EvalStop>
    requires { H.ready run.old.host.now }
    ensures step { Tells H.Host run.old run.new (λ s m k. Turns (loop_turn s (tree_of test.now) (statements_run s (statement_list (map statement_of body.now))) variables.old m) result variables.new k) }
    ensures keeps { KeepsRun H.Host run.old run.new result }
{
    if !condition_step(run, variables, test)? {
        return Ok(Some(Flow::Goes));
    }
    match block(run, variables, body)? {
        Flow::Returns => Ok(Some(Flow::Returns)),
        Flow::Goes => Ok(None),
    }
}

/// Runs a loop. Each of its turns takes a charge, so it ends with the budget at the latest.
#[cycle(statement)]
#[tactic(auto, using(crate::proofs::Loops::no_turn))]
fn turns<C, H: Host>(
    run: &mut Run<C, H>,
    variables: &mut Variables,
    body: &[Statement],
    test: &Expr,
) -> Result<Flow, EvalStop>
    requires { H.ready run.old.host.now }
    ensures step { Tells H.Host run.old run.new (λ s m k. Flows (loop_run s (tree_of test.now) (statement_list (map statement_of body.now)) m.left variables.old m) result variables.new k) }
    ensures keeps { KeepsRun H.Host run.old run.new result }
{
    let most = run.left;
    'rounds: for _ in 0..most {
        match turn(run, variables, body, test) {
            Err(stop) => return Err(stop),
            Ok(Some(flow)) => return Ok(flow),
            Ok(None) => {}
        }
    }
    Err(EvalStop::Status(TxStatus::OutOfSteps))
}

/// Runs the statements of a block, one after another. The names that it declares end with it.
#[cycle(statement)]
pub fn block<C, H: Host>(
    run: &mut Run<C, H>,
    variables: &mut Variables,
    body: &[Statement],
) -> Result<Flow, EvalStop>
    requires { H.ready run.old.host.now }
    ensures step { Tells H.Host run.old run.new (λ s m k. Flows (block_run s (statement_list (map statement_of body.now)) variables.old m) result variables.new k) }
    ensures keeps { KeepsRun H.Host run.old run.new result }
{
    let outer = variables.len();
    for x in body {
        match statement(run, variables, x)? {
            Flow::Returns => return Ok(Flow::Returns),
            Flow::Goes => {}
        }
    }
    variables.keep(outer);
    Ok(Flow::Goes)
}
