//! A `put` or a `drop` is charged twice: when it begins, and once its parts have been evaluated.

ghost use Rattle.std.specs.{Prelude.{List}, Option.{option_map}};
ghost use Rattle.contract_tree.specs.Tree.{tree_of, parts_of};
ghost use Rattle.eval_expressions.specs.{
  contract_semantics.declared.variable.Variable.{Variable},
  contract_semantics.Statements.{
    parts_values,
    put_run,
    put_of_key,
    put_of_values,
    put_end,
    remove_run,
  },
  contract_semantics.Answers.{Gives},
  Runs.{KeepsRun, Tells},
};
ghost use Rattle.contract_eval.specs.Flows.{Flows};

use crate::flow::Flow;
use crate::putting::put;
use contract_tree::{Expr, ExprList};
use eval_expressions::{CHARGE_NODE, CHARGE_PUT, EvalStop, Run, Variables, charge, value, values};
use lc_base::{Host, Value};

/// The values of the keys in a `from`, if there is one.
fn parts_values<C, H: Host>(
    run: &mut Run<C, H>,
    variables: &Variables,
    parts: &Option<ExprList>,
) -> Result<Option<Vec<Value>>, EvalStop>
    requires { H.ready run.old.host.now }
    ensures step { Tells H.Host run.old run.new (λ s m k. Gives (option_map (λ values. values.items)) (parts_values s variables.now (parts_of parts.now) m) result k) }
    ensures keeps { KeepsRun H.Host run.old run.new result }
{
    match parts {
        None => Ok(None),
        Some(parts) => {
            let values = values(run, variables, parts)?;
            Ok(Some(values))
        }
    }
}

/// The end of a put, once its parts have been evaluated: its further charge, and what it does.
fn put_end<C, H: Host>(
    run: &mut Run<C, H>,
    variables: &Variables,
    key: &Value,
    value: Value,
    parts: Option<Vec<Value>>,
) -> Result<Flow, EvalStop>
    requires { H.ready run.old.host.now }
    ensures step { Tells H.Host run.old run.new (λ s m k. Flows (put_end s.site.contract s.place key.now value (option_map (λ values. values.items) parts) variables.now m) result variables.now k) }
    ensures keeps { KeepsRun H.Host run.old run.new result }
{
    charge(&mut run.left, CHARGE_PUT)?;
    put(
        run.alloc,
        run.world,
        &run.site.contract,
        run.capture,
        key,
        value,
        parts,
    )?;
    Ok(Flow::Goes)
}

/// A put, once its key and its value have been evaluated.
fn put_of_values<C, H: Host>(
    run: &mut Run<C, H>,
    variables: &Variables,
    key: Value,
    value: Value,
    parts: &Option<ExprList>,
) -> Result<Flow, EvalStop>
    requires { H.ready run.old.host.now }
    ensures step { Tells H.Host run.old run.new (λ s m k. Flows (put_of_values s key value (parts_of parts.now) variables.now m) result variables.now k) }
    ensures keeps { KeepsRun H.Host run.old run.new result }
{
    let parts = parts_values(run, variables, parts)?;
    put_end(run, variables, &key, value, parts)
}

/// A put, once its key has been evaluated.
fn put_of_key<C, H: Host>(
    run: &mut Run<C, H>,
    variables: &Variables,
    key: Value,
    x: &Expr,
    parts: &Option<ExprList>,
) -> Result<Flow, EvalStop>
    requires { H.ready run.old.host.now }
    ensures step { Tells H.Host run.old run.new (λ s m k. Flows (put_of_key s key (tree_of x.now) (parts_of parts.now) variables.now m) result variables.now k) }
    ensures keeps { KeepsRun H.Host run.old run.new result }
{
    let value = value(run, variables, x)?;
    put_of_values(run, variables, key, value, parts)
}

/// Runs `put key = x from parts;`.
pub fn put_statement<C, H: Host>(
    run: &mut Run<C, H>,
    variables: &Variables,
    key: &Expr,
    x: &Expr,
    parts: &Option<ExprList>,
) -> Result<Flow, EvalStop>
    requires { H.ready run.old.host.now }
    ensures step { Tells H.Host run.old run.new (λ s m k. Flows (put_run s (tree_of key.now) (tree_of x.now) (parts_of parts.now) variables.now m) result variables.now k) }
    ensures keeps { KeepsRun H.Host run.old run.new result }
{
    charge(&mut run.left, CHARGE_NODE)?;
    let key = value(run, variables, key)?;
    put_of_key(run, variables, key, x, parts)
}

/// Runs `drop key from parts;`, a put of the value that is gone.
pub fn remove_statement<C, H: Host>(
    run: &mut Run<C, H>,
    variables: &Variables,
    key: &Expr,
    parts: &Option<ExprList>,
) -> Result<Flow, EvalStop>
    requires { H.ready run.old.host.now }
    ensures step { Tells H.Host run.old run.new (λ s m k. Flows (remove_run s (tree_of key.now) (parts_of parts.now) variables.now m) result variables.now k) }
    ensures keeps { KeepsRun H.Host run.old run.new result }
{
    charge(&mut run.left, CHARGE_NODE)?;
    let key = value(run, variables, key)?;
    put_of_values(run, variables, key, Value::Gone, parts)
}
