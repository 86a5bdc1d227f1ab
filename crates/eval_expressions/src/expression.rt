//! Expressions are evaluated by recursion over the tree; each part is charged before its operands.

ghost use Rattle.std.specs.{Prelude.{◌≡◌, [], Ok, map}, Option.{option_copied}};
ghost use Rattle.contract_tree.specs.Tree.{tree_of, trees};
ghost use Rattle.contract_semantics.specs.{
  Expressions.{variable_of, value_found, value_of, values_of, call_value, right_value, node_value},
  Answers.{IsResultOf, IsNoFault, Gives},
};
ghost use Rattle.eval_expressions.specs.{
  Runs.{KeepsRun, Tells},
  PlainNumbers.{number_found, plain_number},
};

use crate::builtin::{call_by_name, charge};
use crate::operator::{binary_result, left_decision, prefix_result};
use crate::reading::copy_of;
use crate::run::Run;
use crate::variables::Variables;
use contract_semantics::{CHARGE_NODE, EvalStop};
use contract_tree::{Expr, ExprNode, Sign};
use lc_base::{Duplicate, Host, Name, TxStatus, Value};
use std::alloc::Global;

#[tactic(auto, using(crate::proofs::PlainNumbers::found_is))]
fn named_value(alloc: Global, variables: &Variables, name: &Name) -> Result<Value, EvalStop>
    ensures value { IsResultOf (λ value. value) (value_found (variable_of variables.now name.now)) result }
    ensures no_fault { IsNoFault result }
{
    match variables.get(name) {
        None => Err(EvalStop::Status(TxStatus::WrongKind)),
        Some(value) => copy_of(alloc, value),
    }
}

/// The number that a name stands for, if it stands for one.
fn number_found(value: Option<&Value>) -> Option<i64>
    ensures { result ≡ number_found (option_copied value.entry) }
{
    match value {
        Some(Value::Int(number)) => Some(*number),
        _ => None,
    }
}

/// The number of a literal, or of a name that stands for one: it takes no further step.
fn plain_number(variables: &Variables, x: &Expr) -> Option<i64>
    ensures { result ≡ plain_number variables.now (tree_of x.now) }
{
    match &x.node {
        ExprNode::Int(number) => Some(*number),
        ExprNode::Name(name) => number_found(variables.get(name)),
        _ => None,
    }
}

/// The value of an expression, within what is left of the budget.
#[inline(always)]
#[cycle(value)]
#[tactic(auto, using(crate::proofs::Charging::charged_node, crate::proofs::PlainNumbers::plain_is))]
pub fn value<C, H: Host>(
    run: &mut Run<C, H>,
    variables: &Variables,
    x: &Expr,
) -> Result<Value, EvalStop>
    requires { H.ready run.old.host.now }
    ensures step { Tells H.Host run.old run.new (λ s m k. Gives (λ value. value) (value_of s variables.now (tree_of x.now) m) result k) }
    ensures keeps { KeepsRun H.Host run.old run.new result }
{
    charge(&mut run.left, CHARGE_NODE)?;
    match plain_number(variables, x) {
        Some(number) => Ok(Value::Int(number)),
        None => node(run, variables, x),
    }
}

/// The value of an expression, after its node has been charged.
#[cycle(value)]
#[inline(never)]
fn node<C, H: Host>(run: &mut Run<C, H>, variables: &Variables, x: &Expr) -> Result<Value, EvalStop>
    requires { H.ready run.old.host.now }
    ensures step { Tells H.Host run.old run.new (λ s m k. Gives (λ value. value) (node_value s variables.now (tree_of x.now) m) result k) }
    ensures keeps { KeepsRun H.Host run.old run.new result }
{
    match &x.node {
        ExprNode::Int(number) => Ok(Value::Int(*number)),
        ExprNode::Text(text) => Ok(Value::Text(text.copy(run.alloc)?)),
        ExprNode::Name(name) => named_value(run.alloc, variables, name),
        ExprNode::Call { name, args } => { call(run, variables, name, args) }
        ExprNode::Prefix { sign, operand } => {
            let operand = value(run, variables, operand)?;
            Ok(prefix_result(*sign, &operand)?)
        }
        ExprNode::Binary {
            sign,
            left: first,
            right: second,
        } => {
            let first = value(run, variables, first)?;
            right(run, variables, *sign, first, second)
        }
    }
}

/// What an operator returns, once its left side has been evaluated.
#[cycle(value)]
fn right<C, H: Host>(
    run: &mut Run<C, H>,
    variables: &Variables,
    sign: Sign,
    first: Value,
    x: &Expr,
) -> Result<Value, EvalStop>
    requires { H.ready run.old.host.now }
    ensures step { Tells H.Host run.old run.new (λ s m k. Gives (λ value. value) (right_value s variables.now sign first (tree_of x.now) m) result k) }
    ensures keeps { KeepsRun H.Host run.old run.new result }
{
    match left_decision(sign, &first) {
        Some(number) => Ok(Value::Int(number)),
        None => {
            let second = value(run, variables, x)?;
            binary_result(run.alloc, sign, &first, &second)
        }
    }
}

/// A call of a builtin, after its node has been charged.
#[cycle(value)]
fn call<C, H: Host>(
    run: &mut Run<C, H>,
    variables: &Variables,
    name: &Name,
    args: &[Expr],
) -> Result<Value, EvalStop>
    requires { H.ready run.old.host.now }
    ensures step { Tells H.Host run.old run.new (λ s m k. Gives (λ value. value) (call_value s variables.now name.now (trees (map tree_of args.now)) m) result k) }
    ensures keeps { KeepsRun H.Host run.old run.new result }
{
    let args = values(run, variables, args)?;
    call_by_name(run, name, args.as_slice())
}

/// The values of expressions, in order.
#[cycle(value)]
pub fn values<C, H: Host>(
    run: &mut Run<C, H>,
    variables: &Variables,
    xs: &[Expr],
) -> Result<Vec<Value>, EvalStop>
    requires { H.ready run.old.host.now }
    ensures step { Tells H.Host run.old run.new (λ s m k. Gives (λ values. values.items) (values_of s variables.now [] (trees (map tree_of xs.now)) m) result k) }
    ensures keeps { KeepsRun H.Host run.old run.new result }
{
    let mut all = Vec::new(run.alloc);
    for x in xs {
        let value = value(run, variables, x)?;
        all.push(value)?;
    }
    Ok(all)
}
