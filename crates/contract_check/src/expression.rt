//! The kind of an expression, found from its operands up.

ghost use Rattle.std.specs.Prelude.{◌≡◌, ℕ, length, slice_get, map};
ghost use Rattle.contract_tree.specs.{Tree.{tree_of, trees}, Builtins.{builtin_of, params_of}};
ghost use Rattle.contract_check.specs.{
  Faults.{and_then, expression_kind, expression_kinds, require_kind, name_kind, parameter_kinds, call_kind_by, call_kind, prefix_kind, wrong_argument, unless_wrong_argument, operation_kind, equality_kind, binary_kind},
  Names.{kind_in},
  WellKinded.{operands_of},
};

use crate::fault::{CheckKind, Fault};
use crate::scope::Scope;
use contract_tree::{Builtin, Expr, ExprNode, Sign, ValueKind};
use lc_base::Name;

/// A kind, and the offset of the expression that has it.
#[derive(Clone, Copy)]
pub struct KindAt {
    /// The offset.
    pub at: u32,
    /// The kind of its value.
    pub kind: ValueKind,
}

/// The value, if it has this kind; else a fault at its offset.
pub fn require_kind(kind: ValueKind, value: KindAt) -> Result<KindAt, Fault>
    ensures { result ≡ require_kind kind value }
{
    if value.kind == kind {
        Ok(value)
    } else {
        Err(Fault {
            at: value.at,
            kind: CheckKind::Kind,
        })
    }
}

fn operation_kind(kind: ValueKind, at: u32, left: KindAt, right: KindAt) -> Result<KindAt, Fault>
    ensures { result ≡ operation_kind kind at left right }
{
    require_kind(kind, left)?;
    require_kind(kind, right)?;
    Ok(KindAt { at, kind })
}

fn equality_kind(at: u32, left: KindAt, right: KindAt) -> Result<KindAt, Fault>
    ensures { result ≡ equality_kind at left right }
{
    require_kind(left.kind, right)?;
    Ok(KindAt {
        at,
        kind: ValueKind::Int,
    })
}

fn binary_kind(at: u32, sign: Sign, left: KindAt, right: KindAt) -> Result<KindAt, Fault>
    ensures { result ≡ binary_kind at (operands_of sign) left right }
{
    match sign {
        Sign::Equal | Sign::NotEqual => equality_kind(at, left, right),
        Sign::Concat => operation_kind(ValueKind::Text, at, left, right),
        _ => operation_kind(ValueKind::Int, at, left, right),
    }
}

fn prefix_kind(at: u32, operand: KindAt) -> Result<KindAt, Fault>
    ensures { result ≡ prefix_kind at operand }
{
    require_kind(ValueKind::Int, operand)?;
    Ok(KindAt {
        at,
        kind: ValueKind::Int,
    })
}

fn name_kind(scope: &Scope, at: u32, name: &Name) -> Result<KindAt, Fault>
    ensures { result ≡ name_kind at (kind_in scope.now name.now) }
{
    match scope.get(name) {
        Some(kind) => Ok(KindAt { at, kind: *kind }),
        None => Err(Fault {
            at,
            kind: CheckKind::Unknown,
        }),
    }
}

fn parameter_kinds(builtin: Option<Builtin>) -> &'static [ValueKind]
    ensures { result.now ≡ parameter_kinds builtin }
{
    match builtin {
        Some(builtin) => builtin.params(),
        None => &[],
    }
}

fn wrong_argument(param: Option<ValueKind>, arg: KindAt) -> Option<u32>
    ensures { result ≡ wrong_argument param arg }
{
    let kind = param?;
    if arg.kind == kind { None } else { Some(arg.at) }
}

fn unless_wrong_argument(wrong: Option<u32>, value: KindAt) -> Result<KindAt, Fault>
    ensures { result ≡ unless_wrong_argument wrong value }
{
    match wrong {
        None => Ok(value),
        Some(at) => Err(Fault {
            at,
            kind: CheckKind::Kind,
        }),
    }
}

fn call_kind_by(
    at: u32,
    builtin: Option<Builtin>,
    count: usize,
    wrong: Option<u32>,
) -> Result<KindAt, Fault>
    ensures { result ≡ call_kind_by at builtin count wrong }
{
    let Some(builtin) = builtin else {
        return Err(Fault {
            at,
            kind: CheckKind::Unknown,
        });
    };
    if count != builtin.params().len() {
        return Err(Fault {
            at,
            kind: CheckKind::Count,
        });
    }
    unless_wrong_argument(
        wrong,
        KindAt {
            at,
            kind: builtin.gives(),
        },
    )
}

fn nth_kind(kinds: &[ValueKind], i: usize) -> Option<ValueKind>
    ensures { result ≡ slice_get kinds.now i }
{
    kinds.get(i).copied()
}

#[cycle(expression)]
fn call(scope: &Scope, at: u32, name: &Name, args: &[Expr]) -> Result<KindAt, Fault>
    ensures { result ≡ and_then (expression_kinds scope.now (trees (map tree_of args.now))) (call_kind at (builtin_of name.now)) }
{
    let builtin = Builtin::of_name(name);
    let params = parameter_kinds(builtin);
    let mut wrong = None;
    for (i, arg) in args.iter().enumerate() {
        let arg = expression_kind(scope, arg)?;
        wrong = wrong.or(wrong_argument(nth_kind(params, i), arg));
    }
    call_kind_by(at, builtin, args.len(), wrong)
}

/// The kind of an expression and its offset, or its first fault.
#[cycle(expression)]
pub fn expression_kind(scope: &Scope, x: &Expr) -> Result<KindAt, Fault>
    ensures { result ≡ expression_kind scope.now (tree_of x.now) }
{
    match &x.node {
        ExprNode::Int(_) => Ok(KindAt {
            at: x.at,
            kind: ValueKind::Int,
        }),
        ExprNode::Text(_) => Ok(KindAt {
            at: x.at,
            kind: ValueKind::Text,
        }),
        ExprNode::Name(name) => name_kind(scope, x.at, name),
        ExprNode::Call { name, args } => call(scope, x.at, name, args),
        ExprNode::Prefix { operand, .. } => prefix_kind(x.at, expression_kind(scope, operand)?),
        ExprNode::Binary { sign, left, right } => {
            let left = expression_kind(scope, left)?;
            let right = expression_kind(scope, right)?;
            binary_kind(x.at, *sign, left, right)
        }
    }
}
