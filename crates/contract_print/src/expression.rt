//! Printing expressions, with parentheses around operands that have operands.

ghost use Rattle.std.specs.Prelude.{◌≡◌, ◌++◌, OnOk, map, codes};
ghost use Rattle.contract_tokens.specs.Lexemes.{in_quotes, literal_body};
ghost use Rattle.contract_tree.specs.Tree.{tree_of, trees};
ghost use Rattle.contract_print.specs.Canonical.{expression_text, in_parentheses, is_compound, args_text, more_args_text};

use crate::writer::{put, put_int, put_sign, put_text};
use contract_tree::{Expr, ExprNode};
use lc_base::Memory;
use std::alloc::Global;

fn is_compound(x: &Expr) -> bool
    ensures { result ≡ is_compound (tree_of x.now) }
{
    matches!(&x.node, ExprNode::Prefix { .. } | ExprNode::Binary { .. })
}

/// Appends an expression; operands that have operands themselves are put in parentheses.
#[cycle(put)]
pub fn put_expression(alloc: Global, out: &mut Vec<u8>, x: &Expr) -> Result<(), Memory>
    ensures { OnOk result (out.new.items ≡ out.old.items ++ expression_text (tree_of x.now)) }
{
    match &x.node {
        ExprNode::Int(value) => put_int(alloc, out, *value),
        ExprNode::Text(text) => put_quoted(out, text.as_bytes()),
        ExprNode::Name(name) => put(out, name.as_bytes()),
        ExprNode::Call { name, args } => {
            put(out, name.as_bytes())?;
            put(out, b"(")?;
            put_args(alloc, out, args.as_slice())?;
            put(out, b")")
        }
        ExprNode::Prefix { sign, operand } => {
            put_sign(out, *sign)?;
            put_operand(alloc, out, operand)
        }
        ExprNode::Binary { sign, left, right } => {
            put_operand(alloc, out, left)?;
            put(out, b" ")?;
            put_sign(out, *sign)?;
            put(out, b" ")?;
            put_operand(alloc, out, right)
        }
    }
}

fn put_quoted(out: &mut Vec<u8>, text: &[u8]) -> Result<(), Memory>
    ensures { OnOk result (out.new.items ≡ out.old.items ++ in_quotes (literal_body text.now)) }
{
    put(out, b"\"")?;
    put_text(out, text)?;
    put(out, b"\"")
}

#[cycle(put)]
fn put_operand(alloc: Global, out: &mut Vec<u8>, x: &Expr) -> Result<(), Memory>
    ensures { OnOk result (out.new.items ≡ out.old.items ++ in_parentheses (is_compound (tree_of x.now)) (expression_text (tree_of x.now))) }
{
    if !is_compound(x) {
        return put_expression(alloc, out, x);
    }
    put(out, b"(")?;
    put_expression(alloc, out, x)?;
    put(out, b")")
}

/// Appends expressions, with a comma and a blank between them.
#[cycle(put)]
pub fn put_args(alloc: Global, out: &mut Vec<u8>, args: &[Expr]) -> Result<(), Memory>
    ensures { OnOk result (out.new.items ≡ out.old.items ++ args_text (trees (map tree_of args.now))) }
{
    match args {
        [] => Ok(()),
        [first, rest @ ..] => {
            put_expression(alloc, out, first)?;
            for x in rest {
                put_another_arg(alloc, out, x)?;
            }
            Ok(())
        }
    }
}

#[cycle(put)]
fn put_another_arg(alloc: Global, out: &mut Vec<u8>, x: &Expr) -> Result<(), Memory>
    ensures { OnOk result (out.new.items ≡ out.old.items ++ (codes ", " ++ expression_text (tree_of x.now))) }
{
    put(out, b", ")?;
    put_expression(alloc, out, x)
}
