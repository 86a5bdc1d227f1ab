//! Printing statements, each on lines of its own.

ghost use Rattle.std.specs.Prelude.{◌≡◌, ◌++◌, OnOk, map, codes};
ghost use Rattle.contract_tree.specs.Tree.{tree_of, parts_of, statement_of, statement_list};
ghost use Rattle.contract_print.specs.Canonical.{expression_text, assigned_text, put_text, remove_text, from_text, statement_text, statements_text, deeper, let_text, test_text};

use crate::expression::{put_args, put_expression};
use crate::writer::put;
use contract_tree::{Expr, ExprList, Form, Statement};
use lc_base::Memory;
use std::alloc::Global;

fn put_from(alloc: Global, out: &mut Vec<u8>, from: &Option<ExprList>) -> Result<(), Memory>
    ensures { OnOk result (out.new.items ≡ out.old.items ++ from_text (parts_of from.now)) }
{
    match from {
        None => Ok(()),
        Some(parts) => {
            put(out, b" from ")?;
            put_args(alloc, out, parts.as_slice())
        }
    }
}

fn put_put(
    alloc: Global,
    out: &mut Vec<u8>,
    key: &Expr,
    value: &Expr,
    from: &Option<ExprList>,
) -> Result<(), Memory>
    ensures { OnOk result (out.new.items ≡ out.old.items ++ put_text (tree_of key.now) (tree_of value.now) (parts_of from.now)) }
{
    put(out, b"put ")?;
    put_expression(alloc, out, key)?;
    put(out, b" = ")?;
    put_expression(alloc, out, value)?;
    put_from(alloc, out, from)?;
    put(out, b";\n")
}

fn put_remove(
    alloc: Global,
    out: &mut Vec<u8>,
    key: &Expr,
    from: &Option<ExprList>,
) -> Result<(), Memory>
    ensures { OnOk result (out.new.items ≡ out.old.items ++ remove_text (tree_of key.now) (parts_of from.now)) }
{
    put(out, b"drop ")?;
    put_expression(alloc, out, key)?;
    put_from(alloc, out, from)?;
    put(out, b";\n")
}

fn put_assigned(alloc: Global, out: &mut Vec<u8>, name: &[u8], value: &Expr) -> Result<(), Memory>
    ensures { OnOk result (out.new.items ≡ out.old.items ++ assigned_text name.now (tree_of value.now)) }
{
    put(out, name)?;
    put(out, b" = ")?;
    put_expression(alloc, out, value)?;
    put(out, b";\n")
}

fn put_let(alloc: Global, out: &mut Vec<u8>, name: &[u8], value: &Expr) -> Result<(), Memory>
    ensures { OnOk result (out.new.items ≡ out.old.items ++ let_text name.now (tree_of value.now)) }
{
    put(out, b"let ")?;
    put_assigned(alloc, out, name, value)
}

fn put_test(alloc: Global, out: &mut Vec<u8>, word: &[u8], test: &Expr) -> Result<(), Memory>
    ensures { OnOk result (out.new.items ≡ out.old.items ++ test_text word.now (tree_of test.now)) }
{
    put(out, word)?;
    put_expression(alloc, out, test)?;
    put(out, b" {\n")
}

fn put_closing(out: &mut Vec<u8>, margin: &[u8], word: &[u8]) -> Result<(), Memory>
    ensures { OnOk result (out.new.items ≡ out.old.items ++ (margin.now ++ word.now)) }
{
    put(out, margin)?;
    put(out, word)
}

#[cycle(put_statement)]
fn put_body(
    alloc: Global,
    out: &mut Vec<u8>,
    margin: &[u8],
    body: &[Statement],
) -> Result<(), Memory>
    ensures { OnOk result (out.new.items ≡ out.old.items ++ statements_text (deeper margin.now) (statement_list (map statement_of body.now))) }
{
    let mut inner = Vec::from_slice(alloc, margin)?;
    put(&mut inner, b"  ")?;
    for x in body {
        put_statement(alloc, out, inner.as_slice(), x)?;
    }
    Ok(())
}

/// Appends a statement on lines of its own, each after the margin.
#[cycle(put_statement)]
pub fn put_statement(
    alloc: Global,
    out: &mut Vec<u8>,
    margin: &[u8],
    x: &Statement,
) -> Result<(), Memory>
    ensures { OnOk result (out.new.items ≡ out.old.items ++ statement_text margin.now (statement_of x.now)) }
{
    put(out, margin)?;
    match &x.form {
        Form::Let { name, value, .. } => put_let(alloc, out, name.as_bytes(), value),
        Form::Assign { name, value } => put_assigned(alloc, out, name.as_bytes(), value),
        Form::If {
            test,
            first,
            second: None,
        } => {
            put_test(alloc, out, b"if ", test)?;
            put_body(alloc, out, margin, first.as_slice())?;
            put_closing(out, margin, b"}\n")
        }
        Form::If {
            test,
            first,
            second: Some(second),
        } => {
            put_test(alloc, out, b"if ", test)?;
            put_body(alloc, out, margin, first.as_slice())?;
            put_closing(out, margin, b"} else {\n")?;
            put_body(alloc, out, margin, second.as_slice())?;
            put_closing(out, margin, b"}\n")
        }
        Form::While { test, body } => {
            put_test(alloc, out, b"while ", test)?;
            put_body(alloc, out, margin, body.as_slice())?;
            put_closing(out, margin, b"}\n")
        }
        Form::Put { key, value, from } => put_put(alloc, out, key, value, from),
        Form::Remove { key, from } => put_remove(alloc, out, key, from),
        Form::Fail => put(out, b"fail;\n"),
        Form::Return => put(out, b"return;\n"),
    }
}
