//! Checking statements, and the names that are visible after them.

ghost use Rattle.std.specs.Prelude.{◌≡◌, ℕ, Ok, map};
ghost use Rattle.lc_base.specs.Answers.{Answers};
ghost use Rattle.contract_tree.specs.Tree.{tree_of, trees, parts_of, statement_of, statement_list};
ghost use Rattle.contract_check.specs.{
  Faults.{fault_of, expression_of_kind, text_expressions, source_expressions, names_after_put, names_after_remove, names_after_declaration, names_after_assignment, names_after_block, names_after_statement, names_after_statements},
  Names.{kind_in},
};

use crate::expression::{KindAt, expression_kind, require_kind};
use crate::fault::{CheckError, CheckKind, Fault};
use crate::scope::Scope;
use contract_tree::{Expr, ExprList, Form, Statement, ValueKind};
use lc_base::Name;

fn expression_of_kind(kind: ValueKind, scope: &Scope, x: &Expr) -> Result<KindAt, Fault>
    ensures { result ≡ expression_of_kind kind scope.now (tree_of x.now) }
{
    require_kind(kind, expression_kind(scope, x)?)
}

/// Makes a name visible, unless it is already.
pub fn declare(scope: &mut Scope, at: u32, name: &Name, kind: ValueKind) -> Result<(), CheckError>
    ensures { Answers (λ _. scope.new) fault_of result (names_after_declaration scope.old at name.now kind) }
{
    if scope.get(name).is_some() {
        return Err(CheckError::Refused {
            at,
            kind: CheckKind::Again,
        });
    }
    scope.push(name, kind)?;
    Ok(())
}

fn assign(scope: &Scope, at: u32, name: &Name, value: KindAt) -> Result<(), CheckError>
    ensures { Answers (λ _. scope.now) fault_of result (names_after_assignment (kind_in scope.now name.now) scope.now at value) }
{
    let Some(kind) = scope.get(name) else {
        return Err(CheckError::Refused {
            at,
            kind: CheckKind::Unknown,
        });
    };
    require_kind(*kind, value)?;
    Ok(())
}

fn texts(scope: &Scope, parts: &[Expr]) -> Result<(), CheckError>
    ensures { Answers (λ _. scope.now) fault_of result (text_expressions scope.now (trees (map tree_of parts.now))) }
{
    for part in parts {
        expression_of_kind(ValueKind::Text, scope, part)?;
    }
    Ok(())
}

fn sources(scope: &Scope, from: &Option<ExprList>) -> Result<(), CheckError>
    ensures { Answers (λ _. scope.now) fault_of result (source_expressions scope.now (parts_of from.now)) }
{
    match from {
        Some(parts) => texts(scope, parts),
        None => Ok(()),
    }
}

fn put(scope: &Scope, key: &Expr, value: &Expr, from: &Option<ExprList>) -> Result<(), CheckError>
    ensures { Answers (λ _. scope.now) fault_of result (names_after_put scope.now (tree_of key.now) (tree_of value.now) (parts_of from.now)) }
{
    expression_of_kind(ValueKind::Text, scope, key)?;
    expression_kind(scope, value)?;
    sources(scope, from)
}

fn remove(scope: &Scope, dropped: &Expr, from: &Option<ExprList>) -> Result<(), CheckError>
    ensures { Answers (λ _. scope.now) fault_of result (names_after_remove scope.now (tree_of dropped.now) (parts_of from.now)) }
{
    expression_of_kind(ValueKind::Text, scope, dropped)?;
    sources(scope, from)
}

#[cycle(statement)]
fn statement(scope: &mut Scope, x: &Statement) -> Result<(), CheckError>
    ensures { Answers (λ _. scope.new) fault_of result (names_after_statement scope.old (statement_of x.now)) }
{
    match &x.form {
        Form::Let {
            name_at,
            name,
            value,
        } => {
            let value = expression_kind(scope, value)?;
            declare(scope, *name_at, name, value.kind)
        }
        Form::Assign { name, value } => {
            let value = expression_kind(scope, value)?;
            assign(scope, x.at, name, value)
        }
        Form::If {
            test,
            first,
            second,
        } => {
            expression_of_kind(ValueKind::Int, scope, test)?;
            block(scope, first)?;
            match second {
                Some(second) => block(scope, second),
                None => Ok(()),
            }
        }
        Form::While { test, body } => {
            expression_of_kind(ValueKind::Int, scope, test)?;
            block(scope, body)
        }
        Form::Put { key, value, from } => put(scope, key, value, from),
        Form::Remove { key, from } => remove(scope, key, from),
        Form::Fail | Form::Return => Ok(()),
    }
}

#[cycle(statement)]
fn block(scope: &mut Scope, body: &[Statement]) -> Result<(), CheckError>
    ensures { Answers (λ _. scope.new) fault_of result (names_after_block scope.old (names_after_statements scope.old (statement_list (map statement_of body.now)))) }
{
    let count = scope.len();
    statements(scope, body)?;
    scope.keep(count);
    Ok(())
}

/// Checks statements one after another. The names that they declare are visible after them.
#[cycle(statement)]
pub fn statements(scope: &mut Scope, body: &[Statement]) -> Result<(), CheckError>
    ensures { Answers (λ _. scope.new) fault_of result (names_after_statements scope.old (statement_list (map statement_of body.now))) }
{
    for x in body {
        statement(scope, x)?;
    }
    Ok(())
}
