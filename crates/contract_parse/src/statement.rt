//! Reading statements and blocks, down to the greatest depth.

ghost use Rattle.std.specs.Prelude.{◌≡◌, ◌<◌, ◌-◌, ℕ, List, [], map};
ghost use Rattle.contract_tree.specs.Tree.{Tree, StatementTrees, trees, tree_of, parts_of, statement_of, statement_list};
ghost use Rattle.contract_tokens.specs.declared.token.Mark.TheVariants as m;
ghost use Rattle.contract_grammar.specs.{
  Marks.{is, is_not},
  declared.Obstacle.TheVariants.{Nesting},
  Rules.{each, put, seq, refuse},
  Reading.{expression, before_mark, let_statement, assign_statement, else_part, if_statement, while_statement, from_part, put_statement, remove_statement, short_statement, statement, block_of, block},
  Reads.{Gives},
};
ghost use Rattle.contract_parse.specs.Blocks.{if_of};

use crate::names::declared_name;
use contract_grammar::{Cursor, NameKind, Obstacle, ParseStop};
use contract_tokens::Mark;
use contract_tree::{Expr, ExprList, Form, Statement, StatementList};
use lc_base::Name;
use parse_expression::{expression, expressions};

fn end_statement(cursor: &mut Cursor<'_>, statement: Statement) -> Result<Statement, ParseStop>
    ensures { Gives statement_of result (before_mark m.Semicolon (statement_of statement) cursor.old)
        cursor.new }
{
    cursor.take(Mark::Semicolon)?;
    Ok(statement)
}

fn let_statement(cursor: &mut Cursor<'_>) -> Result<Statement, ParseStop>
    ensures { Gives statement_of result (let_statement cursor.old) cursor.new }
{
    let at = cursor.take(Mark::Let)?;
    let (name_at, name) = declared_name(cursor)?;
    cursor.take(Mark::Assign)?;
    let value = expression(cursor)?;
    let form = Form::Let {
        name_at,
        name,
        value,
    };
    end_statement(cursor, Statement { at, form })
}

fn assign_statement(cursor: &mut Cursor<'_>) -> Result<Statement, ParseStop>
    ensures { Gives statement_of result (assign_statement cursor.old) cursor.new }
{
    let (at, name) = cursor.name(NameKind::Plain)?;
    cursor.take(Mark::Assign)?;
    let value = expression(cursor)?;
    let form = Form::Assign { name, value };
    end_statement(cursor, Statement { at, form })
}

fn from_part(cursor: &mut Cursor<'_>) -> Result<Option<ExprList>, ParseStop>
    ensures { Gives parts_of result (from_part cursor.old) cursor.new }
{
    if cursor.next_is(Mark::Semicolon) {
        cursor.take(Mark::Semicolon)?;
        return Ok(None);
    }
    cursor.take(Mark::From)?;
    let parts = expressions(cursor, Mark::Semicolon)?;
    Ok(Some(parts))
}

fn put_statement(cursor: &mut Cursor<'_>) -> Result<Statement, ParseStop>
    ensures { Gives statement_of result (put_statement cursor.old) cursor.new }
{
    let at = cursor.take(Mark::Put)?;
    let key = expression(cursor)?;
    cursor.take(Mark::Assign)?;
    let value = expression(cursor)?;
    let from = from_part(cursor)?;
    let form = Form::Put { key, value, from };
    Ok(Statement { at, form })
}

fn remove_statement(cursor: &mut Cursor<'_>) -> Result<Statement, ParseStop>
    ensures { Gives statement_of result (remove_statement cursor.old) cursor.new }
{
    let at = cursor.take(Mark::Drop)?;
    let key = expression(cursor)?;
    let from = from_part(cursor)?;
    let form = Form::Remove { key, from };
    Ok(Statement { at, form })
}

/// A statement that is a keyword alone.
fn short_statement(cursor: &mut Cursor<'_>, mark: Mark, form: Form) -> Result<Statement, ParseStop>
    ensures { Gives statement_of result
        (short_statement mark (λ at. statement_of (record { at = at; form = form })) cursor.old)
        cursor.new }
{
    let at = cursor.take(mark)?;
    end_statement(cursor, Statement { at, form })
}

fn refuse_block(cursor: &mut Cursor<'_>) -> Result<StatementList, ParseStop>
    ensures { Gives (λ v. statement_list (map statement_of v.items)) result
        (refuse Nesting (is m.BraceOpen) cursor.old) cursor.new }
{
    Err(cursor.refusal(cursor.next_is(Mark::BraceOpen), Obstacle::Nesting))
}

/// The second block of an `if`, if it has one.
#[cycle(block)]
fn else_part(cursor: &mut Cursor<'_>, nesting: u32) -> Result<Option<StatementList>, ParseStop>
    ensures { (at : ℕ) (test : Tree) (first : StatementTrees) → Gives (if_of at test first) result
        (else_part (block nesting) at test first cursor.old) cursor.new }
{
    if !cursor.next_is(Mark::Else) {
        return Ok(None);
    }
    cursor.take(Mark::Else)?;
    let second = block(cursor, nesting)?;
    Ok(Some(second))
}

#[cycle(block)]
fn if_statement(cursor: &mut Cursor<'_>, nesting: u32) -> Result<Statement, ParseStop>
    ensures { Gives statement_of result (if_statement (block nesting) cursor.old) cursor.new }
{
    let at = cursor.take(Mark::If)?;
    let test = expression(cursor)?;
    let first = block(cursor, nesting)?;
    let second = else_part(cursor, nesting)?;
    let form = Form::If {
        test,
        first,
        second,
    };
    Ok(Statement { at, form })
}

#[cycle(block)]
fn while_statement(cursor: &mut Cursor<'_>, nesting: u32) -> Result<Statement, ParseStop>
    ensures { Gives statement_of result (while_statement (block nesting) cursor.old) cursor.new }
{
    let at = cursor.take(Mark::While)?;
    let test = expression(cursor)?;
    let body = block(cursor, nesting)?;
    let form = Form::While { test, body };
    Ok(Statement { at, form })
}

#[cycle(block)]
fn statement(cursor: &mut Cursor<'_>, nesting: u32) -> Result<Statement, ParseStop>
    ensures { Gives statement_of result (statement (block nesting) cursor.old) cursor.new }
{
    if cursor.next_is(Mark::Let) {
        return let_statement(cursor);
    }
    if cursor.next_is(Mark::If) {
        return if_statement(cursor, nesting);
    }
    if cursor.next_is(Mark::While) {
        return while_statement(cursor, nesting);
    }
    if cursor.next_is(Mark::Put) {
        return put_statement(cursor);
    }
    if cursor.next_is(Mark::Drop) {
        return remove_statement(cursor);
    }
    if cursor.next_is(Mark::Fail) {
        return short_statement(cursor, Mark::Fail, Form::Fail);
    }
    if cursor.next_is(Mark::Return) {
        return short_statement(cursor, Mark::Return, Form::Return);
    }
    assign_statement(cursor)
}

#[cycle(block)]
fn push_statement(
    cursor: &mut Cursor<'_>,
    nesting: u32,
    earlier: StatementList,
) -> Result<StatementList, ParseStop>
    ensures { Gives (λ v. map statement_of v.items) result
        (put (λ n. statement (block nesting)) (map statement_of earlier.items) cursor.old)
        cursor.new }
{
    let mut all = earlier;
    let next = statement(cursor, nesting)?;
    all.push(next)?;
    Ok(all)
}

#[cycle(block)]
fn statements(cursor: &mut Cursor<'_>, nesting: u32) -> Result<StatementList, ParseStop>
    ensures { Gives (λ v. map statement_of v.items) result
        (each (is_not m.BraceClose) (λ n. statement (block nesting)) [] cursor.old) cursor.new }
{
    let mut all = Vec::new(cursor.alloc());
    while cursor.next_is_other(Mark::BraceClose) {
        all = push_statement(cursor, nesting, all)?;
    }
    Ok(all)
}

#[cycle(block)]
fn block_rest(cursor: &mut Cursor<'_>, nesting: u32) -> Result<StatementList, ParseStop>
    ensures { Gives (λ v. statement_list (map statement_of v.items)) result
        (seq (each (is_not m.BraceClose) (λ n. statement (block nesting)) [])
        (λ ss. before_mark m.BraceClose (statement_list ss)) cursor.old)
        cursor.new }
{
    let all = statements(cursor, nesting)?;
    cursor.take(Mark::BraceClose)?;
    Ok(all)
}

#[cycle(block)]
fn open_block(cursor: &mut Cursor<'_>, nesting: u32) -> Result<StatementList, ParseStop>
    ensures { Gives (λ v. statement_list (map statement_of v.items)) result
        (block_of (block nesting) cursor.old) cursor.new }
{
    cursor.take(Mark::BraceOpen)?;
    block_rest(cursor, nesting)
}

/// A block, if this many more may be nested, itself included.
#[cycle(block)]
pub fn block(cursor: &mut Cursor<'_>, nesting: u32) -> Result<StatementList, ParseStop>
    ensures { Gives (λ v. statement_list (map statement_of v.items)) result
        (block nesting cursor.old) cursor.new }
{
    if nesting == 0 {
        return refuse_block(cursor);
    }
    open_block(cursor, nesting - 1)
}
