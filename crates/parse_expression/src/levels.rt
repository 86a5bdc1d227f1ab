//! Reading expressions by levels: each level reads operands of the level below, with its operators
//! between them.

ghost use Rattle.std.specs.Prelude.{◌≡◌, ◌<◌, ◌≤◌, ◌-◌, List, map};
ghost use Rattle.contract_tree.specs.Tree.{tree_of};
ghost use Rattle.contract_tree.specs.Tree as tree;
ghost use Rattle.contract_grammar.specs.contract_tokens.declared.token.Mark.TheVariants as m;
ghost use Rattle.contract_grammar.specs.{
  Marks.{is, has, sign_of},
  Rules.{turns, each, put, next, seq},
  Reading.{literal, name_or_call, builtin_call, operand, inner_operand, operand_in, arguments_in, prefix_operand_in, group_in, args, more_of, comma_then, level_of, rest_of_level, binary, expression},
  Grammar.{is_chained},
  Reads.{Gives},
  declared.limits.TheConstants.{WHOLE},
};

use crate::build::{self, Parsed, Subtree, Subtrees};
use contract_grammar::{COMPARISONS, Cursor, MAX_PENDING, Mark, NameKind, Obstacle, WHOLE};
use contract_tree::{Expr, ExprList, ExprNode};

fn literal(cursor: &mut Cursor<'_>) -> Parsed<Subtree>
    ensures { Gives (λ b. tree_of b.expr) result (literal cursor.old) cursor.new }
{
    if cursor.next_is_text() {
        let (at, text) = cursor.text()?;
        return Ok(build::leaf(at, ExprNode::Text(text)));
    }
    let (at, value) = cursor.int()?;
    Ok(build::leaf(at, ExprNode::Int(value)))
}

#[cycle(expression)]
fn name_or_call(cursor: &mut Cursor<'_>, depth: u32) -> Parsed<Subtree>
    ensures { Gives (λ b. tree_of b.expr) result (name_or_call (arguments_in (inner_operand depth)) cursor.old)
        cursor.new }
{
    let (at, name) = cursor.name(NameKind::Plain)?;
    if !cursor.next_is(Mark::ParenOpen) {
        return Ok(build::leaf(at, ExprNode::Name(name)));
    }
    let args = arguments(cursor, depth)?;
    build::call(at, name, args)
}

#[cycle(expression)]
fn builtin_call(cursor: &mut Cursor<'_>, depth: u32) -> Parsed<Subtree>
    ensures { Gives (λ b. tree_of b.expr) result (builtin_call (arguments_in (inner_operand depth)) cursor.old)
        cursor.new }
{
    let (at, name) = cursor.name(NameKind::Builtin)?;
    let args = arguments(cursor, depth)?;
    build::call(at, name, args)
}

#[cycle(expression)]
fn prefix_operand(cursor: &mut Cursor<'_>, depth: u32) -> Parsed<Subtree>
    ensures { Gives (λ b. tree_of b.expr) result (prefix_operand_in (inner_operand depth) cursor.old)
        cursor.new }
{
    if depth == 0 {
        return Err(cursor.refusal(cursor.next_is_prefix(), Obstacle::Pending));
    }
    let (at, sign) = cursor.prefix()?;
    let inner = operand(cursor, depth - 1)?;
    build::prefix(cursor.alloc(), at, sign, inner)
}

#[cycle(expression)]
fn group(cursor: &mut Cursor<'_>, depth: u32) -> Parsed<Subtree>
    ensures { Gives (λ b. tree_of b.expr) result (group_in (inner_operand depth) cursor.old)
        cursor.new }
{
    if depth == 0 {
        return Err(cursor.refusal(cursor.next_is(Mark::ParenOpen), Obstacle::Pending));
    }
    cursor.take(Mark::ParenOpen)?;
    let inner = at_level(cursor, depth - 1, WHOLE)?;
    cursor.take(Mark::ParenClose)?;
    Ok(inner)
}

#[cycle(expression)]
fn operand(cursor: &mut Cursor<'_>, depth: u32) -> Parsed<Subtree>
    ensures { Gives (λ b. tree_of b.expr) result (operand depth cursor.old) cursor.new }
{
    operand_by_start(cursor, depth)
}

#[cycle(expression)]
fn operand_by_start(cursor: &mut Cursor<'_>, depth: u32) -> Parsed<Subtree>
    ensures { Gives (λ b. tree_of b.expr) result (operand_in (inner_operand depth) cursor.old)
        cursor.new }
{
    if cursor.next_is_name(NameKind::Plain) {
        return name_or_call(cursor, depth);
    }
    if cursor.next_is_name(NameKind::Builtin) {
        return builtin_call(cursor, depth);
    }
    if cursor.next_is_prefix() {
        return prefix_operand(cursor, depth);
    }
    if cursor.next_is(Mark::ParenOpen) {
        return group(cursor, depth);
    }
    literal(cursor)
}

#[cycle(expression)]
fn arguments(cursor: &mut Cursor<'_>, depth: u32) -> Parsed<Subtrees>
    ensures { Gives (λ l. map tree_of l.items.items) result (arguments_in (inner_operand depth) cursor.old)
        cursor.new }
{
    if depth == 0 {
        return Err(cursor.refusal(cursor.next_is(Mark::ParenOpen), Obstacle::Pending));
    }
    cursor.take(Mark::ParenOpen)?;
    if cursor.next_is(Mark::ParenClose) {
        cursor.take(Mark::ParenClose)?;
        return Ok(Subtrees::new(cursor.alloc()));
    }
    let first = at_level(cursor, depth - 1, WHOLE)?;
    more_items(cursor, depth - 1, Mark::ParenClose, first)
}

#[cycle(expression)]
fn more_items(cursor: &mut Cursor<'_>, depth: u32, mark: Mark, first: Subtree) -> Parsed<Subtrees>
    ensures { Gives (λ l. map tree_of l.items.items) result
        (more_of (level_of (operand depth) WHOLE) mark (tree_of first.expr) cursor.old)
        cursor.new }
{
    let mut all = Subtrees::new(cursor.alloc());
    all.push(first)?;
    let all = items(cursor, depth, all)?;
    cursor.take(mark)?;
    Ok(all)
}

#[cycle(expression)]
fn items(cursor: &mut Cursor<'_>, depth: u32, earlier: Subtrees) -> Parsed<Subtrees>
    ensures { Gives (λ l. map tree_of l.items.items) result
        (each (is m.Comma) (comma_then (level_of (operand depth) WHOLE))
        (map tree_of earlier.items.items) cursor.old)
        cursor.new }
{
    let mut all = earlier;
    while cursor.next_is(Mark::Comma) {
        all = item(cursor, depth, all)?;
    }
    Ok(all)
}

#[cycle(expression)]
fn item(cursor: &mut Cursor<'_>, depth: u32, earlier: Subtrees) -> Parsed<Subtrees>
    ensures { Gives (λ l. map tree_of l.items.items) result
        (put (comma_then (level_of (operand depth) WHOLE)) (map tree_of earlier.items.items)
        cursor.old)
        cursor.new }
{
    let mut all = earlier;
    cursor.take(Mark::Comma)?;
    let item = at_level(cursor, depth, WHOLE)?;
    all.push(item)?;
    Ok(all)
}

#[cycle(expression)]
fn binary(cursor: &mut Cursor<'_>, depth: u32, level: u8, left: Subtree) -> Parsed<Subtree>
    requires { 0 < level }
    ensures { Gives (λ b. tree_of b.expr) result
        (binary level (level_of (operand depth) (level - 1)) (tree_of left.expr) cursor.old)
        cursor.new }
{
    let (at, sign) = cursor.sign(level)?;
    let right = at_level(cursor, depth, level - 1)?;
    build::binary(cursor.alloc(), at, sign, left, right)
}

#[cycle(expression)]
fn chain(cursor: &mut Cursor<'_>, depth: u32, level: u8, first: Subtree) -> Parsed<Subtree>
    requires { 0 < level }
    ensures { Gives (λ b. tree_of b.expr) result
        (turns (has (sign_of level))
        (binary level (level_of (operand depth) (level - 1))) (tree_of first.expr)
        cursor.old)
        cursor.new }
{
    let mut left = first;
    while cursor.next_is_sign(level) {
        left = binary(cursor, depth, level, left)?;
    }
    Ok(left)
}

#[cycle(expression)]
fn rest(cursor: &mut Cursor<'_>, depth: u32, level: u8, first: Subtree) -> Parsed<Subtree>
    requires { 0 < level }
    ensures { Gives (λ b. tree_of b.expr) result
        (rest_of_level (is_chained level) level (level_of (operand depth) (level - 1))
        (tree_of first.expr) cursor.old)
        cursor.new }
{
    if level != COMPARISONS {
        return chain(cursor, depth, level, first);
    }
    if !cursor.next_is_sign(level) {
        return Ok(first);
    }
    binary(cursor, depth, level, first)
}

#[cycle(expression)]
fn binary_level(cursor: &mut Cursor<'_>, depth: u32, level: u8) -> Parsed<Subtree>
    requires { 0 < level }
    ensures { Gives (λ b. tree_of b.expr) result
        (next
        (rest_of_level (is_chained level) level
        (level_of (operand depth) (level - 1)))
        (level_of (operand depth) (level - 1) cursor.old))
        cursor.new }
{
    let first = at_level(cursor, depth, level - 1)?;
    rest(cursor, depth, level, first)
}

#[cycle(expression)]
fn at_level(cursor: &mut Cursor<'_>, depth: u32, level: u8) -> Parsed<Subtree>
    ensures { Gives (λ b. tree_of b.expr) result (level_of (operand depth) level cursor.old)
        cursor.new }
{
    if level == 0 {
        return operand(cursor, depth);
    }
    binary_level(cursor, depth, level)
}

/// A whole expression.
#[tactic(auto, unfolding(contract_grammar::specs::Reading::expression))]
pub fn expression(cursor: &mut Cursor<'_>) -> Parsed<Expr>
    ensures { Gives tree_of result (expression cursor.old) cursor.new }
{
    let built = at_level(cursor, MAX_PENDING, WHOLE)?;
    Ok(built.expr)
}

/// Whole expressions, at least one, with commas between them, then the closing sign.
#[tactic(auto, unfolding(contract_grammar::specs::Reading::expression))]
pub fn expressions(cursor: &mut Cursor<'_>, mark: Mark) -> Parsed<ExprList>
    ensures { Gives (λ v. map tree_of v.items) result
        (seq expression (more_of expression mark) cursor.old) cursor.new }
{
    let first = at_level(cursor, MAX_PENDING, WHOLE)?;
    let all = more_items(cursor, MAX_PENDING, mark, first)?;
    Ok(all.items)
}
