//! Reading functions and contracts, up to the end of the source.

ghost use Rattle.std.specs.Prelude.{◌≡◌, ◌<◌, ◌-◌, List, [], ◌∷◌, map, IfOk};
ghost use Rattle.contract_tree.specs.Tree.{statement_of, statement_list, function_of, contract_of};
ghost use Rattle.contract_tokens.specs.declared.token.Mark.TheVariants as m;
ghost use Rattle.contract_grammar.specs.{
  Marks.{is, is_no_end},
  Rules.{each, put},
  Reading.{after_mark, before_mark, block, param_name, param, more_params, params, a_function, function, contract},
  Reads.{Gives, Reads},
  declared.limits.TheConstants.{MAX_NESTING},
};

use crate::names::declared_name;
use crate::statement::block;
use contract_grammar::{Cursor, MAX_NESTING, MAX_PARAMETERS, NameKind, Obstacle, ParseStop};
use contract_tokens::Mark;
use contract_tree::{Contract, Function, FunctionList, Param, ParamList};
use lc_base::Name;

fn param_name(cursor: &mut Cursor<'_>, count: usize) -> Result<(u32, Name), ParseStop>
    ensures { Reads result (param_name count cursor.old) cursor.new }
{
    if count < MAX_PARAMETERS {
        declared_name(cursor)
    } else {
        Err(cursor.refusal(cursor.next_is_name(NameKind::Declared), Obstacle::Surplus))
    }
}

fn param(cursor: &mut Cursor<'_>, count: usize) -> Result<Param, ParseStop>
    ensures { Reads result (param count cursor.old) cursor.new }
{
    let (at, name) = param_name(cursor, count)?;
    cursor.take(Mark::Colon)?;
    let kind = cursor.kind()?;
    Ok(Param { at, name, kind })
}

fn push_param(cursor: &mut Cursor<'_>, earlier: ParamList) -> Result<ParamList, ParseStop>
    ensures { Gives (λ v. v.items) result
        (put (λ n. after_mark m.Comma (param n)) earlier.items cursor.old) cursor.new }
{
    let mut all = earlier;
    let count = all.len();
    cursor.take(Mark::Comma)?;
    let next = param(cursor, count)?;
    all.push(next)?;
    Ok(all)
}

fn more_params(cursor: &mut Cursor<'_>, earlier: ParamList) -> Result<ParamList, ParseStop>
    ensures { Gives (λ v. v.items) result
        (each (is m.Comma) (λ n. after_mark m.Comma (param n)) earlier.items cursor.old) cursor.new }
{
    let mut all = earlier;
    while cursor.next_is(Mark::Comma) {
        all = push_param(cursor, all)?;
    }
    Ok(all)
}

fn params(cursor: &mut Cursor<'_>) -> Result<ParamList, ParseStop>
    ensures { Gives (λ v. v.items) result (params cursor.old) cursor.new }
{
    cursor.take(Mark::ParenOpen)?;
    let mut all = Vec::new(cursor.alloc());
    if cursor.next_is(Mark::ParenClose) {
        cursor.take(Mark::ParenClose)?;
        return Ok(all);
    }
    all.push(param(cursor, 0)?)?;
    let all = more_params(cursor, all)?;
    cursor.take(Mark::ParenClose)?;
    Ok(all)
}

#[tactic(auto, unfolding(contract_grammar::specs::Reading::function))]
fn function(cursor: &mut Cursor<'_>) -> Result<Function, ParseStop>
    ensures { Gives function_of result (function cursor.old) cursor.new }
{
    cursor.take(Mark::Fn)?;
    let (at, name) = declared_name(cursor)?;
    let params = params(cursor)?;
    let body = block(cursor, MAX_NESTING)?;
    Ok(Function {
        at,
        name,
        params,
        body,
    })
}

fn push_function(cursor: &mut Cursor<'_>, earlier: FunctionList) -> Result<FunctionList, ParseStop>
    ensures { Gives (λ v. map function_of v.items) result
        (put (λ n. function) (map function_of earlier.items) cursor.old) cursor.new }
{
    let mut all = earlier;
    let next = function(cursor)?;
    all.push(next)?;
    Ok(all)
}

fn functions(cursor: &mut Cursor<'_>, earlier: FunctionList) -> Result<FunctionList, ParseStop>
    ensures { Gives (λ v. map function_of v.items) result
        (each is_no_end (λ n. function) (map function_of earlier.items) cursor.old) cursor.new }
{
    let mut all = earlier;
    while cursor.goes_on() {
        all = push_function(cursor, all)?;
    }
    Ok(all)
}

/// A contract of this edition, up to the end of the source.
#[tactic(auto, unfolding(contract_grammar::specs::Reading::contract))]
pub fn contract(cursor: &mut Cursor<'_>, edition: u8) -> Result<Contract, ParseStop>
    ensures read { Gives contract_of result (contract cursor.old) cursor.new }
    ensures edition { IfOk result (λ contract. contract.edition ≡ edition) }
{
    let mut first = Vec::new(cursor.alloc());
    first.push(function(cursor)?)?;
    let functions = functions(cursor, first)?;
    Ok(Contract { edition, functions })
}
