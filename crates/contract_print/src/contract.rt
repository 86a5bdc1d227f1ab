//! Printing functions and contracts, one empty line between functions.

ghost use Rattle.std.specs.{Prelude.{◌≡◌, ◌++◌, OnOk, IfOk, map, codes, ℕ, List}, List.{flat_map}};
ghost use Rattle.contract_tree.specs.Tree.{statement_of, statement_list, function_of, contract_of};
ghost use Rattle.contract_print.specs.Canonical.{param_text, params_text, function_text, contract_text, more_functions_text, statement_text, statements_text, ReadsAgain, HasOneText, IsFixed};
ghost use Rattle.contract_parse.specs.Syntax.{ReadsAs};

use crate::statement::put_statement;
use crate::writer::{put, put_kind};
use contract_tree::{Contract, Function, Param, Statement};
use lc_base::{Bytes, Memory, Seq};
use std::alloc::Global;

fn put_param(out: &mut Vec<u8>, param: &Param) -> Result<(), Memory>
    ensures { OnOk result (out.new.items ≡ out.old.items ++ param_text param.now) }
{
    put(out, param.name.as_bytes())?;
    put(out, b": ")?;
    put_kind(out, param.kind)
}

fn put_another(out: &mut Vec<u8>, param: &Param) -> Result<(), Memory>
    ensures { OnOk result (out.new.items ≡ out.old.items ++ (codes ", " ++ param_text param.now)) }
{
    put(out, b", ")?;
    put_param(out, param)
}

fn put_others(out: &mut Vec<u8>, params: &[Param]) -> Result<(), Memory>
    ensures { OnOk result (out.new.items ≡ out.old.items ++ flat_map (λ p. codes ", " ++ param_text p) params.now) }
{
    for param in params {
        put_another(out, param)?;
    }
    Ok(())
}

fn put_params(out: &mut Vec<u8>, params: &[Param]) -> Result<(), Memory>
    ensures { OnOk result (out.new.items ≡ out.old.items ++ params_text params.now) }
{
    match params {
        [] => Ok(()),
        [first, others @ ..] => {
            put_param(out, first)?;
            put_others(out, others)
        }
    }
}

fn put_head(out: &mut Vec<u8>, function: &Function) -> Result<(), Memory>
    ensures { OnOk result (out.new.items ≡ out.old.items ++ (codes "fn " ++ function.now.name ++ codes "(" ++ params_text function.now.params.items ++ codes ") {\n")) }
{
    put(out, b"fn ")?;
    put(out, function.name.as_bytes())?;
    put(out, b"(")?;
    put_params(out, function.params.as_slice())?;
    put(out, b") {\n")
}

fn put_lines(alloc: Global, out: &mut Vec<u8>, body: &[Statement]) -> Result<(), Memory>
    ensures { OnOk result (out.new.items ≡ out.old.items ++ flat_map (λ x. statement_text (codes "  ") (statement_of x)) body.now) }
{
    for x in body {
        put_statement(alloc, out, b"  ", x)?;
    }
    Ok(())
}

fn put_body(alloc: Global, out: &mut Vec<u8>, body: &[Statement]) -> Result<(), Memory>
    ensures { OnOk result (out.new.items ≡ out.old.items ++ statements_text (codes "  ") (statement_list (map statement_of body.now))) }
{
    put_lines(alloc, out, body)
}

fn put_function(alloc: Global, out: &mut Vec<u8>, function: &Function) -> Result<(), Memory>
    ensures { OnOk result (out.new.items ≡ out.old.items ++ function_text (function_of function.now)) }
{
    put_head(out, function)?;
    put_body(alloc, out, function.body.as_slice())?;
    put(out, b"}\n")
}

fn put_next(alloc: Global, out: &mut Vec<u8>, function: &Function) -> Result<(), Memory>
    ensures { OnOk result (out.new.items ≡ out.old.items ++ (codes "\n" ++ function_text (function_of function.now))) }
{
    put(out, b"\n")?;
    put_function(alloc, out, function)
}

fn put_rest(alloc: Global, out: &mut Vec<u8>, functions: &[Function]) -> Result<(), Memory>
    ensures { OnOk result (out.new.items ≡ out.old.items ++ flat_map (λ f. codes "\n" ++ function_text (function_of f)) functions.now) }
{
    for function in functions {
        put_next(alloc, out, function)?;
    }
    Ok(())
}

fn put_functions(alloc: Global, out: &mut Vec<u8>, functions: &[Function]) -> Result<(), Memory>
    ensures { OnOk result (out.new.items ≡ out.old.items ++ contract_text (map function_of functions.now)) }
{
    match functions {
        [] => Ok(()),
        [first, rest @ ..] => {
            put_function(alloc, out, first)?;
            put_rest(alloc, out, rest)
        }
    }
}

fn text_of(alloc: Global, contract: &Contract) -> Result<Vec<u8>, Memory>
    ensures { IfOk result (λ text. text.items ≡ contract_text (contract_of contract.now)) }
{
    let mut out = Vec::new(alloc);
    put_functions(alloc, &mut out, contract.functions.as_slice())?;
    Ok(out)
}

/// The canonical text of a contract. Contracts that differ in their offsets only have the same
/// text. A contract that was read from a source of its edition is read again from its text in that
/// edition, apart from offsets, and the text of what its text reads as is that text.
///
/// # Errors
///
/// `Memory`, if the text does not fit.
pub fn print(alloc: Global, contract: &Contract) -> Result<Bytes, Memory>
    ensures text { IfOk result (λ text. text ≡ contract_text (contract_of contract.now)) }
    ensures one_text { HasOneText (contract_of contract.now) }
    ensures again { (source : List ℕ) → ReadsAs contract.now.edition source (contract_of contract.now) → IfOk result (λ text. ReadsAgain contract.now.edition text (contract_of contract.now)) }
    ensures fixed { (source : List ℕ) → ReadsAs contract.now.edition source (contract_of contract.now) → IfOk result (IsFixed contract.now.edition) }
{
    let text = text_of(alloc, contract)?;
    Ok(Seq::from_vec(text))
}
