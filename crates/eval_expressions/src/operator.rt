//! Operators on values: a checked contract never applies one to values that it doesn't take.

ghost use Rattle.std.specs.Prelude.{◌≡◌};
ghost use Rattle.contract_semantics.specs.{
  Operators.{on_ints, on_texts, binary_result, prefix_result, left_decision, holds},
  Answers.{IsResultOf, IsNoFault},
};

use crate::number::{difference, negation, product, quotient, remainder, sum, truth};
use contract_semantics::EvalStop;
use contract_tree::Sign;
use lc_base::{Memory, Text, TxStatus, Value};
use std::alloc::Global;

/// What the left side of `&&` or `||` decides alone: 0 or 1, or `None` if the right side decides.
pub fn left_decision(sign: Sign, value: &Value) -> Option<i64>
    ensures { result ≡ left_decision sign value.now }
{
    match (sign, value) {
        (Sign::And, Value::Int(number)) => { if *number == 0 { Some(0) } else { None } }
        (Sign::Or, Value::Int(number)) => { if *number == 0 { None } else { Some(1) } }
        _ => None,
    }
}

fn on_ints(sign: Sign, a: i64, b: i64) -> Result<Value, TxStatus>
    ensures { result ≡ on_ints sign a b }
{
    match sign {
        Sign::Or | Sign::And => Ok(Value::Int(truth(b != 0))),
        Sign::Equal => Ok(Value::Int(truth(a == b))),
        Sign::NotEqual => Ok(Value::Int(truth(a != b))),
        Sign::Less => Ok(Value::Int(truth(a < b))),
        Sign::LessEqual => Ok(Value::Int(truth(a <= b))),
        Sign::Greater => Ok(Value::Int(truth(a > b))),
        Sign::GreaterEqual => Ok(Value::Int(truth(a >= b))),
        Sign::Plus => sum(a, b).map(Value::Int),
        Sign::Minus => difference(a, b).map(Value::Int),
        Sign::Star => product(a, b).map(Value::Int),
        Sign::Slash => quotient(a, b).map(Value::Int),
        Sign::Percent => remainder(a, b).map(Value::Int),
        Sign::Concat | Sign::Not => Err(TxStatus::WrongKind),
    }
}

fn on_texts(alloc: Global, sign: Sign, a: &Text, b: &Text) -> Result<Value, EvalStop>
    ensures value { IsResultOf (λ value. value) (on_texts sign a.now b.now) result }
    ensures no_fault { IsNoFault result }
{
    match sign {
        Sign::Equal => Ok(Value::Int(truth(a.as_bytes() == b.as_bytes()))),
        Sign::NotEqual => Ok(Value::Int(truth(a.as_bytes() != b.as_bytes()))),
        Sign::Concat => match a.join(alloc, b) {
            Ok(Some(text)) => Ok(Value::Text(text)),
            Ok(None) => Err(EvalStop::Status(TxStatus::TextTooLong)),
            Err(Memory) => Err(EvalStop::Memory),
        },
        _ => Err(EvalStop::Status(TxStatus::WrongKind)),
    }
}

/// The value of an operator applied to two values.
///
/// # Errors
///
/// `Overflow`, `DivZero`, and `TextTooLong` as the operator says, or `Memory` for a text.
/// `WrongKind` if the operator doesn't take these values, which no checked contract reaches.
pub fn binary_result(
    alloc: Global,
    sign: Sign,
    first: &Value,
    second: &Value,
) -> Result<Value, EvalStop>
    ensures value { IsResultOf (λ value. value) (binary_result sign first.now second.now) result }
    ensures no_fault { IsNoFault result }
{
    match (first, second) {
        (Value::Int(a), Value::Int(b)) => Ok(on_ints(sign, *a, *b)?),
        (Value::Text(a), Value::Text(b)) => on_texts(alloc, sign, a, b),
        _ => Err(EvalStop::Status(TxStatus::WrongKind)),
    }
}

/// The value of a prefix applied to a value.
///
/// # Errors
///
/// `Overflow` for the least number negated. `WrongKind` if the prefix doesn't take the value, which
/// no checked contract reaches.
pub fn prefix_result(sign: Sign, value: &Value) -> Result<Value, TxStatus>
    ensures { result ≡ prefix_result sign value.now }
{
    match (sign, value) {
        (Sign::Minus, Value::Int(number)) => negation(*number).map(Value::Int),
        (Sign::Not, Value::Int(number)) => Ok(Value::Int(truth(*number == 0))),
        _ => Err(TxStatus::WrongKind),
    }
}

/// Whether a condition with this value holds: whether it is a number other than 0.
pub fn holds(value: &Value) -> bool
    ensures { result ≡ holds value.now }
{
    match value {
        Value::Int(number) => *number != 0,
        Value::Text(_) | Value::Gone => false,
    }
}
