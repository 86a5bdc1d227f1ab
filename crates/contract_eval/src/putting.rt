//! The key of a put is checked first, then the keys that its value is said to come from.

ghost use Rattle.std.specs.{Prelude.{◌≡◌, [], false, Ok, OnOk}, Option.{option_map, option_copied}};
ghost use Rattle.dep_capture.specs.Capture.{captured_after_put};
ghost use Rattle.world_state.specs.World.{is_written};
ghost use Rattle.eval_expressions.specs.{
  contract_semantics.Scenes.{Place},
  contract_semantics.Puts.{
    is_own,
    key_in,
    keys_in,
    named_keys,
    is_one_too_many,
    key_to_put,
    put_recorded,
    captured_by_put,
  },
  contract_semantics.Answers.{
    place_in,
    IsResultOf,
    IsNoFault,
    IsAllowed,
    ReadsOrRefuses,
    IsFaithful,
  },
};

use dep_capture::{Capture, CaptureError, MAX_KEYS_PUT};
use eval_expressions::{EvalStop, key_of_text};
use lc_base::{Key, KeyList, Name, TxStatus, Value};
use std::alloc::Global;
use world_state::World;

/// Whether a contract may write the key: it begins with the contract's name and a slash.
fn is_own(contract: &Name, key: &Key) -> bool
    ensures { result ≡ is_own contract.now key.now }
{
    let contract = contract.as_bytes();
    let key = key.as_bytes();
    key.starts_with(contract) && key[contract.len()..].starts_with(b"/")
}

fn key_in(value: &Value) -> Result<Key, TxStatus>
    ensures { result ≡ key_in value.now }
{
    match value {
        Value::Int(_) | Value::Gone => Err(TxStatus::WrongKind),
        Value::Text(text) => key_of_text(text),
    }
}

fn keys_in(alloc: Global, values: &[Value]) -> Result<KeyList, EvalStop>
    ensures keys { IsResultOf (λ keys. keys) (keys_in [] values.now) result }
    ensures no_fault { IsNoFault result }
{
    let mut keys = KeyList::new(alloc);
    for value in values {
        keys.push(key_in(value)?)?;
    }
    Ok(keys)
}

/// Whether a put of the key would exceed the number of keys that a transaction may put.
fn is_one_too_many(capture: &Capture, key: &Key) -> bool
    ensures { result ≡ is_one_too_many capture.now.puts key.now }
{
    match capture.pending(key) {
        Some(_) => false,
        None => capture.puts() >= MAX_KEYS_PUT,
    }
}

fn named_keys(alloc: Global, parts: Option<Vec<Value>>) -> Result<Option<KeyList>, EvalStop>
    ensures keys { IsResultOf (λ keys. keys) (named_keys (option_map (λ values. values.items) parts)) result }
    ensures no_fault { IsNoFault result }
{
    match parts {
        None => Ok(None),
        Some(parts) => Ok(Some(keys_in(alloc, &parts)?)),
    }
}

fn key_to_put<C>(
    world: &World<C>,
    contract: &Name,
    capture: &Capture,
    key: &Key,
) -> Result<(), TxStatus>
    ensures allowed { IsAllowed (key_to_put contract.now (place_in world.now) capture.now.puts key.now) key.now result }
    ensures unwritten { OnOk result (is_written world.now key.now ≡ false) }
{
    if !is_own(contract, key) {
        return Err(TxStatus::Foreign);
    }
    if world.written(key) {
        return Err(TxStatus::Conflict);
    }
    if is_one_too_many(capture, key) {
        return Err(TxStatus::TooMany);
    }
    Ok(())
}

/// Records a put, or returns the status with which it is refused.
#[tactic(auto, using(crate::proofs::Faithful::put_faithful))]
fn record_put(
    capture: &mut Capture,
    key: &Key,
    value: Value,
    named: Option<&KeyList>,
) -> Result<(), EvalStop>
    ensures put { ReadsOrRefuses (put_recorded (captured_after_put capture.old key.now value (option_copied named.entry))) capture.old result capture.new }
    ensures faithful { (place : Place) → place.written key.now ≡ false → IsFaithful place capture.old → IsFaithful place capture.new }
    ensures no_fault { IsNoFault result }
{
    match capture.put(*key, value, named) {
        Ok(()) => Ok(()),
        Err(CaptureError::NotRead) => Err(EvalStop::Status(TxStatus::NotRead)),
        Err(CaptureError::TooMany) => Err(EvalStop::Status(TxStatus::TooMany)),
        Err(CaptureError::Memory) => Err(EvalStop::Memory),
    }
}

/// Records a put of `value` to the key that the value `key` spells. The key is checked first, then
/// `parts`, the keys that `value` is said to come from.
///
/// # Errors
///
/// The status with which the put is refused, and then nothing is recorded; or `Memory`.
pub fn put<C>(
    alloc: Global,
    world: &World<C>,
    contract: &Name,
    capture: &mut Capture,
    key: &Value,
    value: Value,
    parts: Option<Vec<Value>>,
) -> Result<(), EvalStop>
    ensures put { ReadsOrRefuses (captured_by_put contract.now (place_in world.now) key.now value (option_map (λ values. values.items) parts) capture.old) capture.old result capture.new }
    ensures faithful { IsFaithful (place_in world.now) capture.old → IsFaithful (place_in world.now) capture.new }
    ensures no_fault { IsNoFault result }
{
    let key = key_in(key)?;
    key_to_put(world, contract, capture, &key)?;
    let named = named_keys(alloc, parts)?;
    record_put(capture, &key, value, named.as_ref())
}
