//! A contract reads what its transaction has put, or else the version that the key had before the
//! block, which is recorded.

ghost use Rattle.std.specs.Prelude.{◌≡◌, Ok};
ghost use Rattle.dep_capture.specs.Capture.{pending};
ghost use Rattle.world_state.specs.World.{newest_of};
ghost use Rattle.contract_semantics.specs.{
  Reading.{block_of, is_gone, unless_gone, value_of_version, has_value, captured_by_read, value_got, is_held, of_kind, get_result, has_result},
  Answers.{place_in, IsResultOf, IsNoFault, Takes, ReadsOrRefuses, IsFaithful},
};
ghost use Rattle.eval_expressions.specs.Kinds.{in_kind};

use crate::asking::key_of_text;
use crate::number::truth;
use contract_semantics::EvalStop;
use contract_tree::ValueKind;
use dep_capture::{Capture, CaptureError};
use lc_base::{Duplicate, Key, Text, TxStatus, Value};
use std::alloc::Global;
use world_state::World;

/// A copy of a value.
pub fn copy_of(alloc: Global, value: &Value) -> Result<Value, EvalStop>
    ensures value { IsResultOf (λ value. value) (Ok value.now) result }
    ensures no_fault { IsNoFault result }
{
    Ok(value.copy(alloc)?)
}

/// The value if it is of this kind, else `WrongKind`.
pub(crate) fn in_kind(kind: ValueKind, value: Value) -> Result<Value, TxStatus>
    ensures { result ≡ in_kind kind value }
{
    match (kind, value) {
        (ValueKind::Int, Value::Int(number)) => Ok(Value::Int(number)),
        (ValueKind::Text, Value::Text(text)) => Ok(Value::Text(text)),
        _ => Err(TxStatus::WrongKind),
    }
}

fn version_block<C>(world: &World<C>, key: &Key) -> Option<u32>
    ensures { result ≡ block_of (newest_of world.now key.now) }
{
    match world.value(key) {
        Some((block, _)) => Some(block),
        None => None,
    }
}

/// Records the read of a key; `Conflict` if the block has written the key.
fn read<C>(world: &World<C>, capture: &mut Capture, key: &Key) -> Result<(), EvalStop>
    ensures taken { ReadsOrRefuses (captured_by_read (place_in world.now) key.now capture.old) capture.old result capture.new }
    ensures faithful { IsFaithful (place_in world.now) capture.old → IsFaithful (place_in world.now) capture.new }
    ensures no_fault { IsNoFault result }
{
    if world.written(key) {
        return Err(EvalStop::Status(TxStatus::Conflict));
    }
    match capture.read(*key, version_block(world, key)) {
        Ok(()) => Ok(()),
        Err(CaptureError::Memory) => Err(EvalStop::Memory),
        Err(CaptureError::TooMany) => Err(EvalStop::Status(TxStatus::TooMany)),
        Err(CaptureError::NotRead) => Err(EvalStop::Status(TxStatus::TooMany)),
    }
}

fn is_gone(value: &Value) -> bool
    ensures { result ≡ is_gone value.now }
{
    matches!(value, Value::Gone)
}

/// A copy of the value; `NoKey` if it is gone.
fn unless_gone(alloc: Global, value: &Value) -> Result<Value, EvalStop>
    ensures value { IsResultOf (λ value. value) (unless_gone value.now) result }
    ensures no_fault { IsNoFault result }
{
    match value {
        Value::Gone => Err(EvalStop::Status(TxStatus::NoKey)),
        Value::Int(_) | Value::Text(_) => copy_of(alloc, value),
    }
}

fn has_value<C>(world: &World<C>, key: &Key) -> bool
    ensures { result ≡ has_value (newest_of world.now key.now) }
{
    match world.value(key) {
        None => false,
        Some((_, value)) => !is_gone(value),
    }
}

fn value_of_version<C>(alloc: Global, world: &World<C>, key: &Key) -> Result<Value, EvalStop>
    ensures value { IsResultOf (λ value. value) (value_of_version (newest_of world.now key.now)) result }
    ensures no_fault { IsNoFault result }
{
    match world.value(key) {
        None => Err(EvalStop::Status(TxStatus::NoKey)),
        Some((_, value)) => unless_gone(alloc, value),
    }
}

fn value_got<C>(
    alloc: Global,
    world: &World<C>,
    capture: &mut Capture,
    key: &Key,
) -> Result<Value, EvalStop>
    ensures taken { Takes (value_got (place_in world.now) key.now (pending capture.old.puts key.now) capture.old) result capture.new }
    ensures faithful { IsFaithful (place_in world.now) capture.old → IsFaithful (place_in world.now) capture.new }
    ensures no_fault { IsNoFault result }
{
    match capture.pending(key) {
        Some(value) => unless_gone(alloc, value),
        None => {
            read(world, capture, key)?;
            value_of_version(alloc, world, key)
        }
    }
}

fn is_held<C>(world: &World<C>, capture: &mut Capture, key: &Key) -> Result<Value, EvalStop>
    ensures taken { Takes (is_held (place_in world.now) key.now (pending capture.old.puts key.now) capture.old) result capture.new }
    ensures faithful { IsFaithful (place_in world.now) capture.old → IsFaithful (place_in world.now) capture.new }
    ensures no_fault { IsNoFault result }
{
    match capture.pending(key) {
        Some(value) => Ok(Value::Int(truth(!is_gone(value)))),
        None => {
            read(world, capture, key)?;
            Ok(Value::Int(truth(has_value(world, key))))
        }
    }
}

/// The value of this kind at the key that a text spells; `NoKey` if there is none, or it is gone.
pub(crate) fn get<C>(
    alloc: Global,
    world: &World<C>,
    capture: &mut Capture,
    kind: ValueKind,
    text: &Text,
) -> Result<Value, EvalStop>
    ensures taken { Takes (of_kind (in_kind kind) (get_result (place_in world.now) text.now capture.old)) result capture.new }
    ensures faithful { IsFaithful (place_in world.now) capture.old → IsFaithful (place_in world.now) capture.new }
    ensures no_fault { IsNoFault result }
{
    let key = key_of_text(text)?;
    let value = value_got(alloc, world, capture, &key)?;
    Ok(in_kind(kind, value)?)
}

/// Whether there is a value at the key that a text spells, and it isn't gone: 1 or 0.
pub(crate) fn has<C>(
    world: &World<C>,
    capture: &mut Capture,
    text: &Text,
) -> Result<Value, EvalStop>
    ensures taken { Takes (has_result (place_in world.now) text.now capture.old) result capture.new }
    ensures faithful { IsFaithful (place_in world.now) capture.old → IsFaithful (place_in world.now) capture.new }
    ensures no_fault { IsNoFault result }
{
    let key = key_of_text(text)?;
    is_held(world, capture, &key)
}
