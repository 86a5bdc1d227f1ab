//! Reading the fields of transactions from JSON. What has another shape is not read.

ghost use Rattle.std.specs.{Prelude.{◌≡◌, ◌≤◌, map, length, IfOk}, Option.{option_map}};
ghost use Rattle.serde_json.specs.View.{view};
ghost use Rattle.lc_base.specs.{
  KeyBytes.{IsKey},
  NameBytes.{IsName},
  declared.limits.TheConstants.{MAX_TEXT_BYTES},
};
ghost use Rattle.byte_fields.specs.Spelling.{IsBlockValue};
ghost use Rattle.block_codec.specs.declared.limits.TheConstants.{MAX_CALL_BUDGET, MAX_SOURCE_BYTES};
ghost use Rattle.chain_pack.specs.{
  Json.{items_in, member_count},
  Transactions.{key_in, name_in, source_in, value_in, budget_in, key_at, name_at},
  Reading.{Reads, ReadsLawful},
};

use crate::read_error::ReadError;
use block_codec::{MAX_CALL_BUDGET, MAX_SOURCE_BYTES};
use lc_base::{Bytes, Key, Name, Text, TextError, Value};
use serde_json::Value as Json;
use std::alloc::{AllocError, Global};

/// The items of an array, or `None` if the value is no array.
#[tactic(auto, using(crate::proofs::Views::items_listed))]
pub fn items_in(json: &Json) -> Option<&[Json]>
    ensures { option_map (λ items. map view items.now) result ≡ items_in (view json.now) }
{
    match json.as_array() {
        Some(items) => Some(items.as_slice()),
        None => None,
    }
}

/// The number of an object's members, or `None` if the value is no object.
#[tactic(auto, using(crate::proofs::Views::members_counted))]
pub fn member_count(json: &Json) -> Option<usize>
    ensures { result ≡ member_count (view json.now) }
{
    match json.as_object() {
        Some(members) => Some(members.len()),
        None => None,
    }
}

/// A key, from a string.
pub fn key_in(json: &Json) -> Result<Key, ReadError>
    ensures { ReadsLawful IsKey result (key_in (view json.now)) }
{
    let text = json.as_str().ok_or(ReadError::Shape)?;
    Key::new(text.as_bytes()).map_err(|_| ReadError::Shape)
}

/// A name, from a string.
pub fn name_in(json: &Json) -> Result<Name, ReadError>
    ensures { ReadsLawful IsName result (name_in (view json.now)) }
{
    let text = json.as_str().ok_or(ReadError::Shape)?;
    Name::new(text.as_bytes()).map_err(|_| ReadError::Shape)
}

/// A contract's source, from a string of at most `MAX_SOURCE_BYTES` bytes.
pub fn source_in(alloc: Global, json: &Json) -> Result<Bytes, ReadError>
    ensures read { Reads result (source_in (view json.now)) }
    ensures short { IfOk result (λ source. length source ≤ MAX_SOURCE_BYTES) }
{
    let text = json.as_str().ok_or(ReadError::Shape)?;
    let bytes = text.as_bytes();
    if bytes.len() > MAX_SOURCE_BYTES {
        return Err(ReadError::Shape);
    }
    match Vec::from_slice(alloc, bytes) {
        Ok(bytes) => Ok(Bytes::from_vec(bytes)),
        Err(AllocError) => Err(ReadError::Memory),
    }
}

/// A value, from an integer of 64 bits or a string that is a text of at most `longest` bytes.
pub fn value_in(alloc: Global, json: &Json, longest: u16) -> Result<Value, ReadError>
    requires { longest ≤ MAX_TEXT_BYTES }
    ensures { ReadsLawful (IsBlockValue longest) result (value_in longest (view json.now)) }
{
    if let Some(number) = json.as_i64() {
        return Ok(Value::Int(number));
    }
    let text = json.as_str().ok_or(ReadError::Shape)?;
    let bytes = text.as_bytes();
    if bytes.len() > longest as usize {
        return Err(ReadError::Shape);
    }
    match Text::new(alloc, bytes) {
        Ok(text) => Ok(Value::Text(text)),
        Err(TextError::Memory) => Err(ReadError::Memory),
        Err(TextError::Long | TextError::Byte(_)) => Err(ReadError::Shape),
    }
}

/// A budget in steps, from an integer of at most `MAX_CALL_BUDGET`.
pub fn budget_in(json: &Json) -> Result<u32, ReadError>
    ensures read { Reads result (budget_in (view json.now)) }
    ensures low { IfOk result (λ steps. steps ≤ MAX_CALL_BUDGET) }
{
    match json.as_u64() {
        Some(steps) if steps <= u64::from(MAX_CALL_BUDGET) => Ok(steps as u32),
        _ => Err(ReadError::Shape),
    }
}

/// The key in the member `name` of an object.
pub fn key_at(json: &Json, name: &str) -> Result<Key, ReadError>
    ensures { ReadsLawful IsKey result (key_at name.now (view json.now)) }
{
    key_in(json.get(name).ok_or(ReadError::Shape)?)
}

/// The name in the member `name` of an object.
pub fn name_at(json: &Json, name: &str) -> Result<Name, ReadError>
    ensures { ReadsLawful IsName result (name_at name.now (view json.now)) }
{
    name_in(json.get(name).ok_or(ReadError::Shape)?)
}
