//! Reading lists from JSON: an array within a limit, each of whose items is read.

ghost use Rattle.std.specs.{
  Prelude.{◌≡◌, ◌≤◌, ℕ, map, length, Option, IfOk},
  Result.{result_ok},
  List.{AllByRecursion},
};
ghost use Rattle.serde_json.specs.{Data.{Data}, View.{view}};
ghost use Rattle.lc_base.specs.{KeyBytes.{IsKey}, declared.limits.TheConstants.{MAX_TEXT_BYTES}};
ghost use Rattle.byte_fields.specs.Spelling.{IsBlockValue};
ghost use Rattle.chain_pack.specs.{
  Transactions.{each, all_in, key_in, value_in},
  Reading.{ReadsLawful},
};

use crate::fields::{items_in, key_in, value_in};
use crate::read_error::ReadError;
use lc_base::{Key, Memory, Seq, Value};
use serde_json::Value as Json;
use std::alloc::Global;

/// An item of a list that is read from JSON.
pub(crate) trait FromJson: Drop {
    /// What JSON is read as, if texts have at most so many bytes.
    ghost made: { ℕ → Data → Option Self };
    /// What the items that are read keep to then.
    ghost lawful: { ℕ → Self → Type 0 };

    /// Reads one item, whose text, if it is one, has at most `longest` bytes.
    fn from_json(alloc: Global, json: &Json, longest: u16) -> Result<Self, ReadError>
        requires { longest ≤ MAX_TEXT_BYTES }
        ensures { ReadsLawful (lawful longest) result (made longest (view json.now)) };
}

impl FromJson for Key {
    ghost made = { λ _. key_in };

    ghost lawful = { λ _. IsKey };

    fn from_json(_alloc: Global, json: &Json, _longest: u16) -> Result<Key, ReadError> {
        key_in(json)
    }
}

impl FromJson for Value {
    ghost made = { value_in };

    ghost lawful = { IsBlockValue };

    fn from_json(alloc: Global, json: &Json, longest: u16) -> Result<Value, ReadError> {
        value_in(alloc, json, longest)
    }
}

fn each<T: FromJson>(alloc: Global, items: &[Json], longest: u16) -> Result<Seq<T>, ReadError>
    requires { longest ≤ MAX_TEXT_BYTES }
    ensures reads { ReadsLawful (AllByRecursion (T.lawful longest)) result
        (result_ok (each (T.made longest) 0 (map view items.now))) }
    ensures count { IfOk result (λ list. length list ≡ length items.now) }
{
    let mut list = Seq::new(alloc);
    for item in items {
        let value = T::from_json(alloc, item, longest)?;
        match list.push(value) {
            Ok(()) => {}
            Err(Memory) => return Err(ReadError::Memory),
        }
    }
    Ok(list)
}

/// The items of an array of at most `most`, whose texts have at most `longest` bytes.
pub(crate) fn all_in<T: FromJson>(
    alloc: Global,
    json: &Json,
    most: usize,
    longest: u16,
) -> Result<Seq<T>, ReadError>
    requires { longest ≤ MAX_TEXT_BYTES }
    ensures reads { ReadsLawful (AllByRecursion (T.lawful longest)) result
        (all_in (T.made longest) most (view json.now)) }
    ensures few { IfOk result (λ list. length list ≤ most) }
{
    let items = items_in(json).ok_or(ReadError::Shape)?;
    if items.len() > most {
        return Err(ReadError::Shape);
    }
    each(alloc, items, longest)
}
