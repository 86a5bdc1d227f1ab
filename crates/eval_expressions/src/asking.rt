//! Questions about the past go to the host, the count of a list before an item of it: so an index
//! past the end and a version that doesn't exist are reported apart.

ghost use Rattle.std.specs.Prelude.{◌≡◌, ◌<◌, ◌^◌, ℕ, Ok, Some, IfSome, IfOk};
ghost use Rattle.lc_base.specs.{
  declared.answer.Kind.TheVariants.{Hist},
  History.{scan},
  Parts.{question, version_in, list_in, count_in, item_in},
};
ghost use Rattle.contract_semantics.specs.{
  Reading.{key_of_text},
  Steps.{and_so},
  Asking.{block_before, list_told, value_told, block_told, tx_told, seen_told, count_told, count_value, index_in, index_told, item_told, item_part_of, key_value, block_value},
  Answers.{IsResultOf, IsNoFault},
  Hosts.{Asks},
};
ghost use Rattle.eval_expressions.specs.Sides.{kind_of, room_of, host_answer};

use crate::number::truth;
use crate::side::Side;
use contract_semantics::EvalStop;
use lc_base::{Dep, Host, HostError, Key, Text, TxStatus, Value, Version};
use std::alloc::Global;

/// The key that a text spells; `BadKey` if it isn't one.
pub fn key_of_text(text: &Text) -> Result<Key, TxStatus>
    ensures { result ≡ key_of_text text.now }
{
    match Key::new(text.as_bytes()) {
        Ok(key) => Ok(key),
        Err(_) => Err(TxStatus::BadKey),
    }
}

/// A block before the block `number`; else `BadBlock`.
pub fn block_before(number: u32, at: i64) -> Result<u32, TxStatus>
    ensures { result ≡ block_before number at }
{
    if at < 0 || at >= i64::from(number) {
        Err(TxStatus::BadBlock)
    } else {
        Ok(at as u32)
    }
}

// ---- what a contract can learn of a version

/// The value of the version; `NoKey` if there is none.
pub fn value_told(version: Option<Version>) -> Result<Value, TxStatus>
    ensures { result ≡ value_told version }
{
    match version {
        None => Err(TxStatus::NoKey),
        Some(version) => Ok(version.value),
    }
}

/// The block of the version; `NoKey` if there is none.
pub fn block_told(version: Option<Version>) -> Result<Value, TxStatus>
    ensures { result ≡ block_told version }
{
    match version {
        None => Err(TxStatus::NoKey),
        Some(version) => Ok(Value::Int(i64::from(version.block))),
    }
}

/// The index of the version's transaction in its block; `NoKey` if there is no version.
pub fn tx_told(version: Option<Version>) -> Result<Value, TxStatus>
    ensures { result ≡ tx_told version }
{
    match version {
        None => Err(TxStatus::NoKey),
        Some(version) => Ok(Value::Int(i64::from(version.tx))),
    }
}

/// 1 if there is a version, else 0.
pub fn seen_told(version: Option<Version>) -> Value
    ensures { Ok result ≡ seen_told version }
{
    Value::Int(truth(version.is_some()))
}

// ---- what a contract can learn of an item of a list

/// The key of the item, as a text.
pub fn key_value(alloc: Global, dep: &Dep) -> Result<Value, EvalStop>
    ensures value { IsResultOf (λ value. value) (key_value dep.now) result }
    ensures no_fault { IsNoFault result }
{
    Ok(Value::Text(Text::from_key(alloc, &dep.key)?))
}

/// The block of the item.
pub fn block_value(dep: &Dep) -> Value
    ensures { Ok result ≡ block_value dep.now }
{
    Value::Int(i64::from(dep.block))
}

/// The index, if it is from 0 to `count - 1`.
fn index_below(count: u64, index: i64) -> Option<u64>
    requires { count < 2 ^ 63 }
    ensures index { result ≡ index_in count index }
    ensures below { IfSome result (λ i. i < count) }
{
    if index < 0 || index as u64 >= count {
        None
    } else {
        Some(index as u64)
    }
}

// ---- questions

/// The host's answer, or why it returned none.
fn host_answer<T>(given: Result<T, HostError>) -> Result<T, EvalStop>
    ensures { result ≡ host_answer given }
{
    match given {
        Ok(told) => Ok(told),
        Err(HostError::Fault) => Err(EvalStop::Fault),
        Err(HostError::Memory) => Err(EvalStop::Memory),
    }
}

/// The version of a key up to a block.
pub fn version_asked<H: Host>(
    alloc: Global,
    host: &mut H,
    key: &Key,
    block: u32,
) -> Result<Option<Version>, EvalStop>
    requires { H.ready host.old }
    ensures { Asks H.Host host.old host.new (λ version. version) (λ rows. Ok (version_in (scan rows (question Hist key.now block)))) result }
{
    host_answer(host.hist(alloc, key, block))
}

// ---- how many dependencies or uses

#[tactic(auto, unfolding(crate::specs::Sides::kind_of))]
fn count_of<H: Host>(
    host: &mut H,
    side: Side,
    key: &Key,
    block: u32,
) -> Result<Option<u64>, EvalStop>
    requires { H.ready host.old }
    ensures asked { Asks H.Host host.old host.new (λ count. count) (λ rows. Ok (count_in (scan rows (question (kind_of side) key.now block)))) result }
    ensures bound { IfOk result (λ count. IfSome count (λ n. n < room_of side)) }
{
    match side {
        Side::Back => match host_answer(host.back_count(key, block))? {
            None => Ok(None),
            Some(count) => Ok(Some(u64::from(count))),
        },
        Side::Fwd => host_answer(host.fwd_count(key, block)),
    }
}

fn count_value(count: Option<u64>) -> Result<Value, TxStatus>
    requires { IfSome count (λ n. n < 2 ^ 63) }
    ensures { result ≡ count_value count }
{
    match count {
        None => Err(TxStatus::NoKey),
        Some(count) => Ok(Value::Int(count as i64)),
    }
}

/// The number of dependencies or uses of the version of a key up to a block; `NoKey` if there is no
/// version.
#[tactic(auto, using(crate::proofs::Items::count_is))]
pub fn count_asked<H: Host>(
    host: &mut H,
    side: Side,
    key: &Key,
    block: u32,
) -> Result<Value, EvalStop>
    requires { H.ready host.old }
    ensures { Asks H.Host host.old host.new (λ value. value) (λ rows. and_so (list_told (list_in (scan rows (question (kind_of side) key.now block)))) count_told) result }
{
    let count = count_of(host, side, key, block)?;
    Ok(count_value(count)?)
}

// ---- one dependency or use

#[tactic(auto, unfolding(crate::specs::Sides::kind_of))]
fn item_at<H: Host>(
    host: &mut H,
    side: Side,
    key: &Key,
    block: u32,
    index: u64,
) -> Result<Option<Dep>, EvalStop>
    requires ready { H.ready host.old }
    requires below { index < room_of side }
    ensures { Asks H.Host host.old host.new (λ dep. dep) (λ rows. Ok (item_in index (scan rows (question (kind_of side) key.now block)))) result }
{
    match side {
        Side::Back => host_answer(host.back_at(key, block, index as u32)),
        Side::Fwd => host_answer(host.fwd_at(key, block, index)),
    }
}

/// The index of an item; `NoKey` if there is no version, `BadIndex` if it has no such item.
fn index_told(count: Option<u64>, index: i64) -> Result<u64, TxStatus>
    requires { IfSome count (λ n. n < 2 ^ 63) }
    ensures index { result ≡ index_told count index }
    ensures below { IfOk result (λ i. IfSome count (λ n. i < n)) }
{
    match count {
        None => Err(TxStatus::NoKey),
        Some(count) => match index_below(count, index) {
            None => Err(TxStatus::BadIndex),
            Some(index) => Ok(index),
        },
    }
}

fn item_told(dep: Option<Dep>) -> Result<Dep, TxStatus>
    ensures { result ≡ item_told dep }
{
    dep.ok_or(TxStatus::BadIndex)
}

/// The dependency or use at an index, from 0, of the version of a key up to a block.
#[tactic(auto, using(crate::proofs::Items::item_is))]
pub fn item_asked<H: Host>(
    host: &mut H,
    side: Side,
    key: &Key,
    block: u32,
    index: i64,
) -> Result<Dep, EvalStop>
    requires { H.ready host.old }
    ensures { Asks H.Host host.old host.new (λ dep. dep) (λ rows. item_part_of (scan rows (question (kind_of side) key.now block)) index) result }
{
    let count = count_of(host, side, key, block)?;
    match index_told(count, index) {
        Err(status) => Err(EvalStop::Status(status)),
        Ok(index) => {
            let dep = item_at(host, side, key, block, index)?;
            Ok(item_told(dep)?)
        }
    }
}
