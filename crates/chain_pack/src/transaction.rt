//! Reading transactions from JSON: an object with one member, which names the kind.

ghost use Rattle.std.specs.{
  Prelude.{◌≡◌, ◌≤◌, ℕ, length, codes},
  List.{AllByRecursion},
};
ghost use Rattle.serde_json.specs.{Find.{get}, View.{view}};
ghost use Rattle.lc_base.specs.{
  KeyBytes.{IsKey},
  declared.limits.TheConstants.{MAX_DEPS, MAX_TEXT_BYTES},
};
ghost use Rattle.block_codec.specs.Spelling.{IsTx};
ghost use Rattle.chain_pack.specs.{
  Transactions.{set_with, set_in, deploy_in, call_in, tx_by, tx_in},
  Reading.{ReadsLawful},
};

use crate::fields::{budget_in, key_at, member_count, name_at, source_in, value_in};
use crate::lists::all_in;
use crate::read_error::ReadError;
use block_codec::{MAX_ARGS, Tx};
use lc_base::{KeyList, MAX_DEPS};
use serde_json::Value as Json;
use std::alloc::Global;

fn deploy_in(alloc: Global, json: &Json) -> Result<Tx, ReadError>
    ensures { (longest : ℕ) → ReadsLawful (IsTx longest) result (deploy_in (view json.now)) }
{
    let tx = Tx::Deploy {
        sender: key_at(json, "sender")?,
        name: name_at(json, "name")?,
        source: source_in(alloc, json.get("source").ok_or(ReadError::Shape)?)?,
    };
    if member_count(json) != Some(3) {
        return Err(ReadError::Shape);
    }
    Ok(tx)
}

fn call_in(alloc: Global, json: &Json, longest: u16) -> Result<Tx, ReadError>
    requires { longest ≤ MAX_TEXT_BYTES }
    ensures { ReadsLawful (IsTx longest) result (call_in longest (view json.now)) }
{
    let tx = Tx::Call {
        sender: key_at(json, "sender")?,
        contract: name_at(json, "contract")?,
        function: name_at(json, "function")?,
        args: all_in(
            alloc,
            json.get("args").ok_or(ReadError::Shape)?,
            MAX_ARGS,
            longest,
        )?,
        budget: budget_in(json.get("budget").ok_or(ReadError::Shape)?)?,
    };
    if member_count(json) != Some(5) {
        return Err(ReadError::Shape);
    }
    Ok(tx)
}

fn set_with(
    alloc: Global,
    json: &Json,
    longest: u16,
    members: usize,
    deps: KeyList,
) -> Result<Tx, ReadError>
    requires longest { longest ≤ MAX_TEXT_BYTES }
    requires deps { (length deps ≤ MAX_DEPS) × AllByRecursion IsKey deps }
    ensures { ReadsLawful (IsTx longest) result (set_with longest members deps (view json.now)) }
{
    let tx = Tx::Set {
        sender: key_at(json, "sender")?,
        key: key_at(json, "key")?,
        value: value_in(alloc, json.get("value").ok_or(ReadError::Shape)?, longest)?,
        deps,
    };
    if member_count(json) != Some(members) {
        return Err(ReadError::Shape);
    }
    Ok(tx)
}

fn set_in(alloc: Global, json: &Json, longest: u16) -> Result<Tx, ReadError>
    requires { longest ≤ MAX_TEXT_BYTES }
    ensures { ReadsLawful (IsTx longest) result (set_in longest (view json.now)) }
{
    match json.get("deps") {
        None => set_with(alloc, json, longest, 3, KeyList::new(alloc)),
        Some(deps) => {
            let keys = all_in(alloc, deps, MAX_DEPS, longest)?;
            set_with(alloc, json, longest, 4, keys)
        }
    }
}

fn tx_by(alloc: Global, json: &Json, longest: u16) -> Result<Tx, ReadError>
    requires { longest ≤ MAX_TEXT_BYTES }
    ensures { ReadsLawful (IsTx longest) result (tx_by longest (get (codes "set") (view json.now))
        (get (codes "deploy") (view json.now)) (get (codes "call") (view json.now))) }
{
    if let Some(set) = json.get("set") {
        return set_in(alloc, set, longest);
    }
    if let Some(deploy) = json.get("deploy") {
        return deploy_in(alloc, deploy);
    }
    match json.get("call") {
        Some(call) => call_in(alloc, call, longest),
        None => Err(ReadError::Shape),
    }
}

/// A transaction, whose texts have at most `longest` bytes, from an object of one member: `set`,
/// `deploy` or `call`.
pub fn tx_in(alloc: Global, json: &Json, longest: u16) -> Result<Tx, ReadError>
    requires { longest ≤ MAX_TEXT_BYTES }
    ensures { ReadsLawful (IsTx longest) result (tx_in longest (view json.now)) }
{
    if member_count(json) != Some(1) {
        return Err(ReadError::Shape);
    }
    tx_by(alloc, json, longest)
}
