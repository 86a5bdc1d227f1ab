//! Writing blocks as bytes. A block that breaks a limit is not written.

ghost use Rattle.std.specs.{
  Prelude.{◌≡◌, ◌<◌, ◌≤◌, ◌∷◌, ◌++◌, [], List, ℕ, length, if◌then◌else◌, Ok, Err, IfOk, IsErrOf},
  List.{concat, flat_map, AllByRecursion},
};
ghost use Rattle.lc_base.specs.{KeyBytes.{IsKey}, NameBytes.{IsName}};
ghost use Rattle.block_codec.specs.{
  Encoding.{Encodes, may_be_in_block},
  Spelling.{IsSet, IsDeploy, IsCall, IsTx, IsBlock, Spells, text_limit, set_fields, deploy_fields, call_fields, tx_fields, block_fields},
};
ghost use Rattle.byte_fields.specs.Spelling.{string_fields, value_fields, IsBlockValue};

use crate::block::{Block, CALL, DEPLOY, SET, Tx, is_version, text_limit};
use crate::error::EncodeError;
use crate::limits::{MAX_ARGS, MAX_BLOCK_BYTES, MAX_CALL_BUDGET, MAX_SOURCE_BYTES, MAX_TXS};
use byte_fields::{
    put_any_bytes, put_digest, put_key, put_keys, put_name, put_u8, put_u16, put_u32, put_value,
};
use lc_base::{Bytes, Key, KeyList, MAX_DEPS, Name, Seq, Value};
use std::alloc::Global;

fn within_limits(is_within: bool) -> Result<(), EncodeError>
    ensures { result ≡ (if is_within then Ok tt else Err EncodeError.Limit) }
{
    if is_within {
        Ok(())
    } else {
        Err(EncodeError::Limit)
    }
}

/// Whether a block may have the value, if its texts have at most `most` bytes.
fn may_be_in_block(value: &Value, most: u16) -> bool
    ensures { result ≡ may_be_in_block most value.now }
{
    match value {
        Value::Int(_) => true,
        Value::Text(text) => text.as_bytes().len() <= most as usize,
        Value::Gone => false,
    }
}

fn put_block_value(out: &mut Vec<u8>, value: &Value, most: u16) -> Result<(), EncodeError>
    ensures { Encodes (value_fields value.now) (IsBlockValue most value.now)
        out.old.items out.new.items result }
{
    within_limits(may_be_in_block(value, most))?;
    put_value(out, value)?;
    Ok(())
}

fn put_args(out: &mut Vec<u8>, args: &[Value], most: u16) -> Result<(), EncodeError>
    ensures { Encodes (flat_map value_fields args.now)
        (AllByRecursion (IsBlockValue most) args.now) out.old.items out.new.items result }
{
    for value in args {
        put_block_value(out, value, most)?;
    }
    Ok(())
}

fn put_set(
    out: &mut Vec<u8>,
    sender: &Key,
    key: &Key,
    value: &Value,
    deps: &KeyList,
    most: u16,
) -> Result<(), EncodeError>
    ensures { Encodes (set_fields sender.now key.now value.now deps.now)
        (IsSet most sender.now key.now value.now deps.now) out.old.items out.new.items result }
{
    within_limits(deps.len() <= MAX_DEPS)?;
    put_key(out, sender)?;
    put_key(out, key)?;
    put_block_value(out, value, most)?;
    put_u8(out, deps.len() as u8)?;
    put_keys(out, deps.as_slice())?;
    Ok(())
}

fn put_deploy(
    out: &mut Vec<u8>,
    sender: &Key,
    name: &Name,
    source: &Bytes,
) -> Result<(), EncodeError>
    ensures { Encodes (deploy_fields sender.now name.now source.now)
        (IsDeploy sender.now name.now source.now) out.old.items out.new.items result }
{
    within_limits(source.len() <= MAX_SOURCE_BYTES)?;
    put_key(out, sender)?;
    put_name(out, name)?;
    put_any_bytes(out, source)?;
    Ok(())
}

fn put_call(
    out: &mut Vec<u8>,
    sender: &Key,
    contract: &Name,
    function: &Name,
    args: &Seq<Value>,
    budget: u32,
    most: u16,
) -> Result<(), EncodeError>
    ensures { Encodes (call_fields sender.now contract.now function.now args.now budget)
        (IsCall most sender.now contract.now function.now args.now budget)
        out.old.items out.new.items result }
{
    within_limits(args.len() <= MAX_ARGS && budget <= MAX_CALL_BUDGET)?;
    put_key(out, sender)?;
    put_name(out, contract)?;
    put_name(out, function)?;
    put_u8(out, args.len() as u8)?;
    put_args(out, args.as_slice(), most)?;
    put_u32(out, budget)?;
    Ok(())
}

/// Writes a transaction whose texts have at most `most` bytes.
fn put_tx(out: &mut Vec<u8>, tx: &Tx, most: u16) -> Result<(), EncodeError>
    ensures { Encodes (tx_fields tx.now) (IsTx most tx.now) out.old.items out.new.items result }
{
    match tx {
        Tx::Set {
            sender,
            key,
            value,
            deps,
        } => {
            put_u8(out, SET)?;
            put_set(out, sender, key, value, deps, most)
        }
        Tx::Deploy {
            sender,
            name,
            source,
        } => {
            put_u8(out, DEPLOY)?;
            put_deploy(out, sender, name, source)
        }
        Tx::Call {
            sender,
            contract,
            function,
            args,
            budget,
        } => {
            put_u8(out, CALL)?;
            put_call(out, sender, contract, function, args, *budget, most)
        }
    }
}

fn put_txs(out: &mut Vec<u8>, txs: &[Tx], version: u8) -> Result<(), EncodeError>
    ensures { Encodes (flat_map tx_fields txs.now)
        (AllByRecursion (IsTx (text_limit version)) txs.now) out.old.items out.new.items result }
{
    for tx in txs {
        put_tx(out, tx, text_limit(version))?;
    }
    Ok(())
}

fn put_block(out: &mut Vec<u8>, block: &Block) -> Result<(), EncodeError>
    ensures { Encodes (block_fields block.now)
        (IsBlock block.now) out.old.items out.new.items result }
{
    within_limits(is_version(block.version))?;
    within_limits(block.txs.len() <= MAX_TXS as usize)?;
    put_u8(out, block.version)?;
    put_u32(out, block.number)?;
    put_digest(out, &block.parent)?;
    put_u16(out, block.txs.len() as u16)?;
    put_txs(out, block.txs.as_slice(), block.version)
}

/// The bytes that spell the block. `Limit` exactly if no bytes do.
pub fn encode(alloc: Global, block: &Block) -> Result<Bytes, EncodeError>
    ensures spelled { IfOk result (λ bytes. Spells bytes block.now) }
    ensures limit { IsErrOf result EncodeError.Limit → (bytes : List ℕ) → Spells bytes block.now → ⊥ }
{
    let mut out = Vec::new(alloc);
    put_block(&mut out, block)?;
    within_limits(out.len() <= MAX_BLOCK_BYTES)?;
    Ok(Bytes::from_vec(out))
}
