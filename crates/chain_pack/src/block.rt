//! Reading blocks from JSON and spelling them.

ghost use Rattle.std.specs.{Prelude.{◌≡◌, ◌≤◌, true, map, length, IfOk}, List.{AllByRecursion}};
ghost use Rattle.serde_json.specs.View.{view};
ghost use Rattle.lc_base.specs.Answers.{Answers};
ghost use Rattle.block_codec.specs.{
  Spelling.{is_version, text_limit, IsTx, IsBlock, Spells},
  declared.limits.TheConstants.{MAX_TXS},
};
ghost use Rattle.chain_pack.specs.{
  Transactions.{each, tx_in},
  Draft.{pack_fault, at_block, txs_in, text_of, text_in, IsBlockText},
};

use crate::error::PackError;
use crate::fields::items_in;
use crate::read_error::ReadError;
use crate::transaction::tx_in;
use block_codec::{
    Block, EncodeError, MAX_BLOCK_BUDGET, MAX_TXS, TxList, block_budget, encode, text_limit,
};
use lc_base::{Bytes, Digest, Memory};
use serde_json::Value as Json;
use std::alloc::Global;

fn txs_at(alloc: Global, version: u8, block: u32, items: &[Json]) -> Result<TxList, PackError>
    requires { length items.now ≤ MAX_TXS }
    ensures read { Answers (λ txs. txs) pack_fault result
        (at_block block (each (tx_in (text_limit version)) 0 (map view items.now))) }
    ensures few { IfOk result (λ txs. length txs ≤ MAX_TXS) }
    ensures lawful { IfOk result (AllByRecursion (IsTx (text_limit version))) }
{
    let mut txs = TxList::new(alloc);
    for item in items {
        match tx_in(alloc, item, text_limit(version)) {
            Ok(tx) => txs.push(tx)?,
            Err(ReadError::Shape) => {
                return Err(PackError::Shape {
                    block,
                    tx: txs.len() as u32,
                });
            }
            Err(ReadError::Memory) => return Err(PackError::Memory),
        }
    }
    Ok(txs)
}

fn txs_in(alloc: Global, version: u8, block: u32, json: &Json) -> Result<TxList, PackError>
    ensures read { Answers (λ txs. txs) pack_fault result (txs_in version block (view json.now)) }
    ensures few { IfOk result (λ txs. length txs ≤ MAX_TXS) }
    ensures lawful { IfOk result (AllByRecursion (IsTx (text_limit version))) }
{
    match items_in(json) {
        Some(items) if items.len() <= MAX_TXS as usize => txs_at(alloc, version, block, items),
        _ => Err(PackError::BlockLimit { block }),
    }
}

/// The same bytes, without spare capacity.
fn without_spare(alloc: Global, text: &Bytes) -> Result<Bytes, Memory>
    ensures { IfOk result (λ bytes. bytes ≡ text.now) }
{
    Ok(Bytes::from_vec(Vec::from_slice(alloc, text.as_bytes())?))
}

#[tactic(auto, using(crate::proofs::DraftLimits::is_long))]
fn text_of(alloc: Global, block: &Block) -> Result<Bytes, PackError>
    requires { IsBlock block.now }
    ensures text { Answers (λ text. text) pack_fault result (text_of block.now) }
    ensures spelled { IfOk result (λ text. Spells text block.now) }
{
    if block_budget(block) > MAX_BLOCK_BUDGET {
        return Err(PackError::BlockLimit {
            block: block.number,
        });
    }
    match encode(alloc, block) {
        Ok(text) => Ok(without_spare(alloc, &text)?),
        Err(EncodeError::Limit) => Err(PackError::BlockLimit {
            block: block.number,
        }),
        Err(EncodeError::Memory) => Err(PackError::Memory),
    }
}

/// The text of the block of this version, number and parent.
pub fn text_in(
    alloc: Global,
    version: u8,
    number: u32,
    parent: Digest,
    json: &Json,
) -> Result<Bytes, PackError>
    requires { is_version version ≡ true }
    ensures text { Answers (λ text. text) pack_fault result
        (text_in version number parent (view json.now)) }
    ensures spelled { IfOk result IsBlockText }
{
    let txs = txs_in(alloc, version, number, json)?;
    text_of(
        alloc,
        &Block {
            version,
            number,
            parent,
            txs,
        },
    )
}
