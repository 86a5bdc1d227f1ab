//! Reading blocks from their bytes: a block has one spelling, and nothing else is read as one.

ghost use Rattle.std.specs.Prelude.{◌≡◌, ◌≤◌, Ok, IfOk, IfErr, IfSome, length};
ghost use Rattle.lc_base.specs.{Answers.{Answers}, declared.limits.TheConstants.{MAX_TEXT_BYTES}};
ghost use Rattle.byte_fields.specs.{Reading.{items_at}, Reader.{error_left, Reads}};
ghost use Rattle.block_codec.specs.{
  Spelling.{Spells, IsFaultOffset, IsDecoder},
  Reading.{dep_keys_at, args_at, tx_at, txs_at, versioned_at, block_at, whole_block, block_in},
  Decoding.{fault_offset},
};

use crate::block::{Block, CALL, DEPLOY, SET, Tx, TxList, is_version, text_limit};
use crate::limits::{MAX_ARGS, MAX_BLOCK_BYTES, MAX_CALL_BUDGET, MAX_SOURCE_BYTES, MAX_TXS};
use byte_fields::{Fault, ReadError, Reader};
use lc_base::{Digest, KeyList, MAX_DEPS, Seq, Value};
use std::alloc::Global;

/// Why bytes were not read as a block.
#[derive(Clone, Copy)]
pub enum DecodeError {
    /// They spell no block.
    Malformed {
        /// The offset of the first field that is cut short or breaks its rule, or of the first
        /// trailing byte; at most `MAX_BLOCK_BYTES`.
        at: usize,
    },
    /// Out of memory.
    Memory,
}

#[tactic(auto, unfolding(crate::specs::Reading::dep_keys_at))]
fn dep_keys(alloc: Global, reader: &mut Reader) -> Result<KeyList, ReadError>
    ensures { Reads error_left result (dep_keys_at reader.old) reader.new }
{
    let count = reader.byte_at_most(MAX_DEPS as u8)?;
    reader.keys(alloc, count)
}

#[tactic(auto, unfolding(crate::specs::Reading::args_at))]
fn args(alloc: Global, reader: &mut Reader, most: u16) -> Result<Seq<Value>, ReadError>
    requires { most ≤ MAX_TEXT_BYTES }
    ensures { Reads error_left result (args_at most reader.old) reader.new }
{
    let count = reader.byte_at_most(MAX_ARGS as u8)?;
    reader.values(alloc, count, most)
}

/// A transaction whose texts have at most `most` bytes.
#[tactic(auto, unfolding(crate::specs::Reading::tx_at, crate::specs::Reading::set_at, crate::specs::Reading::deploy_at, crate::specs::Reading::call_at))]
fn tx(alloc: Global, reader: &mut Reader, most: u16) -> Result<Tx, ReadError>
    requires { most ≤ MAX_TEXT_BYTES }
    ensures { Reads error_left result (tx_at most reader.old) reader.new }
{
    let left = reader.remaining();
    match reader.byte()? {
        SET => Ok(Tx::Set {
            sender: reader.key()?,
            key: reader.key()?,
            value: reader.value(alloc, most)?,
            deps: dep_keys(alloc, reader)?,
        }),
        DEPLOY => Ok(Tx::Deploy {
            sender: reader.key()?,
            name: reader.name()?,
            source: reader.any_bytes(alloc, MAX_SOURCE_BYTES as u16)?,
        }),
        CALL => Ok(Tx::Call {
            sender: reader.key()?,
            contract: reader.name()?,
            function: reader.name()?,
            args: args(alloc, reader, most)?,
            budget: reader.u32_at_most(MAX_CALL_BUDGET)?,
        }),
        _ => Err(ReadError::Fault(Fault { left })),
    }
}

fn counted_txs(
    alloc: Global,
    reader: &mut Reader,
    count: u16,
    most: u16,
) -> Result<TxList, ReadError>
    requires { most ≤ MAX_TEXT_BYTES }
    ensures { Reads error_left result (items_at (tx_at most) count reader.old) reader.new }
{
    let mut txs = TxList::new(alloc);
    for _ in 0..count {
        let tx = tx(alloc, reader, most)?;
        txs.push(tx)?;
    }
    Ok(txs)
}

#[tactic(auto, unfolding(crate::specs::Reading::txs_at))]
fn txs(alloc: Global, reader: &mut Reader, most: u16) -> Result<TxList, ReadError>
    requires { most ≤ MAX_TEXT_BYTES }
    ensures { Reads error_left result (txs_at most reader.old) reader.new }
{
    let count = reader.u16_at_most(MAX_TXS)?;
    counted_txs(alloc, reader, count, most)
}

/// Reads what follows the version of a block.
fn versioned(alloc: Global, reader: &mut Reader, version: u8) -> Result<Block, ReadError>
    ensures { Reads error_left result (versioned_at version reader.old) reader.new }
{
    let number = reader.u32()?;
    let parent = Digest(reader.digest_bytes()?);
    let txs = txs(alloc, reader, text_limit(version))?;
    Ok(Block {
        version,
        number,
        parent,
        txs,
    })
}

#[tactic(auto, unfolding(crate::specs::Reading::block_at))]
fn block(alloc: Global, reader: &mut Reader) -> Result<Block, ReadError>
    ensures { Reads error_left result (block_at reader.old) reader.new }
{
    let left = reader.remaining();
    let version = reader.byte()?;
    if !is_version(version) {
        return Err(ReadError::Fault(Fault { left }));
    }
    versioned(alloc, reader, version)
}

#[tactic(auto, unfolding(crate::specs::Reading::whole_block))]
fn whole_block(alloc: Global, bytes: &[u8]) -> Result<Block, ReadError>
    ensures { Answers (λ block. block) error_left result (whole_block bytes.now) }
{
    let mut reader = Reader::new(bytes);
    let block = block(alloc, &mut reader)?;
    let left = reader.remaining();
    if left > 0 {
        return Err(ReadError::Fault(Fault { left }));
    }
    Ok(block)
}

/// The block that these bytes spell; more than `MAX_BLOCK_BYTES` bytes spell none.
#[tactic(auto, unfolding(crate::specs::Reading::block_in))]
fn block_in(alloc: Global, bytes: &[u8]) -> Result<Block, DecodeError>
    ensures { Answers (λ block. block) fault_offset result (block_in bytes.now) }
{
    match whole_block(alloc, bytes) {
        Ok(_) if bytes.len() > MAX_BLOCK_BYTES => Err(DecodeError::Malformed {
            at: MAX_BLOCK_BYTES,
        }),
        Ok(block) => Ok(block),
        Err(ReadError::Fault(fault)) => Err(DecodeError::Malformed {
            at: (bytes.len() - fault.left).min(MAX_BLOCK_BYTES),
        }),
        Err(ReadError::Memory) => Err(DecodeError::Memory),
    }
}

/// The block that these bytes spell. `Malformed` exactly if they spell no block; more than
/// `MAX_BLOCK_BYTES` bytes never do.
pub fn decode(alloc: Global, bytes: &[u8]) -> Result<Block, DecodeError>
    // What is read is spelled so.
    ensures found { IfOk result (Spells bytes.now) }
    // What is spelled so is read, unless memory runs out.
    ensures only { (block : Block) → Spells bytes.now block → Answers (λ block. block) fault_offset result (Ok block) }
    // A fault is reported with its offset.
    ensures offset { IfErr result (λ error. IfSome (fault_offset error) (IsFaultOffset bytes.now)) }
    // `block_in` of the definitions says what bytes spell, and its value is returned.
    ensures decided { IsDecoder block_in }
    ensures exact { Answers (λ block. block) fault_offset result (block_in bytes.now) }
{
    block_in(alloc, bytes)
}
