//! Drawing transactions: the first block deploys a contract, and each later one calls it and writes
//! values.

ghost use Rattle.std.specs.Prelude.{◌≡◌, ◌++◌, IfOk};
ghost use Rattle.chain_pack.specs.{
  Draws.{key_drawn, draw_list},
  GeneratedTransactions.{
    sender,
    contract,
    function,
    source,
    deploy,
    call_with,
    set_drawn,
    later_txs,
    txs_drawn,
  },
  declared.limits.TheConstants.{SETS},
};

use crate::draws::Draws;
use crate::limits::{ARGS, BUDGET, DEP_COUNTS, SETS, VALUES};
use block_codec::{Tx, TxList};
use lc_base::{Bytes, Key, KeyList, Memory, Name, Value, ValueList};
use std::alloc::Global;

/// The source of the contract that each chain deploys first.
const SOURCE: &[u8] =
    b"fn step(a: int) { let k = \"raw/\" ++ text(a); if has(k) { put \"mix/\" ++ text(a) = hist_block(k, block() - 1); } }";

fn sender() -> Key
    ensures { result ≡ sender }
{
    match Key::new(b"gen") {
        Ok(key) => key,
        Err(_) => unreachable!(),
    }
}

fn contract() -> Name
    ensures { result ≡ contract }
{
    match Name::new(b"mix") {
        Ok(name) => name,
        Err(_) => unreachable!(),
    }
}

fn function() -> Name
    ensures { result ≡ function }
{
    match Name::new(b"step") {
        Ok(name) => name,
        Err(_) => unreachable!(),
    }
}

fn deploy(alloc: Global) -> Result<Tx, Memory>
    ensures { IfOk result (λ tx. tx ≡ deploy) }
{
    let source = Bytes::from_vec(Vec::from_slice(alloc, SOURCE)?);
    Ok(Tx::Deploy {
        sender: sender(),
        name: contract(),
        source,
    })
}

fn call_with(alloc: Global, argument: u32) -> Result<Tx, Memory>
    ensures { IfOk result (λ tx. tx ≡ call_with argument) }
{
    let mut args = ValueList::new(alloc);
    args.push(Value::Int(i64::from(argument)))?;
    Ok(Tx::Call {
        sender: sender(),
        contract: contract(),
        function: function(),
        args,
        budget: BUDGET,
    })
}

fn keys(alloc: Global, draws: &mut Draws, count: u32) -> Result<KeyList, Memory>
    ensures keys { IfOk result (λ keys. keys ≡ (draw_list key_drawn count draws.old).0) }
    ensures state { IfOk result (λ keys. draws.new ≡ (draw_list key_drawn count draws.old).1) }
{
    let mut keys = KeyList::new(alloc);
    for _ in 0..count {
        keys.push(draws.key())?;
    }
    Ok(keys)
}

#[tactic(auto, unfolding(crate::specs::GeneratedTransactions::set_drawn))]
fn set(alloc: Global, draws: &mut Draws) -> Result<Tx, Memory>
    ensures tx { IfOk result (λ tx. tx ≡ (set_drawn draws.old).0) }
    ensures state { IfOk result (λ tx. draws.new ≡ (set_drawn draws.old).1) }
{
    let key = draws.key();
    let value = draws.number_below(VALUES);
    let count = draws.number_below(DEP_COUNTS);
    let deps = keys(alloc, draws, count)?;
    Ok(Tx::Set {
        sender: sender(),
        key,
        value: Value::Int(i64::from(value)),
        deps,
    })
}

fn push_sets(alloc: Global, draws: &mut Draws, txs: &mut TxList) -> Result<(), Memory>
    ensures txs { IfOk result (λ done. txs.new ≡ txs.old ++ (draw_list set_drawn SETS draws.old).0) }
    ensures state { IfOk result (λ done. draws.new ≡ (draw_list set_drawn SETS draws.old).1) }
{
    for _ in 0..SETS {
        txs.push(set(alloc, draws)?)?;
    }
    Ok(())
}

#[tactic(auto, unfolding(crate::specs::GeneratedTransactions::later_txs))]
fn later_txs(alloc: Global, draws: &mut Draws) -> Result<TxList, Memory>
    ensures txs { IfOk result (λ txs. txs ≡ (later_txs draws.old).0) }
    ensures state { IfOk result (λ txs. draws.new ≡ (later_txs draws.old).1) }
{
    let argument = draws.number_below(ARGS);
    let mut txs = TxList::new(alloc);
    txs.push(call_with(alloc, argument)?)?;
    push_sets(alloc, draws, &mut txs)?;
    Ok(txs)
}

/// Draws the transactions of the block with this number.
#[tactic(auto, unfolding(crate::specs::GeneratedTransactions::txs_drawn))]
pub fn txs_drawn(alloc: Global, draws: &mut Draws, number: u32) -> Result<TxList, Memory>
    ensures txs { IfOk result (λ txs. txs ≡ (txs_drawn number draws.old).0) }
    ensures state { IfOk result (λ txs. draws.new ≡ (txs_drawn number draws.old).1) }
{
    if number > 0 {
        return later_txs(alloc, draws);
    }
    let mut txs = TxList::new(alloc);
    txs.push(deploy(alloc)?)?;
    Ok(txs)
}
