//! Running a Set: its key begins `raw/`, and it writes one row unless it meets a conflict.

ghost use Rattle.std.specs.{
  Prelude.{◌≡◌, ◌≤◌, ◌==◌, [], ◌∷◌, length, codes, IfOk},
  List.{starts_with, list_any, filter_map},
};
ghost use Rattle.lc_base.specs.declared.limits.TheConstants.{MAX_DEPS};
ghost use Rattle.contract_eval.specs.contract_semantics.Answers.{place_in};
ghost use Rattle.chain_exec.specs.{
  BlockRows.{AreTxRows},
  Effect.{meets_conflict},
  Running.{dep_in, deps_in, row_in, set_in, run_left, StagesRows, HasEffect},
};
ghost use Rattle.world_state.specs.World.{is_written};

use crate::receipt::Receipt;
use crate::staging::{TxRun, free, stage, without_rows};
use contract_eval::Checked;
use lc_base::{Dep, DepList, Duplicate, Key, Memory, Row, RowList, TxStatus, Value};
use std::alloc::{AllocError, Global};
use world_state::World;

/// The prefix of the keys that a Set may write.
const RAW_PREFIX: [u8; 4] = *b"raw/";

/// The dependency on the newest version of a key; `None` if it has no version.
fn dep_on(world: &World<Checked>, key: &Key) -> Option<Dep>
    ensures { result ≡ dep_in world.now key.now }
{
    match world.value(key) {
        None => None,
        Some((block, _)) => Some(Dep { key: *key, block }),
    }
}

fn all_deps_on(alloc: Global, world: &World<Checked>, keys: &[Key]) -> Result<Vec<Dep>, AllocError>
    ensures { IfOk result (λ deps. deps.items ≡ filter_map (dep_in world.now) keys.now) }
{
    keys.iter()
        .filter_map(|key| dep_on(world, key))
        .collect(alloc)
}

/// The dependencies on the newest versions of the keys, in order, each once.
fn deps_on(alloc: Global, world: &World<Checked>, keys: &[Key]) -> Result<DepList, Memory>
    ensures { IfOk result (λ deps. deps ≡ deps_in world.now keys.now) }
{
    let deps = all_deps_on(alloc, world, keys)?;
    DepList::without_repeats(alloc, deps.as_slice())
}

fn is_any_written(world: &World<Checked>, keys: &[Key]) -> bool
    ensures { result ≡ list_any (is_written world.now) keys.now }
{
    keys.iter().any(|key| world.written(key))
}

/// Whether the block has already written the key or one of the dependency keys.
fn meets_conflict(world: &World<Checked>, key: &Key, deps: &[Key]) -> bool
    ensures { result ≡ meets_conflict (is_written world.now) key.now deps.now }
{
    is_any_written(world, deps) || world.written(key)
}

/// Whether a Set may write the key: only keys that begin `raw/`.
fn is_raw(key: &Key) -> bool
    ensures { result ≡ starts_with ◌==◌ key.now (codes "raw/") }
{
    key.as_bytes().starts_with(&RAW_PREFIX)
}

/// A list of one row: all that a Set writes.
fn one_row(alloc: Global, row: Row) -> Result<RowList, Memory>
    ensures { IfOk result (λ rows. rows ≡ row ∷ []) }
{
    let mut rows = RowList::new(alloc);
    rows.push(row)?;
    Ok(rows)
}

/// Runs a Set at the index `at` of a block, and stages its row. The status is `Foreign` if the key
/// doesn't begin `raw/`, else `Conflict` if the block has written the key or a dependency key.
pub(crate) fn run_set(
    alloc: Global,
    world: &mut World<Checked>,
    number: u32,
    at: u16,
    key: &Key,
    value: &Value,
    deps: &[Key],
) -> Result<TxRun, Memory>
    requires { length deps.now ≤ MAX_DEPS }
    ensures effect { IfOk result (λ run. HasEffect world.old world.new run
        (set_in world.old number at key.now value.now deps.now)) }
    ensures stages { IfOk result (λ run. StagesRows world.old world.new run.rows) }
    ensures lawful { IfOk result (λ run. AreTxRows (place_in world.old) number at run.rows) }
    ensures cost { IfOk result (λ run. run.receipt.cost ≡ 0) }
{
    if !is_raw(key) {
        return Ok(without_rows(alloc, TxStatus::Foreign));
    }
    if meets_conflict(world, key, deps) {
        return Ok(without_rows(alloc, TxStatus::Conflict));
    }
    let row = Row {
        key: *key,
        block: number,
        tx: at,
        value: value.copy(alloc)?,
        deps: deps_on(alloc, world, deps)?,
    };
    let run = TxRun {
        receipt: free(TxStatus::Ok),
        rows: one_row(alloc, row)?,
    };
    stage(world, run)
}
