//! What a world holds of the newest version of a key: its block, and a copy of its value.

ghost use Rattle.std.specs.Prelude.{◌≡◌, map, IfOk};
ghost use Rattle.world_state.specs.Rows.{held_of, entry_of};

use lc_base::{Duplicate, Key, Memory, Row, Value};
use std::alloc::Global;

/// The newest version of a key: its block and its value.
#[derive(Drop)]
pub struct Held {
    /// The number of its block.
    pub block: u32,
    pub value: Value,
}

fn held_of(alloc: Global, row: &Row) -> Result<Held, Memory>
    ensures { IfOk result (λ held. held ≡ held_of row.now) }
{
    Ok(Held {
        block: row.block,
        value: row.value.copy(alloc)?,
    })
}

/// The keys of the rows, each with what is held of its version.
pub(crate) fn entries_of(alloc: Global, rows: &[Row]) -> Result<Vec<(Key, Held)>, Memory>
    ensures { IfOk result (λ entries. entries.items ≡ map entry_of rows.now) }
{
    let mut entries = Vec::with_capacity(alloc, rows.len())?;
    for row in rows {
        entries.push((row.key, held_of(alloc, row)?))?;
    }
    Ok(entries)
}
