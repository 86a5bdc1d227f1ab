//! Answers by scanning all rows, as the definition of an answer does.

use lc_base::{Answer, Dep, DepList, Duplicate, Key, Kind, Memory, Query, Row};
use std::alloc::Global;

/// The last row of the key that is of a block up to `at`.
fn latest<'a>(rows: &'a [Row], key: &Key, at: u32) -> Option<&'a Row> {
    let mut found = None;
    for row in rows {
        if row.key == *key && row.block <= at {
            found = Some(row);
        }
    }
    found
}

fn depends_on(row: &Row, version: &Row) -> bool {
    for dep in row.deps.as_slice() {
        if dep.key == version.key && dep.block == version.block {
            return true;
        }
    }
    false
}

/// The versions that depend on this one, in the order of their rows.
fn uses(alloc: Global, rows: &[Row], version: &Row) -> Result<DepList, Memory> {
    let mut uses = DepList::new(alloc);
    for row in rows {
        if depends_on(row, version) {
            uses.push(Dep {
                key: row.key,
                block: row.block,
            })?;
        }
    }
    Ok(uses)
}

/// The answer to a question over these rows.
pub fn scan(alloc: Global, rows: &[Row], query: &Query) -> Result<Answer, Memory> {
    let Some(row) = latest(rows, &query.key, query.at) else {
        return Ok(Answer::Nothing);
    };
    let block = row.block;
    match query.kind {
        Kind::Hist => Ok(Answer::Hist {
            block,
            tx: row.tx,
            value: row.value.copy(alloc)?,
        }),
        Kind::Back => Ok(Answer::Back {
            block,
            deps: row.deps.copy()?,
        }),
        Kind::Fwd => Ok(Answer::Fwd {
            block,
            uses: uses(alloc, rows, row)?,
        }),
    }
}
