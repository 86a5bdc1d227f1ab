//! Finds the first clash: one pass over the second list makes a table, and one over the first looks
//! each text up in it.

ghost use Rattle.std.specs.Prelude.{IfOk};
ghost use Rattle.text_clashes.specs.{FirstClash.{IsFirstClash}, Places.{IsTable}};

use crate::table::{Table, first_other, table_of};
use lc_base::{Bytes, Memory, TextList};
use std::alloc::Global;

/// The first clash, by a table of the second list.
fn clash_by(table: &Table, given: &[Bytes], own: &[Bytes]) -> Option<(usize, usize)>
    requires { IsTable own.now table.now }
    ensures { IsFirstClash given.now own.now result }
{
    for place in 0..given.len() {
        match first_other(table, own, given[place].as_slice()) {
            Some(other) => return Some((place, other)),
            None => {}
        }
    }
    None
}

/// The places of the first clash: of a text of each list that differ and have one SHA-256 digest,
/// with the least place in the first list, and then in the second; `None` exactly if no two do.
/// Places count from 0. It looks up the digest of each text once or twice, and goes over no pairs.
pub fn first_clash(
    alloc: Global,
    given: &TextList,
    own: &TextList,
) -> Result<Option<(usize, usize)>, Memory>
    ensures { IfOk result (IsFirstClash given.now own.now) }
{
    let table = table_of(alloc, own.as_slice())?;
    Ok(clash_by(&table, given.as_slice(), own.as_slice()))
}
