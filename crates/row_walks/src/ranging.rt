//! All versions of a key between two blocks.

ghost use Rattle.std.specs.{Prelude.{◌≡◌, IfOk}, Option.{option_map}};
ghost use Rattle.lc_base.specs.{History.{latest}, Parts.{version_in}};
ghost use Rattle.root_laws.specs.Ranges.{as_version, between};
ghost use Rattle.row_walks.specs.Finding.{unless_earlier};

use lc_base::{Answer, Key, Kind, Memory, Query, Version, VersionList};
use plain_rows::PlainRows;
use std::alloc::Global;

/// The version in an answer to a question about a value; `None` if there is none, or if it is of a
/// block before `from`.
fn version_in(answer: Answer, from: u32) -> Option<Version>
    ensures { result ≡ unless_earlier from (version_in answer) }
{
    match answer {
        Answer::Hist { block, tx, value } => {
            if block < from {
                None
            } else {
                Some(Version { block, tx, value })
            }
        }
        Answer::Nothing => None,
        Answer::Back { .. } => None,
        Answer::Fwd { .. } => None,
    }
}

/// The newest version of a key in the blocks up to `at`; `None` if there is none, or if it is of a
/// block before `from`.
fn last(rows: &mut PlainRows, key: &Key, from: u32, at: u32) -> Result<Option<Version>, Memory>
    ensures last { IfOk result (λ found. found
        ≡ unless_earlier from (option_map as_version (latest rows.old key.now at))) }
    ensures unchanged { rows.new ≡ rows.old }
{
    let query = Query {
        kind: Kind::Hist,
        key: *key,
        at,
    };
    let answer = rows.ask(&query)?;
    Ok(version_in(answer, from))
}

/// The versions of a key in the blocks from `from` to `to`, in rising order of their blocks: the
/// last one is looked up, then the last one before its block, and so on. The rows stay.
pub fn range(
    alloc: Global,
    rows: &mut PlainRows,
    key: &Key,
    from: u32,
    to: u32,
) -> Result<VersionList, Memory>
    ensures versions { IfOk result (λ versions. versions ≡ between rows.old key.now from to) }
    ensures unchanged { rows.new ≡ rows.old }
{
    // By this call contracts know that the rows are a lawful history.
    let _count = rows.len();
    let mut found = Vec::new(alloc);
    let mut up_to = Some(to);
    while let Some(at) = up_to {
        let Some(version) = last(rows, key, from, at)? else {
            break;
        };
        up_to = version.block.checked_sub(1);
        found.push(version)?;
    }
    found.reverse();
    Ok(VersionList::from_vec(found))
}
