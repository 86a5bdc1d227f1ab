//! The parts of answers that no body is read for.

ghost use Rattle.std.specs.Prelude.{◌≡◌, ◌<◌, ◌^◌, IfSome};
ghost use Rattle.lc_base.specs.{History.{scan}, Parts.{question, count_in, item_in}};

use lc_base::{Dep, Key, Kind};
use merkle_dag::{Counter, Lineage, Steps};

/// The number of versions that were derived from the newest version of the key in the blocks up to
/// `at`; `None` if there is no such version.
pub(crate) fn fwd_count<C: Counter>(
    lineage: &Lineage,
    key: &Key,
    at: u32,
    steps: &mut Steps<C>,
) -> Option<u64>
    ensures count { result ≡ count_in (scan lineage.now.rows (question Kind.Fwd key.now at)) }
    ensures bound { IfSome result (λ count. count < 2 ^ 63) }
{
    // By this call contracts know that the rows are few.
    let _count = lineage.row_count();
    match lineage.latest_row(key, at, steps) {
        None => None,
        Some(row) => Some(lineage.use_count(row)),
    }
}

/// The version at an index, from 0, of those that `fwd_count` counts.
pub(crate) fn fwd_at<C: Counter>(
    lineage: &Lineage,
    key: &Key,
    at: u32,
    index: u64,
    steps: &mut Steps<C>,
) -> Option<Dep>
    ensures { result ≡ item_in index (scan lineage.now.rows (question Kind.Fwd key.now at)) }
{
    match lineage.latest_row(key, at, steps) {
        None => None,
        Some(row) => lineage.use_at(row, index),
    }
}
