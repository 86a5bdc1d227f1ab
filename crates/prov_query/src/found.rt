//! Finds a version of a key, and reads its body from the device.

ghost use Rattle.std.specs.Prelude.{◌≡◌, ◌<◌, true, length, slice_get, Some, IfOk, IsErrOf};
ghost use Rattle.lc_base.specs.{History.{latest}, declared.row.Row.{Row}};
ghost use Rattle.lc_io.specs.Scratch.{is_known};
ghost use Rattle.merkle_dag.specs.Lineage.{AgreesWith, LeavesLineage};

use lc_base::{HostError, Key};
use lc_io::Scratch;
use merkle_dag::{Counter, EntryId, Lineage, Steps};
use std::rc::RcSlice;

/// A version: the number of its block, the index of its transaction there, and the bytes of its
/// body.
#[derive(Drop)]
pub(crate) struct Found {
    pub block: u32,
    pub tx: u16,
    pub body: RcSlice<u8>,
}

impl Found {
    ghost use Rattle.prov_query.specs.Found.{IsRow, IsFound, StandsAs, StandsAsIfAny};

    /// The version of the row at an index.
    pub(crate) fn at<S: Scratch>(
        lineage: &mut Lineage,
        scratch: &mut S,
        index: u32,
    ) -> Result<Found, HostError>
        requires within { index < length lineage.old.rows }
        requires agrees { AgreesWith lineage.old (S.state scratch.old) }
        ensures found { (row : Row) → slice_get lineage.old.rows index ≡ Some row
            → is_known (S.state scratch.old) ≡ true → IfOk result (IsRow row) }
        ensures always { (row : Row) → slice_get lineage.old.rows index ≡ Some row
            → IfOk result (StandsAs row) }
        ensures leaves { LeavesLineage S.state S.scratch_faults lineage.old scratch.old lineage.new
            scratch.new (IsErrOf result HostError.Fault) }
    {
        // By this call contracts know that the rows are within their types, so their bodies can be
        // spelled.
        let _count = lineage.row_count();
        let facts = lineage.row_facts(index);
        let (block, tx) = (facts.block, facts.tx);
        match lineage.body_of(scratch, EntryId(index)) {
            Ok(body) => Ok(Found { block, tx, body }),
            Err(error) => Err(error),
        }
    }

    /// The newest version of a key in the blocks up to `at`; `None` if there is none.
    pub(crate) fn latest<C: Counter, S: Scratch>(
        lineage: &mut Lineage,
        scratch: &mut S,
        key: &Key,
        at: u32,
        steps: &mut Steps<C>,
    ) -> Result<Option<Found>, HostError>
        requires agrees { AgreesWith lineage.old (S.state scratch.old) }
        ensures found { is_known (S.state scratch.old) ≡ true
            → IfOk result (IsFound (latest lineage.old.rows key.now at)) }
        ensures always { IfOk result (StandsAsIfAny (latest lineage.old.rows key.now at)) }
        ensures leaves { LeavesLineage S.state S.scratch_faults lineage.old scratch.old lineage.new
            scratch.new (IsErrOf result HostError.Fault) }
    {
        match lineage.latest_row(key, at, steps) {
            None => Ok(None),
            Some(index) => match Found::at(lineage, scratch, index) {
                Ok(found) => Ok(Some(found)),
                Err(error) => Err(error),
            },
        }
    }
}
