//! An audit path is read in place, after a byte that must be the length that the leaf's index
//! implies.

ghost use Rattle.entry_views.specs.byte_fields.Reader.{fault_left, Reads};
ghost use Rattle.proof_codec.specs.Reading.{audit_at};

use entry_views::{Fault, ListView, Reader, read_list};
use lc_base::Digest;

/// The digests of an audit path, from the leaf upward.
pub type AuditView<'p> = ListView<'p, Digest>;

/// Reads a byte that must be `count`, then `count` digests of 32 bytes each.
#[tactic(auto, unfolding(crate::specs::Reading::audit_at))]
pub fn read_audit<'p>(reader: &mut Reader<'p>, count: u8) -> Result<AuditView<'p>, Fault>
    ensures { Reads fault_left result (audit_at count reader.old) reader.new }
{
    let count = reader.byte_that_is(count)?;
    read_list(reader, count as u32)
}
