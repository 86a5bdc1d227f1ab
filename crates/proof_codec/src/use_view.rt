//! Uses are read in place, after their number.

ghost use Rattle.entry_views.specs.byte_fields.Reader.{fault_left, Reads};
ghost use Rattle.proof_codec.specs.Reading.{uses_at};

use entry_views::{Fault, ListView, Reader, read_list};
use lc_base::Dep;

/// What was derived from a version, in the order of the rows.
pub type UseView<'p> = ListView<'p, Dep>;

/// Reads the number of uses in four bytes (big-endian), then the uses.
#[tactic(auto, unfolding(crate::specs::Reading::uses_at))]
pub fn read_uses<'p>(reader: &mut Reader<'p>) -> Result<UseView<'p>, Fault>
    ensures { Reads fault_left result (uses_at reader.old) reader.new }
{
    let count = reader.u32()?;
    read_list(reader, count)
}
