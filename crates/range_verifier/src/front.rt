//! Reads what comes before the leaf proof: the magic bytes and the query.

ghost use Rattle.byte_fields.specs.Reader.{fault_left, Reads, ReadsAs};
ghost use Rattle.range_verifier.specs.Reading.{magic_at, blocks_at, query_at, front_at};

use byte_fields::{Fault, Reader};
use lc_base::Key;
use proof_verifier::RANGE_MAGIC;

/// The key and the blocks that a range proof is of.
#[derive(Clone, Copy)]
pub(crate) struct RangeQuery {
    pub(crate) key: Key,
    /// The first block.
    pub(crate) from: u32,
    /// The last block, at least the first one.
    pub(crate) to: u32,
}

#[tactic(auto, unfolding(crate::specs::Reading::magic_at))]
fn magic<'p>(reader: &mut Reader<'p>) -> Result<&'p [u8], Fault>
    ensures { ReadsAs (λ bytes. bytes.now) fault_left result (magic_at reader.old) reader.new }
{
    let left = reader.remaining();
    let bytes = reader.bytes(4)?;
    if bytes != RANGE_MAGIC.as_slice() {
        return Err(Fault { left });
    }
    Ok(bytes)
}

#[tactic(auto, unfolding(crate::specs::Reading::blocks_at))]
fn blocks(reader: &mut Reader) -> Result<(u32, u32), Fault>
    ensures { Reads fault_left result (blocks_at reader.old) reader.new }
{
    let from = reader.u32()?;
    let to = reader.u32_at_least(from)?;
    Ok((from, to))
}

#[tactic(auto, unfolding(crate::specs::Reading::query_at))]
fn query(reader: &mut Reader) -> Result<RangeQuery, Fault>
    ensures { Reads fault_left result (query_at reader.old) reader.new }
{
    let key = reader.key()?;
    let (from, to) = blocks(reader)?;
    Ok(RangeQuery { key, from, to })
}

/// Reads the magic bytes, and returns the query after them.
#[tactic(auto, unfolding(crate::specs::Reading::front_at))]
pub(crate) fn front(reader: &mut Reader) -> Result<RangeQuery, Fault>
    ensures { Reads fault_left result (front_at reader.old) reader.new }
{
    magic(reader)?;
    query(reader)
}
