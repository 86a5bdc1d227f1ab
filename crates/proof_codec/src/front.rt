//! Reads what comes before the leaf proof: the magic bytes and the query.

ghost use Rattle.std.specs.Prelude.{nat_le};
ghost use Rattle.entry_views.specs.{
  byte_fields.Reader.{fault_left, Reads, ReadsAs},
  byte_fields.Reading.{made_at, ruled_at, byte_at},
};
ghost use Rattle.proof_codec.specs.Reading.{kind_of, magic_at, query_at, front_at};

use crate::limits::MAGIC;
use entry_views::{Fault, Reader};
use lc_base::{Kind, Query};

fn kind(reader: &mut Reader) -> Result<Kind, Fault>
    ensures { Reads fault_left result (made_at kind_of (ruled_at (λ n. nat_le n 2) byte_at) reader.old) reader.new }
{
    match reader.byte_at_most(2)? {
        0 => Ok(Kind::Hist),
        1 => Ok(Kind::Back),
        _ => Ok(Kind::Fwd),
    }
}

#[tactic(auto, unfolding(crate::specs::Reading::query_at))]
fn query(reader: &mut Reader) -> Result<Query, Fault>
    ensures { Reads fault_left result (query_at reader.old) reader.new }
{
    let kind = kind(reader)?;
    let key = reader.key()?;
    let at = reader.u32()?;
    Ok(Query { kind, key, at })
}

#[tactic(auto, unfolding(crate::specs::Reading::magic_at))]
fn magic<'p>(reader: &mut Reader<'p>) -> Result<&'p [u8], Fault>
    ensures { ReadsAs (λ bytes. bytes.now) fault_left result (magic_at reader.old) reader.new }
{
    let left = reader.remaining();
    let bytes = reader.bytes(4)?;
    if bytes != MAGIC.as_slice() {
        return Err(Fault { left });
    }
    Ok(bytes)
}

/// Reads the magic bytes, and returns the query after them.
#[tactic(auto, unfolding(crate::specs::Reading::front_at))]
pub(crate) fn front(reader: &mut Reader) -> Result<Query, Fault>
    ensures { Reads fault_left result (front_at reader.old) reader.new }
{
    magic(reader)?;
    query(reader)
}
