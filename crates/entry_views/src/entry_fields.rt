//! Reads the fields of headers, bodies and leaves, in the order in which they are spelled.
#![tactic(auto, unfolding(crate::specs::Reading::header_at, crate::specs::Reading::body_at, crate::specs::Reading::next_at, crate::specs::Reading::leaf_at))]

ghost use Rattle.byte_fields.specs.Reader.{fault_left, Reads};
ghost use Rattle.entry_views.specs.{
  Reading.{next_at},
  Headers.{header_codec},
  Bodies.{body_codec},
  Leaves.{leaf_codec},
};

use crate::body_view::BodyFields;
use crate::entry_view::{EntryFields, ReadFields};
use crate::header_view::HeaderFields;
use crate::list_view::read_short_list;
use byte_fields::{Fault, Reader};
use lc_base::{Digest, Key, MAX_DEPS};
use prov_entry::{Leaf, MAX_LINKS};

impl<'p> EntryFields for HeaderFields<'p> {
    ghost codec = { header_codec };
}

impl<'p> ReadFields<'p> for HeaderFields<'p> {
    fn read(reader: &mut Reader<'p>) -> Result<Self, Fault> {
        let key = reader.key()?;
        let block = reader.u32()?;
        let tx = reader.u16()?;
        let body = Digest(reader.digest_bytes()?);
        let closed = reader.u64()?;
        let closed_digest = Digest(reader.digest_bytes()?);
        let links = read_short_list(reader, MAX_LINKS as u8)?;
        Ok(HeaderFields {
            key,
            block,
            tx,
            body,
            closed,
            closed_digest,
            links,
        })
    }
}

impl<'p> EntryFields for BodyFields<'p> {
    ghost codec = { body_codec };
}

impl<'p> ReadFields<'p> for BodyFields<'p> {
    fn read(reader: &mut Reader<'p>) -> Result<Self, Fault> {
        let value = reader.value_view()?;
        let deps = read_short_list(reader, MAX_DEPS as u8)?;
        Ok(BodyFields { value, deps })
    }
}

fn next(reader: &mut Reader) -> Result<Option<Key>, Fault>
    ensures { Reads fault_left result (next_at reader.old) reader.new }
{
    match reader.byte_at_most(1)? {
        0 => Ok(None),
        _ => Ok(Some(reader.key()?)),
    }
}

impl EntryFields for Leaf {
    ghost codec = { leaf_codec };
}

impl<'p> ReadFields<'p> for Leaf {
    fn read(reader: &mut Reader<'p>) -> Result<Self, Fault> {
        let key = reader.key_or_empty()?;
        let next = next(reader)?;
        let newest_block = reader.u32()?;
        let newest = Digest(reader.digest_bytes()?);
        let open_count = reader.u64()?;
        let open_digest = Digest(reader.digest_bytes()?);
        Ok(Leaf {
            key,
            next,
            newest_block,
            newest,
            open_count,
            open_digest,
        })
    }
}
