//! The links of a header, read in place. They have one length, so each is found at once.

ghost use Rattle.std.specs.Prelude.{◌≡◌, slice_get};
ghost use Rattle.byte_fields.specs.Reading.{items_at};
ghost use Rattle.entry_views.specs.{Items.{items_read, AreRead}, Reading.{link_at}};

use crate::fault::tail;
use crate::limits::LINK_BYTES;
use crate::list_view::{ListItem, ListView};
use byte_fields::Reader;
use prov_entry::Link;

/// The links of a header, one for each level from 0, at most `MAX_LINKS`.
pub type LinkView<'p> = ListView<'p, Link>;

impl<'p> ListView<'p, Link> {
    /// The link of a level, from 0; `None` exactly past the end.
    pub fn get(&self, i: usize) -> Option<Link>
        ensures { result ≡ slice_get self.now i }
    {
        link_of(self.count, self.bytes, i)
    }
}

fn link_of(count: u32, bytes: &[u8], i: usize) -> Option<Link>
    requires { AreRead (items_at link_at count bytes.now) }
    ensures { result ≡ slice_get (items_read (items_at link_at count bytes.now)) i }
{
    if i >= count as usize {
        return None;
    }
    let mut reader = Reader::new(tail(bytes, LINK_BYTES * i));
    Link::read(&mut reader).ok()
}
