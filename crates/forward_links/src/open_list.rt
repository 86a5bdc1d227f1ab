//! What is hashed of a forward list: its number and its digest.

ghost use Rattle.std.specs.Prelude.{◌≡◌, []};
ghost use Rattle.forward_links.specs.Lists.{open_of};

use lc_base::Digest;
use prov_entry::no_uses;

/// What is hashed of a forward list.
#[derive(Clone, Copy)]
pub struct OpenList {
    /// The number of its uses.
    pub count: u64,
    /// The digest of its uses.
    pub digest: Digest,
}

impl OpenList {
    /// That of the empty list.
    pub fn new() -> OpenList
        ensures { result ≡ open_of [] }
    {
        OpenList {
            count: 0,
            digest: no_uses(),
        }
    }
}
