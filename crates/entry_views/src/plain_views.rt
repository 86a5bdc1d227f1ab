//! Lists of digests and of uses, read in place; one of their items is found by reading those before
//! it.

ghost use Rattle.std.specs.Prelude.{◌≡◌, slice_get};

use crate::list_view::ListView;
use lc_base::{Dep, Digest};

impl<'p> ListView<'p, Digest> {
    /// The digest at an index, from 0; `None` exactly past the end. All before it are read.
    pub fn get(&self, i: usize) -> Option<Digest>
        ensures { result ≡ slice_get self.now i }
    {
        self.item(i)
    }
}

impl<'p> ListView<'p, Dep> {
    /// The use at an index, from 0; `None` exactly past the end. All before it are read.
    pub fn get(&self, i: usize) -> Option<Dep>
        ensures { result ≡ slice_get self.now i }
    {
        self.item(i)
    }
}
