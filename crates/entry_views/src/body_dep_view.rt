//! The dependencies of a body, read in place. Their lengths differ, so one is found by reading
//! those before it.

ghost use Rattle.std.specs.Prelude.{◌≡◌, slice_get};

use crate::list_view::ListView;
use prov_entry::BodyDep;

/// The dependencies of a body, at most `MAX_DEPS`.
pub type BodyDepView<'p> = ListView<'p, BodyDep>;

impl<'p> ListView<'p, BodyDep> {
    /// The dependency at an index, from 0; `None` exactly past the end. All before it are read.
    pub fn get(&self, i: usize) -> Option<BodyDep>
        ensures { result ≡ slice_get self.now i }
    {
        self.item(i)
    }
}
