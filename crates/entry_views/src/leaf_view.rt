//! Leaves that are read from bytes; their fields are copied.

ghost use Rattle.std.specs.Prelude.{◌≡◌};
ghost use Rattle.entry_views.specs.{Leaves.{leaf_codec}, Standing.{IsReadAt}};

use crate::entry_view::EntryView;
use crate::fault::FieldError;
use lc_base::{Digest, Key};
use prov_entry::Leaf;

/// A leaf with the bytes that it was read from.
pub type LeafView<'p> = EntryView<'p, Leaf>;

impl<'p> EntryView<'p, Leaf> {
    /// Its key; `None` exactly of the leaf before all keys.
    pub fn key(&self) -> Option<Key>
        ensures { result ≡ self.now.value.key }
    {
        self.fields.key
    }

    /// The next greater key that has a leaf; `None` exactly of the last leaf in the order of keys.
    pub fn next(&self) -> Option<Key>
        ensures { result ≡ self.now.value.next }
    {
        self.fields.next
    }

    /// The block of the newest version of the key.
    pub fn newest_block(&self) -> u32
        ensures { result ≡ self.now.value.newest_block }
    {
        self.fields.newest_block
    }

    /// The digest of the header of the newest version.
    pub fn newest(&self) -> Digest
        ensures { result ≡ self.now.value.newest }
    {
        self.fields.newest
    }

    /// How many versions were derived from the newest version.
    pub fn open_count(&self) -> u64
        ensures { result ≡ self.now.value.open_count }
    {
        self.fields.open_count
    }

    /// The digest of these, as a forward list.
    pub fn open_digest(&self) -> Digest
        ensures { result ≡ self.now.value.open_digest }
    {
        self.fields.open_digest
    }
}

/// Reads the leaf at the offset `at` of the bytes, without the byte that comes first when it is
/// hashed. An error exactly if there is none; it says where the first invalid field begins.
pub fn read_leaf<'p>(bytes: &'p [u8], at: usize) -> Result<LeafView<'p>, FieldError>
    ensures { IsReadAt leaf_codec bytes.now at result }
{
    EntryView::read_at(bytes, at)
}
