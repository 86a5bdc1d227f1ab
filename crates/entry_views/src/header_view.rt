//! Headers, read in place: keys and digests are copied, and the links stay in the bytes.

ghost use Rattle.std.specs.Prelude.{◌≡◌};
ghost use Rattle.entry_views.specs.{Headers.{header_codec}, Standing.{IsReadAt}};

use crate::entry_view::EntryView;
use crate::fault::FieldError;
use crate::link_view::LinkView;
use lc_base::{Digest, Key};
use std::marker::Model;

/// The fields of a header.
#[derive(Drop)]
pub struct HeaderFields<'p> {
    /// The key of the version.
    pub key: Key,
    /// The number of its block.
    pub block: u32,
    /// The index of its transaction in the block, from 0.
    pub tx: u16,
    /// The digest of its body.
    pub body: Digest,
    /// How many versions were derived from the version of the key before this one, up to the end of
    /// this block; 0 for a first version.
    pub closed: u64,
    /// The digest of these, as a forward list.
    pub closed_digest: Digest,
    /// Its links, one for each level from 0.
    pub links: LinkView<'p>,
}

impl<'p> Model for HeaderFields<'p> {
    ghost use Rattle.prov_entry.specs.declared.entry.Header.{Header};

    ghost Value = { Header };

    ghost view = { λ fields. record { key = fields.key; block = fields.block; tx = fields.tx; body = fields.body; closed = fields.closed; closed_digest = fields.closed_digest; links = fields.links } };
}

/// A header in the bytes that it was read from.
pub type HeaderView<'p> = EntryView<'p, HeaderFields<'p>>;

impl<'p> EntryView<'p, HeaderFields<'p>> {
    /// The key of the version.
    pub fn key(&self) -> Key
        ensures { result ≡ self.now.value.key }
    {
        self.fields.key
    }

    /// The number of its block.
    pub fn block(&self) -> u32
        ensures { result ≡ self.now.value.block }
    {
        self.fields.block
    }

    /// The index of its transaction in the block, from 0.
    pub fn tx(&self) -> u16
        ensures { result ≡ self.now.value.tx }
    {
        self.fields.tx
    }

    /// The digest of its body.
    pub fn body(&self) -> Digest
        ensures { result ≡ self.now.value.body }
    {
        self.fields.body
    }

    /// How many versions were derived from the version before it, up to the end of its block.
    pub fn closed(&self) -> u64
        ensures { result ≡ self.now.value.closed }
    {
        self.fields.closed
    }

    /// The digest of these, as a forward list.
    pub fn closed_digest(&self) -> Digest
        ensures { result ≡ self.now.value.closed_digest }
    {
        self.fields.closed_digest
    }

    /// Its links, one for each level from 0.
    pub fn links(&self) -> LinkView<'p>
        ensures { result ≡ self.now.value.links }
    {
        self.fields.links.again()
    }
}

/// Reads the header at the offset `at` of the bytes, without the byte that comes first when it is
/// hashed. An error exactly if there is none; it says where the first invalid field begins.
pub fn read_header<'p>(bytes: &'p [u8], at: usize) -> Result<HeaderView<'p>, FieldError>
    ensures { IsReadAt header_codec bytes.now at result }
{
    EntryView::read_at(bytes, at)
}
