//! Bodies, read in place: a text value and the dependencies stay in the bytes.

ghost use Rattle.std.specs.Prelude.{◌≡◌};
ghost use Rattle.byte_fields.specs.Reader.{value_seen};
ghost use Rattle.entry_views.specs.{Bodies.{body_codec}, Standing.{IsReadAt}};

use crate::body_dep_view::BodyDepView;
use crate::entry_view::EntryView;
use crate::fault::FieldError;
use byte_fields::ValueView;
use std::marker::Model;

/// The fields of a body.
#[derive(Drop)]
pub struct BodyFields<'p> {
    pub(crate) value: ValueView<'p>,
    pub(crate) deps: BodyDepView<'p>,
}

impl<'p> Model for BodyFields<'p> {
    ghost use Rattle.byte_fields.specs.Reader.{value_seen};
    ghost use Rattle.prov_entry.specs.declared.entry.Body.{Body};

    ghost Value = { Body };

    ghost view = { λ fields. record { value = value_seen fields.value; deps = fields.deps } };
}

/// A body in the bytes that it was read from.
pub type BodyView<'p> = EntryView<'p, BodyFields<'p>>;

impl<'p> EntryView<'p, BodyFields<'p>> {
    /// Its value; a text is borrowed from the bytes.
    pub fn value(&self) -> ValueView<'p>
        ensures { value_seen result ≡ self.now.value.value }
    {
        self.fields.value
    }

    /// What it was derived from.
    pub fn deps(&self) -> BodyDepView<'p>
        ensures { result ≡ self.now.value.deps }
    {
        self.fields.deps.again()
    }
}

/// Reads the body at the offset `at` of the bytes, without the byte that comes first when it is
/// hashed. An error exactly if there is none; it says where the first invalid field begins.
pub fn read_body<'p>(bytes: &'p [u8], at: usize) -> Result<BodyView<'p>, FieldError>
    ensures { IsReadAt body_codec bytes.now at result }
{
    EntryView::read_at(bytes, at)
}
