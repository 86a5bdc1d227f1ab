//! Bodies are checked once, when the list is read; afterwards each can be read again from the same
//! bytes.

ghost use Rattle.std.specs.Prelude.{◌≡◌, ◌∷◌, [], length, MatchOption};
ghost use Rattle.byte_fields.specs.{Reader.{fault_left, Reads}, Reading.{items_at}};
ghost use Rattle.entry_views.specs.{Items.{Skips}, Reading.{body_at}};

use byte_fields::{Fault, Reader};
use entry_views::BodyView;
use std::marker::Model;

/// Bodies read in place, the newest first.
#[derive(Drop)]
pub struct BodiesView<'p> {
    count: usize,
    reader: Reader<'p>,
}

impl<'p> Model for BodiesView<'p> {
    ghost use Rattle.std.specs.Prelude.{List};
    ghost use Rattle.prov_entry.specs.declared.entry.Body.{Body as Item};
    ghost use Rattle.byte_fields.specs.Reading.{items_at};
    ghost use Rattle.entry_views.specs.Items.{items_read, AreRead};
    ghost use Rattle.entry_views.specs.Reading.{body_at};

    ghost Value = { List Item };

    ghost view = { λ bodies. items_read (items_at body_at bodies.count bodies.reader) };

    ghost invariant = { λ bodies. AreRead (items_at body_at bodies.count bodies.reader) };
}

impl<'p> BodiesView<'p> {
    /// The number of bodies that are left.
    #[tactic(auto, using(entry_views::proofs::Items::items_counted))]
    pub fn len(&self) -> usize
        ensures { result ≡ length self.now }
    {
        self.count
    }

    /// A second view of the same bodies.
    pub fn again(&self) -> BodiesView<'p>
        ensures { result ≡ self.now }
    {
        BodiesView {
            count: self.count,
            reader: Reader::new(self.reader.rest()),
        }
    }

    /// Removes and returns the first body, or `None` if the list is empty.
    pub fn next(&mut self) -> Option<BodyView<'p>>
        ensures { MatchOption result (self.old ≡ []) (λ body. self.old ≡ body.value ∷ self.new) }
    {
        if self.count == 0 {
            return None;
        }
        match BodyView::read(&mut self.reader) {
            Ok(body) => {
                self.count -= 1;
                Some(body)
            }
            Err(_) => None,
        }
    }
}

fn skip_bodies(reader: &mut Reader, count: usize) -> Result<(), Fault>
    ensures { Skips result (items_at body_at count reader.old) reader.new }
{
    for _ in 0..count {
        BodyView::read(reader)?;
    }
    Ok(())
}

/// Reads `count` bodies, whose number the caller knows.
pub(crate) fn read_bodies<'p>(
    reader: &mut Reader<'p>,
    count: usize,
) -> Result<BodiesView<'p>, Fault>
    ensures { Reads fault_left result (items_at body_at count reader.old) reader.new }
{
    let bodies = Reader::new(reader.rest());
    skip_bodies(reader, count)?;
    Ok(BodiesView {
        count,
        reader: bodies,
    })
}
