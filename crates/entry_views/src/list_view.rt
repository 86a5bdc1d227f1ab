//! Lists that are read in place: all items were read and checked once, so that none is invalid when
//! it is taken.

ghost use Rattle.std.specs.Prelude.{◌≡◌, ◌==◌, ◌∷◌, [], ℕ, List, length, slice_get, MatchOption};
ghost use Rattle.byte_fields.specs.{Reader.{fault_left, Reads}, Reading.{Field, items_at}};
ghost use Rattle.entry_views.specs.{Items.{Skips}, Reading.{short_list_at}};

use byte_fields::{Fault, Reader};
use std::marker::{Model, PhantomData};

/// An item of a list.
pub trait ListItem: Drop {
    /// The result of reading bytes as an item.
    ghost item_at: { List ℕ → Field Self };

    /// Reads an item, and leaves the reader after it.
    fn read(reader: &mut Reader) -> Result<Self, Fault>
        ensures { Reads fault_left result (item_at reader.old) reader.new };
}

/// The items of a list, in the bytes that they were read from.
#[derive(Drop)]
pub struct ListView<'p, T: ListItem> {
    pub(crate) count: u32,
    pub(crate) bytes: &'p [u8],
    of: PhantomData<T>,
}

impl<'p, T: ListItem> Model for ListView<'p, T> {
    ghost use Rattle.std.specs.Prelude.{List as Items};
    ghost use Rattle.byte_fields.specs.Reading.{items_at};
    ghost use Rattle.entry_views.specs.Items.{items_read, AreRead};

    ghost Value = { Items T };

    ghost view = { λ list. items_read (items_at T.item_at list.count list.bytes.now) };

    ghost invariant = { λ list. AreRead (items_at T.item_at list.count list.bytes.now) };
}

impl<'p, T: ListItem> ListView<'p, T> {
    /// The number of items.
    #[tactic(auto, using(crate::proofs::Items::items_counted))]
    pub fn len(&self) -> usize
        ensures { result ≡ length self.now }
    {
        self.count as usize
    }

    /// Whether there are no items.
    #[tactic(auto, using(crate::proofs::Items::items_counted))]
    pub fn is_empty(&self) -> bool
        ensures { result ≡ (length self.now == 0) }
    {
        self.count == 0
    }

    /// The same items again.
    pub fn again(&self) -> ListView<'p, T>
        ensures { result ≡ self.now }
    {
        ListView {
            count: self.count,
            bytes: self.bytes,
            of: PhantomData,
        }
    }

    /// Takes the first item away and returns it; `None` exactly if there is none.
    pub fn next(&mut self) -> Option<T>
        ensures { MatchOption result (self.old ≡ []) (λ item. self.old ≡ item ∷ self.new) }
    {
        if self.count == 0 {
            return None;
        }
        let mut reader = Reader::new(self.bytes);
        match T::read(&mut reader) {
            Ok(item) => {
                self.count -= 1;
                self.bytes = reader.rest();
                Some(item)
            }
            Err(_) => None,
        }
    }

    /// The item at an index, from 0; `None` exactly past the end. All before it are read.
    pub(crate) fn item(&self, i: usize) -> Option<T>
        ensures { result ≡ slice_get self.now i }
    {
        let mut rest = self.again();
        for _ in 0..i {
            match rest.next() {
                None => return None,
                Some(_) => {}
            }
        }
        rest.next()
    }
}

fn skip_items<T: ListItem>(reader: &mut Reader, count: u32) -> Result<(), Fault>
    ensures { Skips result (items_at T.item_at count reader.old) reader.new }
{
    for _ in 0..count {
        T::read(reader)?;
    }
    Ok(())
}

/// Reads `count` items, and leaves the reader after them.
pub fn read_list<'p, T: ListItem>(
    reader: &mut Reader<'p>,
    count: u32,
) -> Result<ListView<'p, T>, Fault>
    ensures { Reads fault_left result (items_at T.item_at count reader.old) reader.new }
{
    let bytes = reader.rest();
    skip_items::<T>(reader, count)?;
    Ok(ListView {
        count,
        bytes,
        of: PhantomData,
    })
}

/// Reads at most `most` items, which follow a byte with their number, and leaves the reader after
/// them.
#[tactic(auto, unfolding(crate::specs::Reading::short_list_at))]
pub(crate) fn read_short_list<'p, T: ListItem>(
    reader: &mut Reader<'p>,
    most: u8,
) -> Result<ListView<'p, T>, Fault>
    ensures { Reads fault_left result (short_list_at most T.item_at reader.old) reader.new }
{
    let count = reader.byte_at_most(most)?;
    read_list(reader, count as u32)
}
