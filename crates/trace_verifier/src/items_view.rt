//! Items are checked once, when their list is read; afterwards each can be read again from the same
//! bytes.

ghost use Rattle.std.specs.Prelude.{◌≡◌, ◌∷◌, [], length, MatchOption};
ghost use Rattle.byte_fields.specs.{Reader.{fault_left, Reads}, Reading.{items_at}};
ghost use Rattle.entry_views.specs.Items.{Skips};
ghost use Rattle.trace_verifier.specs.Reading.{item_at, counted_items_at};

use crate::item_view::{ItemView, read_item};
use byte_fields::{Fault, Reader};
use lc_base::MAX_ROWS;
use std::marker::Model;

/// Ancestors read in place, the last one first.
#[derive(Drop)]
pub struct ItemsView<'p> {
    count: u32,
    reader: Reader<'p>,
}

impl<'p> Model for ItemsView<'p> {
    ghost use Rattle.std.specs.Prelude.{List};
    ghost use Rattle.proof_verifier.specs.proof_checks.declared.trace_proof.TraceItem.{
      TraceItem as Item,
    };
    ghost use Rattle.byte_fields.specs.Reading.{items_at};
    ghost use Rattle.entry_views.specs.Items.{items_read, AreRead};
    ghost use Rattle.trace_verifier.specs.Reading.{item_at};

    ghost Value = { List Item };

    ghost view = { λ items. items_read (items_at item_at items.count items.reader) };

    ghost invariant = { λ items. AreRead (items_at item_at items.count items.reader) };
}

impl<'p> ItemsView<'p> {
    /// The number of items that are left.
    #[tactic(auto, using(entry_views::proofs::Items::items_counted))]
    pub fn len(&self) -> usize
        ensures { result ≡ length self.now }
    {
        self.count as usize
    }

    /// A second view of the same items.
    pub fn again(&self) -> ItemsView<'p>
        ensures { result ≡ self.now }
    {
        ItemsView {
            count: self.count,
            reader: Reader::new(self.reader.rest()),
        }
    }

    /// Removes and returns the first item, or `None` if the list is empty.
    pub fn next(&mut self) -> Option<ItemView<'p>>
        ensures { MatchOption result (self.old ≡ []) (λ item. self.old ≡ item ∷ self.new) }
    {
        if self.count == 0 {
            return None;
        }
        match read_item(&mut self.reader) {
            Ok(item) => {
                self.count -= 1;
                Some(item)
            }
            Err(_) => None,
        }
    }
}

fn skip_items(reader: &mut Reader, count: u32) -> Result<(), Fault>
    ensures { Skips result (items_at item_at count reader.old) reader.new }
{
    for _ in 0..count {
        read_item(reader)?;
    }
    Ok(())
}

/// Reads the number of items in four bytes (big-endian), then the items.
#[tactic(auto, unfolding(crate::specs::Reading::counted_items_at))]
pub(crate) fn read_items<'p>(reader: &mut Reader<'p>) -> Result<ItemsView<'p>, Fault>
    ensures { Reads fault_left result (counted_items_at reader.old) reader.new }
{
    let count = reader.u32_at_most(MAX_ROWS)?;
    let items = Reader::new(reader.rest());
    skip_items(reader, count)?;
    Ok(ItemsView {
        count,
        reader: items,
    })
}
