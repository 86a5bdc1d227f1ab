//! An item of a trace is a header and a body, one after the other.

ghost use Rattle.byte_fields.specs.Reader.{fault_left, Reads};
ghost use Rattle.trace_verifier.specs.Reading.{item_at};

use byte_fields::{Fault, Reader};
use entry_views::{BodyView, HeaderView};
use std::marker::Model;

/// An ancestor, read in place.
#[derive(Drop)]
pub struct ItemView<'p> {
    /// The header of the version.
    pub header: HeaderView<'p>,
    /// Its body.
    pub body: BodyView<'p>,
}

impl<'p> Model for ItemView<'p> {
    ghost use Rattle.proof_verifier.specs.proof_checks.declared.trace_proof.TraceItem.{TraceItem};

    ghost Value = { TraceItem };

    ghost view = { λ item. record { header = item.header.value; body = item.body.value } };
}

/// Reads an item, and leaves the reader after it.
#[tactic(auto, unfolding(crate::specs::Reading::item_at))]
pub(crate) fn read_item<'p>(reader: &mut Reader<'p>) -> Result<ItemView<'p>, Fault>
    ensures { Reads fault_left result (item_at reader.old) reader.new }
{
    let header = HeaderView::read(reader)?;
    let body = BodyView::read(reader)?;
    Ok(ItemView { header, body })
}
