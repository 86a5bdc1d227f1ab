//! Headers are checked once, when the list is read, and the block of the last one is kept;
//! afterwards each can be read again from the same bytes.

ghost use Rattle.std.specs.{
  Prelude.{◌≡◌, ◌∷◌, [], length, slice_get, IfOk, MatchOption},
  Option.{option_map},
};
ghost use Rattle.entry_views.specs.{
  byte_fields.Reader.{fault_left, Reads, ReadsAs},
  byte_fields.Reading.{items_at},
  Items.{items_read},
  Reading.{header_at},
};
ghost use Rattle.proof_codec.specs.{Last.{last_block}, Reading.{headers_at}};

use entry_views::{Fault, HeaderView, Reader};
use std::marker::Model;

/// Headers read in place, the newest first.
#[derive(Drop)]
pub struct HeadersView<'p> {
    count: u32,
    reader: Reader<'p>,
    /// The block of the last header; of no meaning if none is left.
    last_block: Option<u32>,
}

impl<'p> Model for HeadersView<'p> {
    ghost use Rattle.std.specs.Prelude.{List};
    ghost use Rattle.entry_views.specs.prov_entry.declared.entry.Header.{Header as Item};
    ghost use Rattle.entry_views.specs.byte_fields.Reading.{items_at};
    ghost use Rattle.entry_views.specs.Items.{items_read, AreRead};
    ghost use Rattle.entry_views.specs.Reading.{header_at};
    ghost use Rattle.proof_codec.specs.Last.{IsOfLast};

    ghost Value = { List Item };

    ghost view = { λ headers. items_read (items_at header_at headers.count headers.reader) };

    ghost invariant = { λ headers. AreRead (items_at header_at headers.count headers.reader)
        × IsOfLast headers.last_block (items_read (items_at header_at headers.count headers.reader)) };
}

impl<'p> HeadersView<'p> {
    /// The number of headers that are left.
    #[tactic(auto, using(entry_views::proofs::Items::items_counted))]
    pub fn len(&self) -> usize
        ensures { result ≡ length self.now }
    {
        self.count as usize
    }

    /// The block of the last header, or `None` if the list is empty. No header is read.
    pub fn last_block(&self) -> Option<u32>
        ensures { result ≡ last_block self.now }
    {
        if self.count == 0 {
            return None;
        }
        self.last_block
    }

    /// A second view of the same headers.
    pub fn again(&self) -> HeadersView<'p>
        ensures { result ≡ self.now }
    {
        HeadersView {
            count: self.count,
            reader: Reader::new(self.reader.rest()),
            last_block: self.last_block,
        }
    }

    /// Removes and returns the first header, or `None` if the list is empty.
    pub fn next(&mut self) -> Option<HeaderView<'p>>
        ensures { MatchOption result (self.old ≡ []) (λ header. self.old ≡ header.value ∷ self.new) }
    {
        if self.count == 0 {
            return None;
        }
        match HeaderView::read(&mut self.reader) {
            Ok(header) => {
                self.count -= 1;
                Some(header)
            }
            Err(_) => None,
        }
    }

    /// The header at an index, from 0; `None` exactly past the end. All before it are read.
    pub fn get(&self, i: usize) -> Option<HeaderView<'p>>
        ensures { option_map (λ header. header.value) result ≡ slice_get self.now i }
    {
        let mut rest = self.again();
        for _ in 0..i {
            match rest.next() {
                None => return None,
                Some(_) => {}
            }
        }
        rest.next()
    }
}

/// Reads past `count` headers. The block of the last of them, or `None` if there are none.
fn skip_headers(reader: &mut Reader, count: u32) -> Result<Option<u32>, Fault>
    ensures skips { ReadsAs (λ last. items_read (items_at header_at count reader.old)) fault_left result (items_at header_at count reader.old) reader.new }
    ensures last { IfOk result (λ last. last ≡ last_block (items_read (items_at header_at count reader.old))) }
{
    let mut last = None;
    for _ in 0..count {
        let header = HeaderView::read(reader)?;
        last = Some(header.fields().block);
    }
    Ok(last)
}

/// Reads `count` headers, whose number the caller has read.
pub fn read_each_header<'p>(reader: &mut Reader<'p>, count: u32) -> Result<HeadersView<'p>, Fault>
    ensures { Reads fault_left result (items_at header_at count reader.old) reader.new }
{
    let headers = Reader::new(reader.rest());
    let last_block = skip_headers(reader, count)?;
    Ok(HeadersView {
        count,
        reader: headers,
        last_block,
    })
}

/// Reads the number of headers in one byte, then the headers.
#[tactic(auto, unfolding(crate::specs::Reading::headers_at))]
pub(crate) fn read_headers<'p>(reader: &mut Reader<'p>) -> Result<HeadersView<'p>, Fault>
    ensures { Reads fault_left result (headers_at reader.old) reader.new }
{
    let count = reader.byte()?;
    read_each_header(reader, count as u32)
}
