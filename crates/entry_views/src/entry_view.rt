//! Entries in the bytes that they were read from: an entry is lawful, and these bytes are its
//! fields.

ghost use Rattle.std.specs.Prelude.{◌≡◌, ◌≤◌, ℕ, Ok, length, drop, IfOk, IfErr};
ghost use Rattle.lc_base.specs.Answers.{Answers};
ghost use Rattle.byte_fields.specs.Reader.{fault_left, Reads, ReadsAs};
ghost use Rattle.entry_views.specs.{
  Codecs.{Codec},
  Placed.{IsSpelled},
  Standing.{StandsAt, IsInvalidAt, read_from},
};

use crate::fault::{FieldError, tail};
use byte_fields::{Fault, Reader};
use std::marker::Model;

/// The fields of an entry.
pub trait EntryFields: Drop {
    /// How the fields are spelled and read.
    ghost codec: { Codec Self };
}

/// Fields that are read in place.
pub trait ReadFields<'p>: EntryFields {
    /// Reads the fields in their order, and leaves the reader after them.
    fn read(reader: &mut Reader<'p>) -> Result<Self, Fault>
        ensures { Reads fault_left result (Self.codec.read reader.old) reader.new };
}

/// An entry in the bytes that it was read from.
#[derive(Drop)]
pub struct EntryView<'p, F: EntryFields> {
    pub(crate) fields: F,
    bytes: &'p [u8],
    end: usize,
}

impl<'p, F: EntryFields> Model for EntryView<'p, F> {
    ghost use Rattle.entry_views.specs.Placed.{Placed, IsSpelled};

    ghost Value = { Placed F };

    ghost view = { λ entry. record { value = entry.fields; end = entry.end } };

    ghost invariant = { λ entry. IsSpelled F.codec.fields F.codec.lawful entry.fields entry.bytes.now };
}

impl<'p, F: EntryFields> EntryView<'p, F> {
    /// Its fields.
    pub fn fields(&self) -> &F
        ensures { result.now ≡ self.now.value }
    {
        &self.fields
    }

    /// The bytes that it was read from: its fields, as they are hashed after their first byte.
    pub fn bytes(&self) -> &'p [u8]
        ensures spelled { IsSpelled F.codec.fields F.codec.lawful self.now.value result.now }
    {
        self.bytes
    }

    /// The offset after its last byte.
    pub fn end(&self) -> usize
        ensures { result ≡ self.now.end }
    {
        self.end
    }
}

impl<'p, F: ReadFields<'p>> EntryView<'p, F> {
    /// Reads the entry at the offset `at` of the bytes, without the byte that comes first when it
    /// is hashed. An error exactly if there is none.
    pub(crate) fn read_at(bytes: &'p [u8], at: usize) -> Result<EntryView<'p, F>, FieldError>
        // The entry that is returned is there.
        ensures found { IfOk result (λ entry. StandsAt F.codec.fields F.codec.lawful bytes.now at entry.value entry.end) }
        // An entry that is there is returned.
        ensures only { (value : F) (end : ℕ) → StandsAt F.codec.fields F.codec.lawful bytes.now at value end → result ≡ Ok (record { value = value; end = end }) }
        // A fault is reported at its offset.
        ensures fault { IfErr result (λ error. IsInvalidAt F.codec.fields F.codec.lawful bytes.now at error.at) }
        // The result is a function of the bytes and the offset.
        ensures exact { result ≡ read_from F.codec.read bytes.now at }
    {
        let mut reader = Reader::new(tail(bytes, at));
        let fields = F::read(&mut reader);
        entry_of_fields(bytes, at, fields, &reader)
    }

    /// Reads the entry at the reader's place, and leaves the reader after it.
    pub fn read(reader: &mut Reader<'p>) -> Result<EntryView<'p, F>, Fault>
        ensures { ReadsAs (λ entry. entry.value) fault_left result (F.codec.read reader.old) reader.new }
    {
        let rest = reader.rest();
        let entry = at_start(rest, EntryView::read_at(rest, 0))?;
        *reader = Reader::new(&rest[entry.end()..]);
        Ok(entry)
    }
}

/// The entry whose fields a reader read from an offset on.
fn entry_of_fields<'p, F: EntryFields>(
    bytes: &'p [u8],
    at: usize,
    fields: Result<F, Fault>,
    reader: &Reader,
) -> Result<EntryView<'p, F>, FieldError>
    requires { Reads fault_left fields (F.codec.read (drop at bytes.now)) reader.now }
    ensures { result ≡ read_from F.codec.read bytes.now at }
{
    let rest = tail(bytes, at);
    match fields {
        Ok(fields) => {
            let length = rest.len() - reader.remaining();
            Ok(EntryView {
                fields,
                bytes: &rest[..length],
                end: at + length,
            })
        }
        Err(fault) => Err(FieldError {
            at: at + (rest.len() - fault.left),
        }),
    }
}

fn at_start<'p, F: EntryFields>(
    bytes: &'p [u8],
    read: Result<EntryView<'p, F>, FieldError>,
) -> Result<EntryView<'p, F>, Fault>
    requires { read ≡ read_from F.codec.read bytes.now 0 }
    ensures read { Answers (λ entry. (entry.value, drop entry.end bytes.now)) fault_left result (F.codec.read bytes.now) }
    ensures within { IfOk result (λ entry. entry.end ≤ length bytes.now) }
{
    match read {
        Ok(entry) => Ok(entry),
        Err(error) => Err(Fault {
            left: bytes.len() - error.at,
        }),
    }
}
