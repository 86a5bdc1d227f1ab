//! A reader of fields, from the first byte to the last. A fault says how many bytes are left from
//! the start of the invalid field on.

ghost use Rattle.std.specs.{
  Prelude.{◌≡◌, ◌≤◌, ◌==◌, ◌&&◌, nat_le, nat_lt, is_none, if◌then◌else◌, Ok, Err, length},
  Int.{w16, w32, w64},
};
ghost use Rattle.lc_base.specs.{
  KeyBytes.{bad_key_byte},
  declared.name_limits.TheConstants.{MAX_KEY_BYTES, MAX_NAME_BYTES},
  TextBytes.{bad_text_byte},
  declared.limits.TheConstants.{MAX_TEXT_BYTES},
};
ghost use Rattle.byte_fields.specs.{
  Reading.{ruled_at, items_at, number_at, byte_at, bytes_at, key_at, name_at, any_bytes_at, text_at, key_or_empty_at, int_at, value_at, body_value_at},
  Reader.{fault_left, error_left, Reads, ReadsAs, value_seen},
};

use crate::fault::{Fault, ReadError};
use crate::value_view::ValueView;
use lc_base::{
    Bytes, Key, KeyList, MAX_KEY_BYTES, MAX_NAME_BYTES, MAX_TEXT_BYTES, Name, Seq, Text, TextError,
    Value, bad_text_byte,
};
use std::alloc::Global;
use std::marker::Model;

/// The value of a field, or the fault if the value breaks the field's rule.
fn lawful_or<T: Copy>(value: T, is_lawful: bool, fault: Fault) -> Result<T, Fault>
    ensures { result ≡ (if is_lawful then Ok value else Err fault) }
{
    if is_lawful { Ok(value) } else { Err(fault) }
}

/// The bytes that are still to be read. After an error, nothing is promised about how many are
/// left.
#[derive(Drop)]
pub struct Reader<'a> {
    rest: &'a [u8],
}

impl<'a> Model for Reader<'a> {
    ghost use Rattle.std.specs.Prelude.{ℕ, List};

    ghost Value = { List ℕ };

    ghost view = { λ reader. reader.rest.now };
}

impl<'a> Reader<'a> {
    /// A reader of all the bytes.
    pub fn new(bytes: &'a [u8]) -> Reader<'a>
        ensures { result ≡ bytes.now }
    {
        Reader { rest: bytes }
    }

    /// The number of bytes left.
    pub fn remaining(&self) -> usize
        ensures { result ≡ length self.now }
    {
        self.rest.len()
    }

    /// The bytes left, which stay unread.
    pub fn rest(&self) -> &'a [u8]
        ensures { result.now ≡ self.now }
    {
        self.rest
    }

    /// The fault of a field that begins here.
    fn fault(&self) -> Fault
        ensures { result.left ≡ length self.now }
    {
        Fault {
            left: self.rest.len(),
        }
    }

    /// One byte.
    #[tactic(auto, unfolding(crate::specs::Reading::byte_at))]
    pub fn byte(&mut self) -> Result<u8, Fault>
        ensures { Reads fault_left result (byte_at self.old) self.new }
    {
        match self.rest {
            [] => Err(self.fault()),
            [byte, rest @ ..] => {
                self.rest = rest;
                Ok(*byte)
            }
        }
    }

    /// `N` bytes.
    #[tactic(auto, unfolding(crate::specs::Reading::bytes_at))]
    fn array<const N: usize>(&mut self) -> Result<[u8; N], Fault>
        ensures { Reads fault_left result (bytes_at N self.old) self.new }
    {
        match self.rest.split_first_chunk::<N>() {
            None => Err(self.fault()),
            Some((prefix, rest)) => {
                self.rest = rest;
                Ok(*prefix)
            }
        }
    }

    /// A number of two bytes, the more significant first.
    #[tactic(auto, unfolding(crate::specs::Reading::number_at, crate::specs::Reading::bytes_at))]
    pub fn u16(&mut self) -> Result<u16, Fault>
        ensures { Reads fault_left result (number_at w16 self.old) self.new }
    {
        Ok(u16::from_be_bytes(self.array()?))
    }

    /// A number of four bytes, the most significant first.
    #[tactic(auto, unfolding(crate::specs::Reading::number_at, crate::specs::Reading::bytes_at))]
    pub fn u32(&mut self) -> Result<u32, Fault>
        ensures { Reads fault_left result (number_at w32 self.old) self.new }
    {
        Ok(u32::from_be_bytes(self.array()?))
    }

    /// A number of eight bytes, the most significant first.
    #[tactic(auto, unfolding(crate::specs::Reading::number_at, crate::specs::Reading::bytes_at))]
    pub fn u64(&mut self) -> Result<u64, Fault>
        ensures { Reads fault_left result (number_at w64 self.old) self.new }
    {
        Ok(u64::from_be_bytes(self.array()?))
    }

    /// A byte of at most `greatest`.
    pub fn byte_at_most(&mut self, greatest: u8) -> Result<u8, Fault>
        ensures { Reads fault_left result (ruled_at (λ n. nat_le n greatest) byte_at self.old) self.new }
    {
        let fault = self.fault();
        let byte = self.byte()?;
        lawful_or(byte, byte <= greatest, fault)
    }

    /// A byte that must be `wanted`.
    pub fn byte_that_is(&mut self, wanted: u8) -> Result<u8, Fault>
        ensures { Reads fault_left result (ruled_at (λ n. n == wanted) byte_at self.old) self.new }
    {
        let fault = self.fault();
        let byte = self.byte()?;
        lawful_or(byte, byte == wanted, fault)
    }

    /// A number of two bytes, at most `greatest`.
    pub fn u16_at_most(&mut self, greatest: u16) -> Result<u16, Fault>
        ensures { Reads fault_left result (ruled_at (λ n. nat_le n greatest) (number_at w16) self.old) self.new }
    {
        let fault = self.fault();
        let number = self.u16()?;
        lawful_or(number, number <= greatest, fault)
    }

    /// A number of four bytes, at most `greatest`.
    pub fn u32_at_most(&mut self, greatest: u32) -> Result<u32, Fault>
        ensures { Reads fault_left result (ruled_at (λ n. nat_le n greatest) (number_at w32) self.old) self.new }
    {
        let fault = self.fault();
        let number = self.u32()?;
        lawful_or(number, number <= greatest, fault)
    }

    /// A number of four bytes, at least `least`.
    pub fn u32_at_least(&mut self, least: u32) -> Result<u32, Fault>
        ensures { Reads fault_left result (ruled_at (λ n. nat_le least n) (number_at w32) self.old) self.new }
    {
        let fault = self.fault();
        let number = self.u32()?;
        lawful_or(number, least <= number, fault)
    }

    /// A number of four bytes, below `limit`.
    pub fn u32_below(&mut self, limit: u32) -> Result<u32, Fault>
        ensures { Reads fault_left result (ruled_at (λ n. nat_lt n limit) (number_at w32) self.old) self.new }
    {
        let fault = self.fault();
        let number = self.u32()?;
        lawful_or(number, number < limit, fault)
    }

    /// `count` bytes, borrowed.
    #[tactic(auto, unfolding(crate::specs::Reading::bytes_at))]
    pub fn bytes(&mut self, count: usize) -> Result<&'a [u8], Fault>
        ensures { ReadsAs (λ bytes. bytes.now) fault_left result (bytes_at count self.old) self.new }
    {
        match self.rest.split_at_checked(count) {
            None => Err(self.fault()),
            Some((prefix, rest)) => {
                self.rest = rest;
                Ok(prefix)
            }
        }
    }

    /// The 32 bytes of a digest.
    pub fn digest_bytes(&mut self) -> Result<[u8; 32], Fault>
        ensures { Reads fault_left result (bytes_at 32 self.old) self.new }
    {
        self.array()
    }

    /// The length of a string, from `fewest` to `greatest`.
    fn length_between(&mut self, fewest: u16, greatest: u16) -> Result<usize, Fault>
        ensures { Reads fault_left result (ruled_at (λ n. nat_le fewest n && nat_le n greatest) (number_at w16) self.old) self.new }
    {
        let fault = self.fault();
        let length = self.u16()?;
        lawful_or(
            length as usize,
            fewest <= length && length <= greatest,
            fault,
        )
    }

    #[tactic(auto, unfolding(crate::specs::Reading::bytes_at))]
    fn key_of(&mut self, length: usize) -> Result<Key, Fault>
        requires { (1 ≤ length) × (length ≤ MAX_KEY_BYTES) }
        ensures { Reads fault_left result (ruled_at (λ bytes. is_none (bad_key_byte bytes)) (bytes_at length) self.old) self.new }
    {
        let fault = self.fault();
        let bytes = self.bytes(length)?;
        match Key::new(bytes) {
            Ok(key) => Ok(key),
            Err(_) => Err(fault),
        }
    }

    /// A key: its length in two bytes, then its bytes.
    #[tactic(auto, unfolding(crate::specs::Reading::key_at, crate::specs::Reading::string_at))]
    pub fn key(&mut self) -> Result<Key, Fault>
        ensures { Reads fault_left result (key_at self.old) self.new }
    {
        let length = self.length_between(1, MAX_KEY_BYTES as u16)?;
        self.key_of(length)
    }

    /// A key, or `None` if the string is empty: its length in two bytes, then its bytes.
    #[tactic(auto, unfolding(crate::specs::Reading::key_or_empty_at, crate::specs::Reading::string_at, crate::specs::Reading::bytes_at))]
    pub fn key_or_empty(&mut self) -> Result<Option<Key>, Fault>
        ensures { Reads fault_left result (key_or_empty_at self.old) self.new }
    {
        match self.length_between(0, MAX_KEY_BYTES as u16)? {
            0 => Ok(None),
            length => Ok(Some(self.key_of(length)?)),
        }
    }

    /// A name: its length in two bytes, then its bytes.
    #[tactic(auto, unfolding(crate::specs::Reading::name_at, crate::specs::Reading::string_at, crate::specs::Reading::bytes_at))]
    pub fn name(&mut self) -> Result<Name, Fault>
        ensures { Reads fault_left result (name_at self.old) self.new }
    {
        let length = self.length_between(1, MAX_NAME_BYTES as u16)?;
        let fault = self.fault();
        let bytes = self.bytes(length)?;
        match Name::new(bytes) {
            Ok(name) => Ok(name),
            Err(_) => Err(fault),
        }
    }

    /// A string of at most `greatest` bytes of any value: its length in two bytes, then its bytes.
    #[tactic(auto, unfolding(crate::specs::Reading::any_bytes_at))]
    pub fn any_bytes(&mut self, alloc: Global, greatest: u16) -> Result<Bytes, ReadError>
        ensures { Reads error_left result (any_bytes_at greatest self.old) self.new }
    {
        let length = self.u16_at_most(greatest)?;
        let bytes = self.bytes(length as usize)?;
        Ok(Bytes::from_vec(Vec::from_slice(alloc, bytes)?))
    }

    #[tactic(auto, unfolding(crate::specs::Reading::bytes_at))]
    fn text_of(&mut self, alloc: Global, length: usize) -> Result<Text, ReadError>
        requires { length ≤ MAX_TEXT_BYTES }
        ensures { Reads error_left result (ruled_at (λ bytes. is_none (bad_text_byte bytes)) (bytes_at length) self.old) self.new }
    {
        let fault = self.fault();
        let bytes = self.bytes(length)?;
        match Text::new(alloc, bytes) {
            Ok(text) => Ok(text),
            Err(TextError::Memory) => Err(ReadError::Memory),
            Err(_) => Err(ReadError::Fault(fault)),
        }
    }

    /// A text of at most `most` bytes: its length in two bytes, then its bytes.
    #[tactic(auto, unfolding(crate::specs::Reading::text_at, crate::specs::Reading::string_at))]
    fn text(&mut self, alloc: Global, most: u16) -> Result<Text, ReadError>
        requires { most ≤ MAX_TEXT_BYTES }
        ensures { Reads error_left result (text_at most self.old) self.new }
    {
        let length = self.length_between(0, most)?;
        self.text_of(alloc, length)
    }

    fn text_bytes_of(&mut self, length: usize) -> Result<&'a [u8], Fault>
        ensures { ReadsAs (λ bytes. bytes.now) fault_left result (ruled_at (λ bytes. is_none (bad_text_byte bytes)) (bytes_at length) self.old) self.new }
    {
        let fault = self.fault();
        let bytes = self.bytes(length)?;
        match bad_text_byte(bytes) {
            None => Ok(bytes),
            Some(_) => Err(fault),
        }
    }

    /// The bytes of a text, borrowed: its length in two bytes, then its bytes.
    #[tactic(auto, unfolding(crate::specs::Reading::text_at, crate::specs::Reading::string_at))]
    pub fn text_bytes(&mut self) -> Result<&'a [u8], Fault>
        ensures { ReadsAs (λ bytes. bytes.now) fault_left result (text_at MAX_TEXT_BYTES self.old) self.new }
    {
        let length = self.length_between(0, MAX_TEXT_BYTES as u16)?;
        self.text_bytes_of(length)
    }

    /// An int: eight bytes in two's complement, the most significant first.
    #[tactic(auto, unfolding(crate::specs::Reading::int_at))]
    fn int(&mut self) -> Result<i64, Fault>
        ensures { Reads fault_left result (int_at self.old) self.new }
    {
        let bits = self.u64()?;
        Ok(bits.cast_signed())
    }

    /// A value in a block: the byte 0 and an int, or the byte 1 and a text of at most `most` bytes.
    #[tactic(auto, unfolding(crate::specs::Reading::value_at))]
    pub fn value(&mut self, alloc: Global, most: u16) -> Result<Value, ReadError>
        requires { most ≤ MAX_TEXT_BYTES }
        ensures { Reads error_left result (value_at most self.old) self.new }
    {
        let fault = self.fault();
        match self.byte()? {
            0 => Ok(Value::Int(self.int()?)),
            1 => Ok(Value::Text(self.text(alloc, most)?)),
            _ => Err(ReadError::Fault(fault)),
        }
    }

    /// A value in a body, whose text is borrowed: the byte 0 and an int, the byte 1 and a text, or
    /// the byte 2 alone.
    #[tactic(auto, unfolding(crate::specs::Reading::body_value_at))]
    pub fn value_view(&mut self) -> Result<ValueView<'a>, Fault>
        ensures { ReadsAs value_seen fault_left result (body_value_at self.old) self.new }
    {
        let fault = self.fault();
        match self.byte()? {
            0 => Ok(ValueView::Int(self.int()?)),
            1 => Ok(ValueView::Text(self.text_bytes()?)),
            2 => Ok(ValueView::Gone),
            _ => Err(fault),
        }
    }

    /// `count` keys, one after another.
    pub fn keys(&mut self, alloc: Global, count: u8) -> Result<KeyList, ReadError>
        ensures { Reads error_left result (items_at key_at count self.old) self.new }
    {
        let mut keys = KeyList::new(alloc);
        for _ in 0..count {
            let key = self.key()?;
            keys.push(key)?;
        }
        Ok(keys)
    }

    /// `count` values in a block, one after another, each text of at most `most` bytes.
    pub fn values(&mut self, alloc: Global, count: u8, most: u16) -> Result<Seq<Value>, ReadError>
        requires { most ≤ MAX_TEXT_BYTES }
        ensures { Reads error_left result (items_at (value_at most) count self.old) self.new }
    {
        let mut values = Seq::new(alloc);
        for _ in 0..count {
            let value = self.value(alloc, most)?;
            values.push(value)?;
        }
        Ok(values)
    }
}
