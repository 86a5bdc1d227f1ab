//! Texts, one of the two kinds of value: a value of type `Text` holds valid bytes only.

ghost use Rattle.std.specs.{Prelude.{◌≡◌, ◌++◌, IfOk}, Fmt.{signed_decimal}};
ghost use Rattle.lc_base.specs.{
  TextBytes.{is_text_byte, bad_text_byte, IsText},
  Text.{IsTextOf, joined_text},
  declared.text.TextError.TheVariants.{Memory},
};

use crate::key::Key;
use crate::limits::{MAX_JOINED_BYTES, MAX_TEXT_BYTES};
use crate::list::Duplicate;
use std::alloc::{AllocError, Global};
use std::marker::Model;
use thiserror::Error;

/// A text: at most `MAX_TEXT_BYTES` bytes, each from 0x20 to 0x7E.
#[derive(Drop)]
pub struct Text {
    bytes: Vec<u8>,
}

impl Model for Text {
    ghost use Rattle.std.specs.Prelude.{ℕ, List};
    ghost use Rattle.lc_base.specs.TextBytes.{IsText};

    ghost Value = { List ℕ };

    ghost view = { λ text. text.bytes.items };

    ghost invariant = { λ text. IsText text.bytes.items };
}

/// Why bytes are not a text, or were not kept.
#[derive(Clone, Copy, Debug, PartialEq, Eq, Error)]
pub enum TextError {
    /// There are more than `MAX_TEXT_BYTES`.
    #[error("too long")]
    Long,
    /// The offset of the first byte that a text may not have.
    #[error("bad byte at {0}")]
    Byte(usize),
    /// Out of memory.
    #[error("no memory")]
    Memory,
}

impl From<AllocError> for TextError {
    ghost from_gives = { λ _ error. error ≡ Memory };

    fn from(_error: AllocError) -> TextError {
        TextError::Memory
    }
}

/// Whether a text may have this byte.
pub fn is_text_byte(byte: u8) -> bool
    ensures { result ≡ is_text_byte byte }
{
    matches!(byte, 0x20..=0x7E)
}

/// The offset of the first byte that a text may not have.
pub fn bad_text_byte(bytes: &[u8]) -> Option<usize>
    ensures { result ≡ bad_text_byte bytes.now }
{
    bytes.iter().position(|byte| !is_text_byte(*byte))
}

impl Text {
    /// The text that these bytes are, or why they are none. The number of bytes is tested before
    /// the bytes.
    pub fn new(alloc: Global, bytes: &[u8]) -> Result<Text, TextError>
        ensures { IsTextOf bytes.now result }
    {
        if bytes.len() > MAX_TEXT_BYTES {
            return Err(TextError::Long);
        }
        if let Some(offset) = bad_text_byte(bytes) {
            return Err(TextError::Byte(offset));
        }
        let bytes = Vec::from_slice(alloc, bytes)?;
        Ok(Text { bytes })
    }

    /// The bytes of the text, at most `MAX_TEXT_BYTES`.
    pub fn as_bytes(&self) -> &[u8]
        ensures bytes { result.now ≡ self.now }
        ensures is_text { IsText self.now }
    {
        &self.bytes
    }

    /// The bytes of a key, which are always a text.
    pub fn from_key(alloc: Global, key: &Key) -> Result<Text, crate::memory::Memory>
        ensures { IfOk result (λ text. text ≡ key.now) }
    {
        let bytes = Vec::from_slice(alloc, key.as_bytes())?;
        Ok(Text { bytes })
    }

    /// A number in decimal digits, with `-` before them if it is negative.
    pub fn from_number(alloc: Global, number: i64) -> Result<Text, crate::memory::Memory>
        ensures { IfOk result (λ text. text ≡ signed_decimal number) }
    {
        let bytes = number.to_string(alloc)?.into_bytes();
        Ok(Text { bytes })
    }

    /// This text followed by another, or `None` if that has more than `MAX_JOINED_BYTES`.
    pub fn join(&self, alloc: Global, other: &Text) -> Result<Option<Text>, crate::memory::Memory>
        ensures { IfOk result (λ text. text ≡ joined_text self.now other.now) }
    {
        let first = self.as_bytes();
        let second = other.as_bytes();
        if first.len() + second.len() > MAX_JOINED_BYTES {
            return Ok(None);
        }
        let bytes = join_bytes(alloc, first, second)?;
        Ok(Some(Text { bytes }))
    }
}

fn join_bytes(alloc: Global, a: &[u8], b: &[u8]) -> Result<Vec<u8>, crate::memory::Memory>
    ensures { IfOk result (λ bytes. bytes.items ≡ a.now ++ b.now) }
{
    let mut bytes = Vec::with_capacity(alloc, a.len() + b.len())?;
    bytes.extend_from_slice(a)?;
    bytes.extend_from_slice(b)?;
    Ok(bytes)
}

impl Duplicate for Text {
    fn copy(&self, alloc: Global) -> Result<Text, crate::memory::Memory> {
        let bytes = Vec::from_slice(alloc, &self.bytes)?;
        Ok(Text { bytes })
    }
}
