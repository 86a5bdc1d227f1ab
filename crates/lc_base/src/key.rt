//! Keys: a value of type `Key` holds valid bytes only, since `Key::new` checks them.

ghost use Rattle.std.specs.Prelude.{◌≡◌};
ghost use Rattle.lc_base.specs.{KeyBytes.{is_key_byte, bad_key_byte, IsKey}, Key.{key_of}};

use crate::name_limits::MAX_KEY_BYTES;
use crate::padded::Padded;
use std::marker::Model;
use thiserror::Error;

/// A key: 1 to 64 bytes of `a-z 0-9 . / _ -`, ordered byte by byte.
#[derive(Clone, Copy, PartialEq, Eq, PartialOrd, Ord, Hash)]
pub struct Key {
    padded: Padded<MAX_KEY_BYTES>,
}

impl Model for Key {
    ghost use Rattle.std.specs.Prelude.{ℕ, List};
    ghost use Rattle.lc_base.specs.KeyBytes.{IsKey};

    ghost Value = { List ℕ };

    ghost view = { λ k. k.padded };

    ghost invariant = { λ k. IsKey k.padded };

    ghost inverse = { λ bytes. record { padded = bytes } };
}

/// Why bytes are not a key or a name.
#[derive(Clone, Copy, Debug, Error)]
pub enum KeyError {
    /// There are no bytes.
    #[error("empty")]
    Empty,
    /// There are more than `MAX_KEY_BYTES`, or, for a name, more than `MAX_NAME_BYTES`.
    #[error("too long")]
    Long,
    /// The offset of the first byte that isn't allowed there.
    #[error("bad byte at {0}")]
    Byte(usize),
}

fn is_key_byte(byte: u8) -> bool
    ensures { result ≡ is_key_byte byte }
{
    matches!(byte, b'a'..=b'z' | b'0'..=b'9' | b'.' | b'/' | b'_' | b'-')
}

fn bad_key_byte(bytes: &[u8]) -> Option<usize>
    ensures { result ≡ bad_key_byte bytes.now }
{
    bytes.iter().position(|byte| !is_key_byte(*byte))
}

impl Key {
    /// The key that these bytes are, or why they are none. The number of bytes is tested before the
    /// bytes.
    #[tactic(auto, using(crate::proofs::PaddedOrder::key_has_no_zero))]
    pub fn new(bytes: &[u8]) -> Result<Key, KeyError>
        ensures { result ≡ key_of bytes.now }
    {
        if bytes.is_empty() {
            return Err(KeyError::Empty);
        }
        if bytes.len() > MAX_KEY_BYTES {
            return Err(KeyError::Long);
        }
        if let Some(offset) = bad_key_byte(bytes) {
            return Err(KeyError::Byte(offset));
        }
        let padded = Padded::new(bytes);
        Ok(Key { padded })
    }

    /// The bytes of the key, 1 to 64.
    pub fn as_bytes(&self) -> &[u8]
        ensures bytes { result.now ≡ self.now }
        ensures is_key { IsKey self.now }
    {
        self.padded.as_bytes()
    }
}
