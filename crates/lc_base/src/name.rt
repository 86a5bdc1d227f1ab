//! Names of contracts and of their parts: a value of type `Name` holds valid bytes only, since
//! `Name::new` checks them.

ghost use Rattle.std.specs.Prelude.{◌≡◌};
ghost use Rattle.lc_base.specs.{
  NameBytes.{is_name_byte, starts_with_letter, foreign_byte, bad_name_byte, IsName},
  Name.{name_of},
};

use crate::key::KeyError;
use crate::name_limits::MAX_NAME_BYTES;
use crate::padded::Padded;
use std::marker::Model;

/// A name: 1 to 16 bytes of `a-z 0-9 _`, the first a letter.
#[derive(Clone, Copy, PartialEq, Eq, Hash)]
pub struct Name {
    padded: Padded<MAX_NAME_BYTES>,
}

impl Model for Name {
    ghost use Rattle.std.specs.Prelude.{ℕ, List};
    ghost use Rattle.lc_base.specs.NameBytes.{IsName};

    ghost Value = { List ℕ };

    ghost view = { λ n. n.padded };

    ghost invariant = { λ n. IsName n.padded };

    ghost inverse = { λ bytes. record { padded = bytes } };
}

/// Whether a name may have this byte after its first.
pub fn is_name_byte(byte: u8) -> bool
    ensures { result ≡ is_name_byte byte }
{
    matches!(byte, b'a'..=b'z' | b'0'..=b'9' | b'_')
}

fn starts_with_letter(bytes: &[u8]) -> bool
    ensures { result ≡ starts_with_letter bytes.now }
{
    match bytes {
        [] => true,
        [first, ..] => first.is_ascii_lowercase(),
    }
}

fn foreign_byte(bytes: &[u8]) -> Option<usize>
    ensures { result ≡ foreign_byte bytes.now }
{
    bytes.iter().position(|byte| !is_name_byte(*byte))
}

fn bad_name_byte(bytes: &[u8]) -> Option<usize>
    ensures { result ≡ bad_name_byte bytes.now }
{
    if starts_with_letter(bytes) {
        foreign_byte(bytes)
    } else {
        Some(0)
    }
}

impl Name {
    /// The name that these bytes are, or why they are none. The number of bytes is tested before
    /// the bytes.
    #[tactic(auto, using(crate::proofs::PaddedOrder::name_has_no_zero))]
    pub fn new(bytes: &[u8]) -> Result<Name, KeyError>
        ensures { result ≡ name_of bytes.now }
    {
        if bytes.is_empty() {
            return Err(KeyError::Empty);
        }
        if bytes.len() > MAX_NAME_BYTES {
            return Err(KeyError::Long);
        }
        if let Some(offset) = bad_name_byte(bytes) {
            return Err(KeyError::Byte(offset));
        }
        let padded = Padded::new(bytes);
        Ok(Name { padded })
    }

    /// The bytes of the name, 1 to 16.
    pub fn as_bytes(&self) -> &[u8]
        ensures bytes { result.now ≡ self.now }
        ensures is_name { IsName self.now }
    {
        self.padded.as_bytes()
    }
}
