//! Reading single words: a number, key, kind or digest has one spelling only.

ghost use Rattle.std.specs.Prelude.{◌≡◌, ◌↔◌, IsTrue};
ghost use Rattle.cli_words.specs.Words.{IsKindOf, IsKeyOf, IsNumberOf, IsCount, IsCountOf, AreBlocksOf, IsDigestOf, kind_word, starts_as_number};
ghost use Rattle.hex.specs.Hex.{encode_lower};

use crate::words::MAX_GENERATED_BLOCKS;
use hex::FromHex;
use lc_base::{Digest, Key, Kind};

/// The number of bytes of a digest.
const DIGEST_BYTES: usize = 32;

pub(crate) fn is_text(text: &str, word: &str) -> bool
    ensures { IsTrue result ↔ (text.now ≡ word.now) }
{
    text == word
}

/// Whether the text is `0`, or begins with a digit from 1 to 9.
fn starts_as_number(bytes: &[u8]) -> bool
    ensures { result ≡ starts_as_number bytes.now }
{
    match bytes {
        [b'0'] => true,
        [b'1'..=b'9', ..] => true,
        _ => false,
    }
}

/// The number below 2^32 that the text spells in decimal digits, without a sign or a leading zero.
pub(crate) fn number_of(text: &str) -> Option<u32>
    ensures { IsNumberOf text.now result }
{
    if !starts_as_number(text.as_bytes()) {
        return None;
    }
    text.parse::<u32>().ok()
}

fn is_count(number: u32) -> bool
    ensures { IsTrue result ↔ IsCount number }
{
    0 < number && number <= MAX_GENERATED_BLOCKS
}

/// The number from 1 to `MAX_GENERATED_BLOCKS` that the text spells.
pub(crate) fn count_of(text: &str) -> Option<u32>
    ensures { IsCountOf text.now result }
{
    let number = number_of(text)?;
    if !is_count(number) {
        return None;
    }
    Some(number)
}

/// The first block and the last one of a range that the texts spell; `None` if one of them spells no
/// number, or the first block is after the last one.
pub(crate) fn blocks_of(from: &str, to: &str) -> Option<(u32, u32)>
    ensures { AreBlocksOf from.now to.now result }
{
    let from = number_of(from)?;
    let to = number_of(to)?;
    if to < from {
        return None;
    }
    Some((from, to))
}

/// The key that the text is; `None` if it is no key.
pub(crate) fn key_of(text: &str) -> Option<Key>
    ensures { IsKeyOf text.now result }
{
    Key::new(text.as_bytes()).ok()
}

/// The kind of question that the text names; `None` if it names none.
pub(crate) fn kind_of(text: &str) -> Option<Kind>
    ensures { IsKindOf text.now result }
{
    match text {
        "hist" => Some(Kind::Hist),
        "back" => Some(Kind::Back),
        "fwd" => Some(Kind::Fwd),
        _ => None,
    }
}

/// The word for a kind of question.
pub fn kind_word(kind: Kind) -> &'static str
    ensures { result.now ≡ kind_word kind }
{
    match kind {
        Kind::Hist => "hist",
        Kind::Back => "back",
        Kind::Fwd => "fwd",
    }
}

/// The digest that the text spells in hex digits, with lower-case letters; `None` if it spells
/// none.
pub(crate) fn digest_of(text: &str) -> Option<Digest>
    ensures { IsDigestOf text.now result }
{
    match <[u8; DIGEST_BYTES] as FromHex>::from_hex(text) {
        Ok(bytes) => {
            if !writes(&bytes, text) {
                return None;
            }
            Some(Digest(bytes))
        }
        Err(_) => None,
    }
}

/// Whether the text is the lower-case hex of these bytes.
fn writes(bytes: &[u8; DIGEST_BYTES], text: &str) -> bool
    ensures { IsTrue result ↔ (text.now ≡ encode_lower bytes.now) }
{
    let mut digits = [0; 2 * DIGEST_BYTES];
    match hex::encode_to_slice(bytes.as_slice(), &mut digits) {
        Ok(()) => digits.as_slice() == text.as_bytes(),
        Err(_) => false,
    }
}
