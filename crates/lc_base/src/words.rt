//! Compares byte strings eight bytes at a time: big-endian words are ordered as their bytes are.

ghost use Rattle.std.specs.{
  Prelude.{◌≡◌, ◌+◌, ◌*◌, ◌%◌, ◌≤◌, length, take, drop},
  Int.{w64, from_be_bytes},
  Ordering.{nat_cmp},
  Cmp.Lexicographic.{slice_cmp},
};

use std::cmp::Ordering;

/// The eight bytes from the offset on, as a number. The first byte is the most significant, so the
/// numbers are ordered as the bytes are.
fn word_at(bytes: &[u8], offset: usize) -> u64
    requires { offset + 8 ≤ length bytes.now }
    ensures { result ≡ from_be_bytes w64 (take 8 (drop offset bytes.now)) }
{
    u64::from_be_bytes([
        bytes[offset],
        bytes[offset + 1],
        bytes[offset + 2],
        bytes[offset + 3],
        bytes[offset + 4],
        bytes[offset + 5],
        bytes[offset + 6],
        bytes[offset + 7],
    ])
}

/// The lexicographic order of two slices of the same length, which is a multiple of eight.
pub(crate) fn cmp_words(left: &[u8], right: &[u8]) -> Ordering
    requires same_length { length left.now ≡ length right.now }
    requires whole_words { length left.now % 8 ≡ 0 }
    ensures { result ≡ slice_cmp nat_cmp left.now right.now }
{
    for i in 0..left.len() / 8 {
        let left_word = word_at(left, 8 * i);
        let right_word = word_at(right, 8 * i);
        if left_word != right_word {
            return left_word.cmp(&right_word);
        }
    }
    Ordering::Equal
}
