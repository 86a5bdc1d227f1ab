//! Bytes at the start of an array that zeros fill up: what keys and names are kept as.

ghost use Rattle.std.{
  specs.Prelude.{◌≡◌, ◌==◌, ◌%◌, ◌≤◌, length},
  specs.Ordering.{nat_cmp, as_partial_cmp},
  specs.Cmp.{partial_order_from_own_ties},
  specs.Cmp.Lexicographic.{pointwise, slice_cmp},
  specs.Cmp.Rules.{comparing, hashing},
  proofs.Common.{rules},
};
ghost use Rattle.std.specs.Hash as fed;
ghost use Rattle.lc_base.specs.Padding.{zero_padded, HasNoZero};

use crate::words::cmp_words;
use std::cmp::Ordering;
use std::hash::{Hash, Hasher};
use std::marker::Model;

/// At most `N` bytes, none of them zero, ordered byte by byte. `N` is a multiple of eight, since they
/// are compared eight bytes at a time.
#[derive(Clone, Copy)]
pub struct Padded<const N: usize> {
    len: usize,
    bytes: [u8; N],
}

impl<const N: usize> Model for Padded<N> {
    ghost use Rattle.std.specs.Prelude.{ℕ, List, take, length};
    ghost use Rattle.std.proofs.Common.{refl};
    ghost use Rattle.lc_base.specs.Padding.{zero_padded, IsPadded, length_of_prefix};

    ghost Value = { List ℕ };

    ghost view = { λ p. take p.len p.bytes };

    ghost invariant = { λ p. IsPadded N p.len p.bytes };

    ghost inverse = { λ bytes. record { len = length bytes; bytes = zero_padded N bytes } };

    ghost inverse_ok = { λ a h. let e = length_of_prefix N a.len a.bytes h.short h.padded in Prim.rw (← h.padded, e) refl };
}

/// The array of bytes, which zeros fill up.
fn zero_padded<const N: usize>(bytes: &[u8]) -> [u8; N]
    requires { length bytes.now ≤ N }
    ensures { result ≡ zero_padded N bytes.now }
{
    let mut array = [0u8; N];
    array[..bytes.len()].copy_from_slice(bytes);
    array
}

impl<const N: usize> Padded<N> {
    /// These bytes.
    #[tactic(auto, using(crate::proofs::Padding::padded_prefix_is, crate::proofs::Padding::is_padded))]
    pub fn new(bytes: &[u8]) -> Self
        requires short { length bytes.now ≤ N }
        requires whole_words { N % 8 ≡ 0 }
        requires no_zero { HasNoZero bytes.now }
        ensures { result ≡ bytes.now }
    {
        Padded {
            len: bytes.len(),
            bytes: zero_padded(bytes),
        }
    }

    /// The bytes.
    pub fn as_bytes(&self) -> &[u8]
        ensures { result.now ≡ self.now }
    {
        &self.bytes[..self.len]
    }
}

impl<const N: usize> PartialEq for Padded<N> {
    ghost eq = { pointwise ◌==◌ };

    ghost laws = { Prim.search (comparing, rules) };

    fn eq(&self, other: &Self) -> bool {
        self.as_bytes() == other.as_bytes()
    }
}

impl<const N: usize> Eq for Padded<N> {
    ghost laws = { Prim.search (comparing, rules) };
}

impl<const N: usize> Ord for Padded<N> {
    ghost cmp = { slice_cmp nat_cmp };

    ghost total = { Prim.search (comparing, rules) };

    ghost matches_partial_cmp = { Prim.search (comparing, rules) };

    ghost matches_eq = { Prim.search (comparing, rules) };

    #[tactic(auto, using(crate::proofs::PaddedOrder::array_order))]
    fn cmp(&self, other: &Self) -> Ordering {
        cmp_words(&self.bytes, &other.bytes)
    }
}

impl<const N: usize> PartialOrd for Padded<N> {
    ghost partial_cmp = { as_partial_cmp (slice_cmp nat_cmp) };

    ghost laws = { partial_order_from_own_ties (Prim.search (comparing, rules)) (Prim.search (comparing, rules)) };

    fn partial_cmp(&self, other: &Self) -> Option<Ordering> {
        Some(self.cmp(other))
    }
}

impl<const N: usize> Hash for Padded<N> {
    ghost hash_input = { λ p. fed.slice fed.u8 p };

    ghost respects_eq = { Prim.search (hashing, rules) };

    fn hash<H: Hasher>(&self, state: &mut H) {
        self.as_bytes().hash(state)
    }
}
