//! Drawing numbers from a linear congruential generator: equal seeds give equal draws on every
//! machine.

ghost use Rattle.std.specs.Prelude.{◌≡◌, ◌+◌, ◌<◌, ◌≤◌, ◌++◌, length, take};
ghost use Rattle.lc_base.specs.KeyBytes.{IsKey};
ghost use Rattle.chain_pack.specs.{
  Draws.{next_state, number_below, number_of_key, key_drawn, raw_key},
  declared.limits.TheConstants.{MANY_KEYS},
};

use crate::limits::{DIVISOR, FEW_KEYS, INCREMENT, MANY_KEYS, MULTIPLIER};
use itoa::Buffer;
use lc_base::{Key, MAX_KEY_BYTES};
use std::marker::Model;

/// The state of drawing.
#[derive(Drop)]
pub struct Draws {
    state: u64,
}

impl Model for Draws {
    ghost use Rattle.std.specs.Prelude.{ℕ};

    ghost Value = { ℕ };

    ghost view = { λ draws. draws.state };
}

impl Draws {
    /// Draws that continue from a state, which is the seed at first.
    pub fn new(state: u64) -> Draws
        ensures { result ≡ state }
    {
        Draws { state }
    }

    /// The state after all draws so far.
    pub fn state(&self) -> u64
        ensures { result ≡ self.now }
    {
        self.state
    }

    /// Draws a number below the bound.
    #[tactic(auto, unfolding(crate::specs::Draws::number_below), using(crate::proofs::Numbers::number_fits))]
    pub fn number_below(&mut self, bound: u32) -> u32
        requires { 0 < bound }
        ensures number { result ≡ (number_below bound self.old).0 }
        ensures state { self.new ≡ (number_below bound self.old).1 }
        ensures bound { result < bound }
    {
        self.state = self.state.wrapping_mul(MULTIPLIER).wrapping_add(INCREMENT);
        (self.state / DIVISOR % u64::from(bound)) as u32
    }

    #[tactic(auto, unfolding(crate::specs::Draws::number_of_key))]
    fn number_of_key(&mut self) -> u32
        ensures number { result ≡ (number_of_key self.old).0 }
        ensures state { self.new ≡ (number_of_key self.old).1 }
        ensures bound { result < MANY_KEYS }
    {
        if self.number_below(2) == 0 {
            self.number_below(FEW_KEYS)
        } else {
            self.number_below(MANY_KEYS)
        }
    }

    /// Draws a key.
    #[tactic(auto, unfolding(crate::specs::Draws::key_drawn))]
    pub fn key(&mut self) -> Key
        ensures key { result ≡ (key_drawn self.old).0 }
        ensures state { self.new ≡ (key_drawn self.old).1 }
    {
        raw_key(self.number_of_key())
    }
}

fn raw_key(number: u32) -> Key
    ensures { result ≡ raw_key number }
{
    let mut digits = Buffer::new();
    key_of_parts(b"raw/", digits.format(number).as_bytes())
}

/// The key whose bytes are two parts.
fn key_of_parts(first: &[u8], second: &[u8]) -> Key
    requires { IsKey (first.now ++ second.now) }
    ensures { result ≡ first.now ++ second.now }
{
    let mut bytes = [0u8; MAX_KEY_BYTES];
    let len = first.len() + second.len();
    put_parts(&mut bytes, first, second);
    checked_key(&bytes[..len])
}

/// Writes the two parts over the first bytes.
fn put_parts(bytes: &mut [u8], first: &[u8], second: &[u8])
    requires { length first.now + length second.now ≤ length bytes.old }
    ensures long { length bytes.new ≡ length bytes.old }
    ensures parts { take (length first.now + length second.now) bytes.new ≡ first.now ++ second.now }
{
    let len = first.len() + second.len();
    bytes[..first.len()].copy_from_slice(first);
    bytes[first.len()..len].copy_from_slice(second);
}

fn checked_key(bytes: &[u8]) -> Key
    requires { IsKey bytes.now }
    ensures { result ≡ bytes.now }
{
    match Key::new(bytes) {
        Ok(key) => key,
        Err(_) => unreachable!(),
    }
}
