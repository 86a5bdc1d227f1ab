//! The codes of contracts are kept in one map in the order of deployment: first those that can be
//! called, then those that the block at work deployed.

ghost use Rattle.std.specs.{
  Prelude.{◌≡◌, ◌==◌, [], ◌∷◌, ◌++◌, false, OnOk, OnErr},
  Option.{option_copied},
  Map.{lookup},
  Cmp.Lexicographic.{pointwise},
};
ghost use Rattle.world_state.specs.KnownCodes.{KnownCodes, is_used};

use indexmap::IndexMap;
use lc_base::{Memory, Name, Resources};
use std::hash::RandomState;
use std::marker::Model;

/// The codes in the order of deployment: those that can be called, and then those that the block at
/// work deployed.
#[derive(Drop)]
pub(crate) struct Codes<C> {
    codes: IndexMap<Name, C, RandomState>,
    /// How many of the codes can be called.
    committed: usize,
}

impl<C> Model for Codes<C> {
    ghost use Rattle.std.specs.Prelude.{◌≤◌, ℕ, List, length, take, drop};
    ghost use Rattle.world_state.specs.KnownCodes.{KnownCodes};

    ghost Value = { KnownCodes C };

    ghost view = { λ codes. record { committed = take codes.committed codes.codes.entries; staged = drop codes.committed codes.codes.entries } };

    ghost invariant = { λ codes. codes.committed ≤ length codes.codes.entries };
}

impl<C> Codes<C> {
    /// No code. It takes no memory.
    pub(crate) fn new(resources: Resources) -> Codes<C>
        ensures { result ≡ record { committed = []; staged = [] } }
    {
        Codes {
            codes: IndexMap::with_hasher(resources.alloc, resources.hasher),
            committed: 0,
        }
    }

    /// The code of the contract of this name, among those that can be called.
    pub(crate) fn get(&self, name: &Name) -> Option<&C>
        ensures { option_copied result ≡ lookup (pointwise ◌==◌ name.now) self.now.committed }
    {
        match self.codes.get_full(name) {
            None => None,
            Some((index, _name, code)) => {
                if index < self.committed {
                    Some(code)
                } else {
                    None
                }
            }
        }
    }

    /// Whether a code has this name, also one that is only staged.
    pub(crate) fn is_used(&self, name: &Name) -> bool
        ensures { result ≡ is_used self.now name.now }
    {
        self.codes.contains_key(name)
    }

    /// The staged codes become codes that can be called, after those so far.
    pub(crate) fn commit(&mut self)
        ensures { self.new ≡ record { committed = self.old.committed ++ self.old.staged; staged = [] } }
    {
        self.committed = self.codes.len();
    }
}

impl<C: Drop> Codes<C> {
    /// Stages a code of a new name. Out of memory, nothing changes.
    pub(crate) fn add(&mut self, name: Name, code: C) -> Result<(), Memory>
        requires { is_used self.old name ≡ false }
        ensures ok { OnOk result (self.new ≡ record self.old { staged = self.old.staged ++ (name, code) ∷ [] }) }
        ensures err { OnErr result (self.new ≡ self.old) }
    {
        self.codes.insert(name, code)?;
        Ok(())
    }
}
