//! The names of functions that are taken.

ghost use Rattle.std.specs.{
  Prelude.{◌≡◌, [], ◌==◌, ◌∷◌, ◌++◌, not, if◌then◌else◌, IfOk, OnOk},
  List.{list_any},
  Cmp.Lexicographic.{pointwise},
};

use crate::table::NameTable;
use lc_base::{Memory, Name};
use std::alloc::Global;
use std::marker::Model;

/// The names that are taken, oldest first.
#[derive(Drop)]
pub struct UsedNames {
    names: NameTable<()>,
}

impl Model for UsedNames {
    ghost use Rattle.std.specs.Prelude.{ℕ, List};
    ghost use Rattle.std.specs.Map.{keys_of};

    ghost Value = { List (List ℕ) };

    ghost view = { λ used. keys_of used.names };
}

impl UsedNames {
    /// No names. It takes no memory.
    pub fn new(alloc: Global) -> UsedNames
        ensures { result ≡ [] }
    {
        UsedNames {
            names: NameTable::new(alloc),
        }
    }

    /// Adds a name, and returns whether it is new.
    pub fn add(&mut self, name: &Name) -> Result<bool, Memory>
        ensures is_new { IfOk result (λ is_new. is_new ≡ not (list_any (pointwise ◌==◌ name.now) self.old)) }
        ensures added { OnOk result (self.new ≡ (if list_any (pointwise ◌==◌ name.now) self.old then self.old else self.old ++ name.now ∷ [])) }
    {
        let is_new = !self.names.contains(name);
        if is_new {
            self.names.push(name, ())?;
        }
        Ok(is_new)
    }
}
