//! The versions that were reached and not yet looked up, in order.

ghost use Rattle.std.specs.Prelude.{◌≡◌, ◌∷◌, [], MatchOption, OnOk};
ghost use Rattle.root_laws.specs.Ancestors.{itself, inserted, all_inserted};

use lc_base::{Dep, Key, Memory};
use std::alloc::Global;
use std::cmp::Reverse;
use std::collections::BTreeSet;
use std::marker::Model;

/// Versions, each once: the last one first, by block and in one block by key.
#[derive(Drop)]
pub struct Wanted {
    places: BTreeSet<Reverse<(u32, Key)>>,
}

impl Model for Wanted {
    ghost use Rattle.std.specs.Prelude.{List, map};
    ghost use Rattle.lc_base.specs.declared.row.Dep.{Dep as Version};
    ghost use Rattle.root_laws.specs.Places.{version_at};

    ghost Value = { List Version };

    ghost view = { λ wanted. map version_at wanted.places.keys };
}

impl Wanted {
    /// No version.
    pub fn new(alloc: Global) -> Wanted
        ensures { result ≡ [] }
    {
        Wanted {
            places: BTreeSet::new(alloc),
        }
    }

    /// Takes the last version out; `None` exactly if there is none.
    pub fn take_last(&mut self) -> Option<Dep>
        ensures { MatchOption result (self.old ≡ []) (λ last. self.old ≡ last ∷ self.new) }
    {
        match self.places.pop_first() {
            None => None,
            Some(Reverse((block, key))) => Some(Dep { key, block }),
        }
    }

    /// Inserts a version, unless it is there.
    fn insert(&mut self, version: &Dep) -> Result<(), Memory>
        ensures { OnOk result (self.new ≡ inserted itself version.now self.old) }
    {
        self.places.insert(Reverse((version.block, version.key)))?;
        Ok(())
    }
}

/// Inserts versions, one after another.
pub fn insert_all(wanted: &mut Wanted, versions: &[Dep]) -> Result<(), Memory>
    ensures { OnOk result (wanted.new ≡ all_inserted itself versions.now wanted.old) }
{
    for version in versions {
        wanted.insert(version)?;
    }
    Ok(())
}
