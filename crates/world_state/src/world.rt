//! A world shows the state before the block at work. What the block writes and deploys is staged,
//! and a commit makes it the state.

ghost use Rattle.std.specs.{
  Prelude.{◌≡◌, ◌==◌, false, ℕ, List, [], ◌∷◌, ◌++◌, map, None, Some, MatchOption, IfOk, OnOk, OnErr},
  Option.{option_copied, option_or},
  Cmp.Lexicographic.{pointwise},
  Map.{lookup},
};
ghost use Rattle.indexmap.specs.IndexMap.{insert_all};
ghost use Rattle.lc_base.specs.declared.row.Row.{Row};
ghost use Rattle.world_state.specs.{
  Rows.{entry_of, newest_staged, held_in},
  World.{newest_of, newest_after, is_written, code_of, is_raw, is_taken, StandsForRows},
};

use crate::codes::Codes;
use crate::held::Held;
use crate::limits::RAW_NAME;
use crate::staged::Staged;
use indexmap::IndexMap;
use lc_base::{Key, Memory, Name, Resources, RowList, Value};
use std::hash::RandomState;
use std::marker::Model;

/// The newest version of each key, the codes that can be called, and what the block at work has
/// staged. `C` is what is kept of a contract.
#[derive(Drop)]
pub struct World<C> {
    newest: IndexMap<Key, Held, RandomState>,
    codes: Codes<C>,
    staged: Staged,
}

impl<C> Model for World<C> {
    ghost use Rattle.world_state.specs.Known.{Known};

    ghost Value = { Known C };

    ghost view = { λ world. record { newest = world.newest.entries; codes = world.codes.committed; staged = world.staged; staged_codes = world.codes.staged } };
}

fn is_raw(name: &Name) -> bool
    ensures { result ≡ is_raw name.now }
{
    name.as_bytes() == RAW_NAME.as_slice()
}

/// Each entry in turn becomes the newest version of its key. A key stays in the place of its first
/// version.
fn add_newest(
    newest: &mut IndexMap<Key, Held, RandomState>,
    entries: Vec<(Key, Held)>,
) -> Result<(), Memory>
    ensures order { OnOk result (newest.new.entries ≡ insert_all (pointwise ◌==◌) newest.old.entries entries.items) }
    ensures newest { OnOk result ((key : List ℕ) → lookup (pointwise ◌==◌ key) newest.new.entries ≡ option_or (newest_staged entries.items key) (lookup (pointwise ◌==◌ key) newest.old.entries)) }
{
    newest.extend(entries)?;
    Ok(())
}

impl<C> World<C> {
    /// No version and no code. It takes no memory.
    pub fn new(resources: Resources) -> World<C>
        ensures { result ≡ record { newest = []; codes = []; staged = []; staged_codes = [] } }
    {
        World {
            newest: IndexMap::with_hasher(resources.alloc, resources.hasher),
            codes: Codes::new(resources),
            staged: Staged::new(resources),
        }
    }

    /// The block and the value of the newest version of the key before the block at work; `None`
    /// exactly if there is none.
    pub fn value(&self, key: &Key) -> Option<(u32, &Value)>
        ensures { MatchOption result (newest_of self.now key.now ≡ None)
            (λ found. newest_of self.now key.now ≡ Some (record { block = found.0; value = found.1.now })) }
    {
        match self.newest.get(key) {
            None => None,
            Some(held) => Some((held.block, &held.value)),
        }
    }

    /// Whether the block at work has written the key.
    pub fn written(&self, key: &Key) -> bool
        ensures { result ≡ is_written self.now key.now }
    {
        self.staged.has(key)
    }

    /// The code of the contract of this name; `None` exactly if no block before the block at work
    /// deployed one.
    pub fn code(&self, name: &Name) -> Option<&C>
        ensures { option_copied result ≡ code_of self.now name.now }
    {
        self.codes.get(name)
    }

    /// Whether no contract of this name can be deployed: the name is `raw`, or a contract has it,
    /// also one that the block at work deployed.
    pub fn taken(&self, name: &Name) -> bool
        ensures { result ≡ is_taken self.now name.now }
    {
        is_raw(name) || self.codes.is_used(name)
    }

    /// Stages the versions of rows that the block at work wrote. Out of memory, the world stays as
    /// it was.
    pub fn stage(&mut self, rows: &RowList) -> Result<(), Memory>
        ensures ok { OnOk result (self.new ≡ record self.old { staged = self.old.staged ++ map entry_of rows.now }) }
        ensures err { OnErr result (self.new ≡ self.old) }
    {
        self.staged.add(rows.as_slice())
    }
}

impl<C: Drop> World<C> {
    /// Stages the code of a contract that the block at work deployed. Out of memory, the world
    /// stays as it was.
    pub fn stage_code(&mut self, name: Name, code: C) -> Result<(), Memory>
        requires { is_taken self.old name ≡ false }
        ensures ok { OnOk result (self.new ≡ record self.old { staged_codes = self.old.staged_codes ++ (name, code) ∷ [] }) }
        ensures err { OnErr result (self.new ≡ self.old) }
    {
        self.codes.add(name, code)
    }

    /// What was staged becomes the newest: of each key the version staged last, and the codes after
    /// those so far. Nothing is staged then. The keys of versions are in the order in which they
    /// were first written. On `Memory` the world is given up.
    pub fn commit(self) -> Result<World<C>, Memory>
        ensures order { IfOk result (λ world. world.newest ≡ insert_all (pointwise ◌==◌) self.newest self.staged) }
        ensures newest { IfOk result (λ world. (key : List ℕ) → newest_of world key ≡ newest_after self key) }
        ensures codes { IfOk result (λ world. world.codes ≡ self.codes ++ self.staged_codes) }
        ensures no_rows { IfOk result (λ world. world.staged ≡ []) }
        ensures no_codes { IfOk result (λ world. world.staged_codes ≡ []) }
        ensures rows { (rows more : List Row) → StandsForRows self rows → self.staged ≡ map entry_of more
            → IfOk result (λ world. StandsForRows world (rows ++ more)) }
    {
        let World {
            mut newest,
            mut codes,
            staged,
        } = self;
        let resources = Resources {
            alloc: *newest.allocator(),
            hasher: *newest.hasher(),
        };
        add_newest(&mut newest, staged.into_entries())?;
        codes.commit();
        Ok(World {
            newest,
            codes,
            staged: Staged::new(resources),
        })
    }
}
