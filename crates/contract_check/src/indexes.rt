//! The indexes of names among entries: that of each name's first entry, in a tree ordered by the
//! numbers of the names.

ghost use Rattle.std.specs.{
  Prelude.{◌≡◌, ◌==◌, ℕ, List, take, position, OnOk, OnErr},
  Cmp.Lexicographic.{pointwise},
};
ghost use Rattle.lc_base.specs.NameBytes.{IsName};
ghost use Rattle.contract_check.specs.Indexes.{noted_index, noted_with, noted_without, AreNoted};

use crate::code::code_of;
use lc_base::{Memory, Name};
use std::collections::BTreeMap;

/// The index of a name, found by comparing it with each entry's.
pub(crate) fn index_among<T>(entries: &[(Name, T)], name: &Name) -> Option<usize>
    ensures { result ≡ position (λ (entry : List ℕ × T). pointwise ◌==◌ name.now entry.0) entries.now }
{
    entries.iter().position(|entry| *name == entry.0)
}

/// Records the index of a name, unless an earlier one is recorded. If memory runs out, nothing
/// changes.
pub(crate) fn note_index(
    indexes: &mut BTreeMap<u128, usize>,
    name: &Name,
    index: usize,
) -> Result<(), Memory>
    ensures ok { OnOk result ((other : List ℕ) → IsName other → noted_index indexes.new other ≡ noted_with name.now index other (noted_index indexes.old other)) }
    ensures err { OnErr result ((other : List ℕ) → noted_index indexes.new other ≡ noted_index indexes.old other) }
{
    let code = code_of(name);
    if !indexes.contains_key(&code) {
        indexes.insert(code, index)?;
    }
    Ok(())
}

/// Removes this index of a name, if it is the recorded one.
pub(crate) fn forget_index(indexes: &mut BTreeMap<u128, usize>, name: &Name, index: usize)
    ensures { (other : List ℕ) → IsName other → noted_index indexes.new other ≡ noted_without name.now index other (noted_index indexes.old other) }
{
    let code = code_of(name);
    if indexes.get(&code).copied() == Some(index) {
        indexes.remove(&code);
    }
}

/// Removes the indexes of all but the `count` oldest entries.
pub(crate) fn forget_indexes<T>(
    indexes: &mut BTreeMap<u128, usize>,
    entries: &[(Name, T)],
    count: usize,
)
    requires { AreNoted entries.now indexes.old }
    ensures { AreNoted (take count entries.now) indexes.new }
{
    for index in (count..entries.len()).rev() {
        forget_index(indexes, &entries[index].0, index);
    }
}
