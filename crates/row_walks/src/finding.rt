//! What one lookup says of a version: what it was derived from directly.

ghost use Rattle.std.specs.Prelude.{◌≡◌, OnOk};
ghost use Rattle.root_laws.specs.Ancestors.{itself, all_inserted};
ghost use Rattle.row_walks.specs.Finding.{derived_in, deps_told};

use crate::wanted::{Wanted, insert_all};
use lc_base::{Answer, DepList, Memory};

/// A version: the number of its block, and what it was derived from directly.
#[derive(Drop)]
pub struct Derived {
    pub block: u32,
    pub deps: DepList,
}

/// What an answer to a question about dependencies says; `None` if there is no version.
pub fn derived_in(answer: Answer) -> Option<Derived>
    ensures { result ≡ derived_in answer }
{
    match answer {
        Answer::Back { block, deps } => Some(Derived { block, deps }),
        Answer::Nothing => None,
        Answer::Hist { .. } => None,
        Answer::Fwd { .. } => None,
    }
}

/// Inserts what a version that was looked up was derived from directly.
pub fn insert_found(wanted: &mut Wanted, found: &Option<Derived>) -> Result<(), Memory>
    ensures { OnOk result (wanted.new ≡ all_inserted itself (deps_told found.now) wanted.old) }
{
    match found {
        None => Ok(()),
        Some(derived) => insert_all(wanted, derived.deps.as_slice()),
    }
}
