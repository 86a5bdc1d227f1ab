//! An ordered map by block and key, in reverse: its first entry is the last version that is wanted.

ghost use Rattle.std.specs.{
  Prelude.{◌≡◌, ◌∷◌, [], false, MatchOption, IfNone, IfErr, OnOk, OnErr},
  List.{list_any},
};
ghost use Rattle.lc_base.specs.Answers.{Answers};
ghost use Rattle.proof_verifier.specs.{
  proof_checks.TraceChecks.{has_other_digest, with_dep},
  proof_checks.Checks.{dep_of},
};
ghost use Rattle.root_laws.specs.{Ancestors.{inserted}, Naming.{is_named}};
ghost use Rattle.trace_verifier.specs.{Errors.{fault_told}, Wanting.{BecomesWanted, MayRunOut}};

use crate::error::TraceError;
use lc_base::{Digest, Key, Memory};
use proof_verifier::TraceReject;
use prov_entry::BodyDep;
use std::alloc::Global;
use std::cmp::Reverse;
use std::collections::BTreeMap;
use std::marker::Model;

/// Versions that are wanted, each with the digest of its header: the latest block first, and in one
/// block the greatest key.
#[derive(Drop)]
pub struct Wanted {
    entries: BTreeMap<Reverse<(u32, Key)>, Digest>,
}

impl Model for Wanted {
    ghost use Rattle.std.specs.Prelude.{List, map};
    ghost use Rattle.prov_entry.specs.declared.entry.BodyDep.{BodyDep as Item};
    ghost use Rattle.trace_verifier.specs.Places.{dep_at};

    ghost Value = { List Item };

    ghost view = { λ wanted. map dep_at wanted.entries.entries };
}

impl Wanted {
    /// Nothing is wanted. It takes no memory.
    pub fn new(alloc: Global) -> Wanted
        ensures { result ≡ [] }
    {
        Wanted {
            entries: BTreeMap::new(alloc),
        }
    }

    /// Removes and returns the last version, or `None` if nothing is wanted.
    pub fn take_last(&mut self) -> Option<BodyDep>
        ensures taken { MatchOption result (self.old ≡ []) (λ last. self.old ≡ last ∷ self.new) }
        ensures none { IfNone result (self.new ≡ []) }
    {
        match self.entries.pop_first() {
            None => None,
            Some((Reverse((block, key)), digest)) => Some(BodyDep { key, block, digest }),
        }
    }

    /// Whether the version of a dependency is wanted by another digest.
    fn has_other_digest(&self, dep: &BodyDep) -> bool
        ensures { result ≡ list_any (has_other_digest dep.now) self.now }
    {
        // The contract of `len` has the order of the entries.
        let _count = self.entries.len();
        match self.entries.get(&Reverse((dep.block, dep.key))) {
            None => false,
            Some(digest) => digest.0 != dep.digest.0,
        }
    }

    /// Inserts a dependency whose version isn't wanted by another digest. If memory runs out,
    /// which it does only if the version isn't wanted yet, nothing changes.
    #[tactic(auto, using(crate::proofs::Placed::put_in))]
    fn put(&mut self, dep: &BodyDep) -> Result<(), Memory>
        requires { list_any (has_other_digest dep.now) self.old ≡ false }
        ensures ok { OnOk result (self.new ≡ inserted dep_of dep.now self.old) }
        ensures err { OnErr result (self.new ≡ self.old) }
        ensures short { OnErr result
            (list_any (is_named dep.now.key dep.now.block) self.old ≡ false) }
    {
        self.entries
            .insert(Reverse((dep.block, dep.key)), dep.digest)?;
        Ok(())
    }

    /// Inserts a dependency of the item with this number, whose version is in `block`. An error if
    /// its version isn't of an earlier block, if it is wanted by another digest, or if memory runs
    /// out; then nothing changes. A dependency that is wanted already changes nothing either, and
    /// takes no memory.
    #[tactic(auto, using(crate::proofs::Adding::one_added, crate::proofs::Adding::becomes_wanted))]
    pub fn add(&mut self, item: u32, block: u32, dep: &BodyDep) -> Result<(), TraceError>
        ensures adds { Answers (λ done. self.new) fault_told result
            (with_dep item block dep.now self.old) }
        ensures err { OnErr result (self.new ≡ self.old) }
        ensures short { IfErr result (MayRunOut
            (λ short. (short ≡ item) × BecomesWanted block dep.now self.old) ⊥) }
    {
        if dep.block >= block {
            return Err(TraceError::Rejected(TraceReject::Late { item }));
        }
        if self.has_other_digest(dep) {
            return Err(TraceError::Rejected(TraceReject::Two { item }));
        }
        match self.put(dep) {
            Ok(()) => Ok(()),
            Err(Memory) => Err(TraceError::WantedMemory { item }),
        }
    }
}
