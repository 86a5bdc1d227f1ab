//! A lineage and the device that keeps its bodies, as the host of contracts that run.

ghost use Rattle.std.{
  specs.{
    Prelude.{◌≡◌, ◌<◌, ◌^◌, None, Ok, IfSome, IfOk, IsErrOf, refl},
    Option.{is_some},
  },
  proofs.Common.{◌∙◌},
};
ghost use Rattle.lc_base.specs.{
  Faults.{HasCause},
  History.{latest, scan},
  Parts.{question, version_in, count_in, item_in},
};
ghost use Rattle.merkle_dag.specs.{
  Lineage.{AgreesWith},
  Staying.{stays_refl, stays_trans},
};
ghost use Rattle.prov_query.specs.{
  Bodiless.{IsButForValue},
  Telling.{rows_read, stays_known, IsSameReading},
};

use crate::found::Found;
use crate::parts::{fwd_at, fwd_count};
use entry_views::{dep_count_of_bytes, dep_of_bytes, value_of_bytes};
use lc_base::{Dep, Host, HostError, Key, Kind, Version};
use lc_io::Scratch;
use merkle_dag::{Counter, Lineage, Steps};
use std::alloc::Global;

/// The counter of the entries that are read for a contract that runs, which nobody asks for. Counts
/// of it are begun in this file alone.
struct Running;

impl Counter for Running {
    ghost use Rattle.std.specs.Prelude.{true};

    ghost may_begin = { true };
}

/// A lineage, lent together with the device that keeps its bodies.
#[derive(Drop)]
pub struct Reading<'a, S: Scratch> {
    pub lineage: &'a mut Lineage,
    pub scratch: &'a mut S,
}

impl<'a, S: Scratch> Host for Reading<'a, S> {
    ghost rows = { rows_read S.state };

    ghost host_faults = { λ s. S.scratch_faults s.scratch.now };

    ghost ready = { λ s. AgreesWith s.lineage.now (S.state s.scratch.now) };

    ghost same = { IsSameReading S.state };

    /// If it is not known which bytes the device holds, nothing is promised of the value.
    fn hist(&mut self, alloc: Global, key: &Key, at: u32) -> Result<Option<Version>, HostError>
        requires { AgreesWith self.old.lineage.now (S.state self.old.scratch.now) }
        ensures same { IsSameReading S.state self.old self.new }
        ensures answer { IfSome (rows_read S.state self.old) (λ rows. IfOk result
            (λ version. version ≡ version_in (scan rows (question Kind.Hist key.now at)))) }
        ensures always { IfOk result (IsButForValue (version_in
            (scan self.old.lineage.now.rows (question Kind.Hist key.now at)))) }
        ensures cause { HasCause (S.scratch_faults self.old.scratch.now)
            (S.scratch_faults self.new.scratch.now) (IsErrOf result HostError.Fault) }
    {
        let mut steps = Steps::<Running>::new();
        match Found::latest(self.lineage, self.scratch, key, at, &mut steps)? {
            None => Ok(None),
            Some(Found { block, tx, body }) => {
                let value = value_of_bytes(alloc, &body)?;
                Ok(Some(Version { block, tx, value }))
            }
        }
    }

    /// If it is not known which bytes the device holds, it is promised alone whether there is a
    /// count.
    fn back_count(&mut self, key: &Key, at: u32) -> Result<Option<u32>, HostError>
        requires { AgreesWith self.old.lineage.now (S.state self.old.scratch.now) }
        ensures same { IsSameReading S.state self.old self.new }
        ensures answer { IfSome (rows_read S.state self.old) (λ rows. IfOk result
            (λ count. count ≡ count_in (scan rows (question Kind.Back key.now at)))) }
        ensures always { IfOk result (λ count. is_some count ≡ is_some (count_in
            (scan self.old.lineage.now.rows (question Kind.Back key.now at)))) }
        ensures cause { HasCause (S.scratch_faults self.old.scratch.now)
            (S.scratch_faults self.new.scratch.now) (IsErrOf result HostError.Fault) }
    {
        let mut steps = Steps::<Running>::new();
        match Found::latest(self.lineage, self.scratch, key, at, &mut steps)? {
            None => Ok(None),
            Some(found) => Ok(Some(dep_count_of_bytes(&found.body))),
        }
    }

    /// If it is not known which bytes the device holds, it is promised alone that there is none
    /// without a version.
    fn back_at(&mut self, key: &Key, at: u32, index: u32) -> Result<Option<Dep>, HostError>
        requires { AgreesWith self.old.lineage.now (S.state self.old.scratch.now) }
        ensures same { IsSameReading S.state self.old self.new }
        ensures answer { IfSome (rows_read S.state self.old) (λ rows. IfOk result
            (λ dep. dep ≡ item_in index (scan rows (question Kind.Back key.now at)))) }
        ensures always { latest self.old.lineage.now.rows key.now at ≡ None
            → IfOk result (λ dep. dep ≡ None) }
        ensures cause { HasCause (S.scratch_faults self.old.scratch.now)
            (S.scratch_faults self.new.scratch.now) (IsErrOf result HostError.Fault) }
    {
        let mut steps = Steps::<Running>::new();
        match Found::latest(self.lineage, self.scratch, key, at, &mut steps)? {
            None => Ok(None),
            Some(found) => Ok(dep_of_bytes(&found.body, index)),
        }
    }

    fn fwd_count(&mut self, key: &Key, at: u32) -> Result<Option<u64>, HostError>
        requires { AgreesWith self.old.lineage.now (S.state self.old.scratch.now) }
        ensures same { IsSameReading S.state self.old self.new }
        ensures answer { IfSome (rows_read S.state self.old) (λ rows. IfOk result
            (λ count. count ≡ count_in (scan rows (question Kind.Fwd key.now at)))) }
        ensures bound { IfOk result (λ count. IfSome count (λ n. n < 2 ^ 63)) }
        ensures always { result ≡ Ok (count_in
            (scan self.old.lineage.now.rows (question Kind.Fwd key.now at))) }
        ensures cause { HasCause (S.scratch_faults self.old.scratch.now)
            (S.scratch_faults self.new.scratch.now) (IsErrOf result HostError.Fault) }
    {
        let mut steps = Steps::<Running>::new();
        Ok(fwd_count(self.lineage, key, at, &mut steps))
    }

    fn fwd_at(&mut self, key: &Key, at: u32, index: u64) -> Result<Option<Dep>, HostError>
        requires { AgreesWith self.old.lineage.now (S.state self.old.scratch.now) }
        ensures same { IsSameReading S.state self.old self.new }
        ensures answer { IfSome (rows_read S.state self.old) (λ rows. IfOk result
            (λ dep. dep ≡ item_in index (scan rows (question Kind.Fwd key.now at)))) }
        ensures always { result ≡ Ok (item_in index
            (scan self.old.lineage.now.rows (question Kind.Fwd key.now at))) }
        ensures cause { HasCause (S.scratch_faults self.old.scratch.now)
            (S.scratch_faults self.new.scratch.now) (IsErrOf result HostError.Fault) }
    {
        let mut steps = Steps::<Running>::new();
        Ok(fwd_at(self.lineage, key, at, index, &mut steps))
    }

    ghost same_refl = { λ s. (refl, refl, stays_refl s.lineage.now (S.state s.scratch.now)) };

    ghost same_trans = { λ s t u p q. (
      q.0 ∙ p.0,
      q.1 ∙ p.1,
      stays_trans s.lineage.now (S.state s.scratch.now) t.lineage.now
          (S.state t.scratch.now) u.lineage.now (S.state u.scratch.now) p.2 q.2,
    ) };

    ghost same_ready = { λ s t p r. p.2.agrees r };

    ghost same_rows = { λ s t p. stays_known s.lineage.now (S.state s.scratch.now) t.lineage.now
        (S.state t.scratch.now) p.2 };
}
