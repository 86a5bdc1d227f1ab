//! The host of a running contract: it answers questions about the history.

ghost use Rattle.std.specs.Prelude.{◌≡◌, ℕ, ◌^◌, ◌<◌, List, Option, IfSome, IfOk, IsErrOf};
ghost use Rattle.lc_base.specs.{
  Faults.{HasCause},
  History.{scan},
  Parts.{question, version_in, count_in, item_in},
  declared.row.Row.{Row},
};

use crate::answer::Kind;
use crate::host_error::HostError;
use crate::key::Key;
use crate::row::{Dep, Row, Version};
use std::alloc::Global;

/// A history that answers questions one part at a time. "The version" is the newest version of the
/// key in the blocks up to `at`. A question leaves the history as it was, also if the host failed
/// to answer it.
pub trait Host {
    /// The rows of the history, in order, or `None` if they are not known.
    ghost rows: { Self → Option (List Row) };
    /// How many calls failed, up to the last value of a `u64`.
    ghost host_faults: { Self → ℕ };
    /// What must hold before each call.
    ghost ready: { Self → Type 0 };
    /// Two states of a host that have the same history.
    ghost same: { Self → Self → Type 0 };

    /// The version, or `None` if there is none.
    fn hist(&mut self, alloc: Global, key: &Key, at: u32) -> Result<Option<Version>, HostError>
        requires { ready self.old }
        ensures same { same self.old self.new }
        ensures answer { IfSome (rows self.old) (λ rows. IfOk result
            (λ version. version ≡ version_in (scan rows (question Kind.Hist key.now at)))) }
        ensures cause { HasCause (host_faults self.old) (host_faults self.new)
            (IsErrOf result HostError.Fault) };

    /// How many dependencies the version has, or `None` if there is no version.
    fn back_count(&mut self, key: &Key, at: u32) -> Result<Option<u32>, HostError>
        requires { ready self.old }
        ensures same { same self.old self.new }
        ensures answer { IfSome (rows self.old) (λ rows. IfOk result
            (λ count. count ≡ count_in (scan rows (question Kind.Back key.now at)))) }
        ensures cause { HasCause (host_faults self.old) (host_faults self.new)
            (IsErrOf result HostError.Fault) };

    /// The dependency of the version at an index, from 0, or `None` if there is no version or the
    /// index is past the end.
    fn back_at(&mut self, key: &Key, at: u32, index: u32) -> Result<Option<Dep>, HostError>
        requires { ready self.old }
        ensures same { same self.old self.new }
        ensures answer { IfSome (rows self.old) (λ rows. IfOk result
            (λ dep. dep ≡ item_in index (scan rows (question Kind.Back key.now at)))) }
        ensures cause { HasCause (host_faults self.old) (host_faults self.new)
            (IsErrOf result HostError.Fault) };

    /// How many versions were derived from the version, fewer than 2^63, or `None` if there is no
    /// version.
    fn fwd_count(&mut self, key: &Key, at: u32) -> Result<Option<u64>, HostError>
        requires { ready self.old }
        ensures same { same self.old self.new }
        ensures answer { IfSome (rows self.old) (λ rows. IfOk result
            (λ count. count ≡ count_in (scan rows (question Kind.Fwd key.now at)))) }
        ensures bound { IfOk result (λ count. IfSome count (λ n. n < 2 ^ 63)) }
        ensures cause { HasCause (host_faults self.old) (host_faults self.new)
            (IsErrOf result HostError.Fault) };

    /// The version at an index, from 0, among those derived from the version, in the order of their
    /// rows; `None` if there is no version or the index is past the end.
    fn fwd_at(&mut self, key: &Key, at: u32, index: u64) -> Result<Option<Dep>, HostError>
        requires { ready self.old }
        ensures same { same self.old self.new }
        ensures answer { IfSome (rows self.old) (λ rows. IfOk result
            (λ dep. dep ≡ item_in index (scan rows (question Kind.Fwd key.now at)))) }
        ensures cause { HasCause (host_faults self.old) (host_faults self.new)
            (IsErrOf result HostError.Fault) };

    ghost same_refl: { (s : Self) → same s s };

    ghost same_trans: { (s t u : Self) → same s t → same t u → same s u };

    ghost same_ready: { (s t : Self) → same s t → ready s → ready t };

    ghost same_rows: { (s t : Self) → same s t → rows t ≡ rows s };
}
