//! The rows as a host of contracts that run: each part of an answer is looked up, and no list is
//! made for a count or an item.

ghost use Rattle.std.{
  specs.Prelude.{◌≡◌, refl, ◌^◌, ◌<◌, ◌≤◌, Some, IfSome, IfOk, IsErrOf},
  proofs.Common.{◌∙◌, ap},
};
ghost use Rattle.lc_base.specs.{
  Faults.{HasCause},
  History.{scan},
  Parts.{question, count_in, item_in, version_in},
  declared.limits.TheConstants.{MAX_DEPS},
};
ghost use Rattle.plain_rows.specs.Kept.{KeepsRows, rows_of};

use crate::asking::{count, item, version};
use crate::index::RowsIndex;
use crate::kept::KeptRow;
use crate::rows::PlainRows;
use lc_base::{Dep, Host, HostError, Key, Kind, Memory, Query, Version};
use std::alloc::Global;

fn hist(
    alloc: Global,
    rows: &[KeptRow],
    index: &Option<RowsIndex>,
    query: &Query,
) -> Result<Option<Version>, Memory>
    requires { KeepsRows (rows_of rows.now) rows.now index.now }
    ensures { IfOk result (λ version. version ≡ version_in (scan (rows_of rows.now) (question Kind.Hist query.now.key query.now.at))) }
{
    match index {
        None => Err(Memory),
        Some(index) => version(alloc, rows, index, &query.key, query.at),
    }
}

fn count_asked(
    rows: &[KeptRow],
    index: &Option<RowsIndex>,
    query: &Query,
) -> Result<Option<u64>, HostError>
    requires { KeepsRows (rows_of rows.now) rows.now index.now }
    ensures count { IfOk result (λ count. count ≡ count_in (scan (rows_of rows.now) query.now)) }
    ensures bound { IfOk result (λ count. IfSome count (λ n. n < 2 ^ 63)) }
    ensures few { query.now.kind ≡ Kind.Back → IfOk result (λ count. IfSome count (λ n. n ≤ MAX_DEPS)) }
    ensures cause { HasCause 0 0 (IsErrOf result HostError.Fault) }
{
    match index {
        None => Err(HostError::Memory),
        Some(index) => Ok(count(rows, index, query)),
    }
}

fn item_asked(
    rows: &[KeptRow],
    index: &Option<RowsIndex>,
    query: &Query,
    place: usize,
) -> Result<Option<Dep>, HostError>
    requires { KeepsRows (rows_of rows.now) rows.now index.now }
    ensures item { IfOk result (λ dep. dep ≡ item_in place (scan (rows_of rows.now) query.now)) }
    ensures cause { HasCause 0 0 (IsErrOf result HostError.Fault) }
{
    match index {
        None => Err(HostError::Memory),
        Some(index) => Ok(item(rows, index, query, place)),
    }
}

/// A number of dependencies: a version has few.
fn dep_count(count: Option<u64>) -> Option<u32>
    requires { IfSome count (λ n. n ≤ MAX_DEPS) }
    ensures { result ≡ count }
{
    match count {
        None => None,
        Some(count) => Some(count as u32),
    }
}

/// The question of this kind about a key up to a block.
fn question(kind: Kind, key: &Key, at: u32) -> Query
    ensures { result ≡ question kind key.now at }
{
    Query {
        kind,
        key: *key,
        at,
    }
}

impl Host for PlainRows {
    ghost rows = { λ s. Some s };

    ghost host_faults = { λ _. 0 };

    ghost ready = { λ _. Unit {0} };

    ghost same = { λ s t. t ≡ s };

    fn hist(&mut self, alloc: Global, key: &Key, at: u32) -> Result<Option<Version>, HostError> {
        let query = question(Kind::Hist, key, at);
        match hist(alloc, self.rows.as_slice(), &self.index, &query) {
            Ok(version) => Ok(version),
            Err(Memory) => Err(HostError::Memory),
        }
    }

    fn back_count(&mut self, key: &Key, at: u32) -> Result<Option<u32>, HostError> {
        let query = question(Kind::Back, key, at);
        Ok(dep_count(count_asked(self.rows.as_slice(), &self.index, &query)?))
    }

    fn back_at(&mut self, key: &Key, at: u32, index: u32) -> Result<Option<Dep>, HostError> {
        let query = question(Kind::Back, key, at);
        item_asked(self.rows.as_slice(), &self.index, &query, index as usize)
    }

    fn fwd_count(&mut self, key: &Key, at: u32) -> Result<Option<u64>, HostError> {
        let query = question(Kind::Fwd, key, at);
        count_asked(self.rows.as_slice(), &self.index, &query)
    }

    fn fwd_at(&mut self, key: &Key, at: u32, index: u64) -> Result<Option<Dep>, HostError> {
        let query = question(Kind::Fwd, key, at);
        item_asked(self.rows.as_slice(), &self.index, &query, index as usize)
    }

    ghost same_refl = { λ s. refl };

    ghost same_trans = { λ s t u p q. q ∙ p };

    ghost same_ready = { λ s t p r. r };

    ghost same_rows = { λ s t p. ap Some p };
}
