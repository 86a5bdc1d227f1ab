//! A put depends on versions of keys that were read: of those that it names, or else of all.

ghost use Rattle.std.specs.{
  Prelude.{◌≡◌, ◌≢◌, Some, IfOk, filter_map},
  List.{AllPairs},
  Option.{option_copied},
};
ghost use Rattle.dep_capture.specs.{
  declared.access.Read.{Read},
  Capture.{dep_of_read, dep_named, deps_of, are_read},
};

use crate::access::Read;
use crate::keyed::Keyed;
use lc_base::{Dep, DepList, Key, KeyList, Memory};
use std::alloc::{AllocError, Global};

/// Whether each of the keys was read.
fn all_read(reads: &Keyed<Read>, keys: &[Key]) -> bool
    ensures { result ≡ are_read reads.now (Some keys.now) }
{
    keys.iter().all(|key| reads.has(key))
}

/// Whether each of the named keys was read, if keys are named.
pub(crate) fn are_read(reads: &Keyed<Read>, named: Option<&KeyList>) -> bool
    ensures { result ≡ are_read reads.now (option_copied named.entry) }
{
    match named {
        None => true,
        Some(keys) => all_read(reads, keys.as_slice()),
    }
}

/// The dependency on a key that was read; `None` if it had no version.
fn dep_of_read(read: &Read) -> Option<Dep>
    ensures { result ≡ dep_of_read read.now }
{
    let block = read.version?;
    Some(Dep {
        key: read.key,
        block,
    })
}

/// The dependency on a key; `None` if it was not read, or had no version.
fn dep_named(reads: &Keyed<Read>, key: &Key) -> Option<Dep>
    ensures { result ≡ dep_named reads.now key.now }
{
    dep_of_read(reads.get(key)?)
}

fn deps_of_reads(alloc: Global, reads: &[Read]) -> Result<Vec<Dep>, AllocError>
    ensures { IfOk result (λ deps. deps.items ≡ filter_map dep_of_read reads.now) }
{
    reads
        .iter()
        .filter_map(|read| dep_of_read(read))
        .collect(alloc)
}

fn deps_named(alloc: Global, reads: &Keyed<Read>, keys: &[Key]) -> Result<Vec<Dep>, AllocError>
    ensures { IfOk result (λ deps. deps.items ≡ filter_map (dep_named reads.now) keys.now) }
{
    keys.iter()
        .filter_map(|key| dep_named(reads, key))
        .collect(alloc)
}

/// The dependencies of a put: on all keys read so far, or on the named ones, in order, each once.
/// No key is read twice, so those on all keys have no repeat: looking for one would go over all
/// pairs of them, at each put of a loop.
pub(crate) fn deps_of(
    alloc: Global,
    reads: &Keyed<Read>,
    named: Option<&KeyList>,
) -> Result<DepList, Memory>
    requires { AllPairs (λ (a b : Read). a.key ≢ b.key) reads.now }
    ensures deps { IfOk result (λ deps. deps ≡ deps_of reads.now (option_copied named.entry)) }
    ensures once { IfOk result (λ deps. AllPairs ◌≢◌ deps) }
{
    match named {
        None => {
            let deps = deps_of_reads(alloc, reads.as_slice())?;
            Ok(DepList::from_vec(deps))
        }
        Some(keys) => {
            let deps = deps_named(alloc, reads, keys.as_slice())?;
            DepList::without_repeats(alloc, deps.as_slice())
        }
    }
}
