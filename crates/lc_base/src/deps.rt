//! Dependencies of a version, without repeats.

ghost use Rattle.std.specs.{Prelude.{◌≡◌, ◌≢◌, ◌≤◌, length, IfOk, OnOk}, List.{All, AllPairs}};
ghost use Rattle.lc_base.specs.Deps.{is_same_dep, without_repeats, is_among, with_once};

use crate::list::DepList;
use crate::memory::Memory;
use crate::row::Dep;
use std::alloc::Global;

fn is_same_dep(a: &Dep, b: &Dep) -> bool
    ensures { result ≡ is_same_dep a.now b.now }
{
    a.key == b.key && a.block == b.block
}

fn is_among(deps: &[Dep], dep: &Dep) -> bool
    ensures { result ≡ is_among deps.now dep.now }
{
    deps.iter().any(|other| is_same_dep(other, dep))
}

/// Appends the dependency, unless it is in the list.
fn push_once(deps: &mut DepList, dep: &Dep) -> Result<(), Memory>
    ensures { OnOk result (deps.new ≡ with_once deps.old dep.now) }
{
    if is_among(deps.as_slice(), dep) {
        return Ok(());
    }
    deps.push(*dep)
}

impl DepList {
    /// These dependencies, each once, at its first place.
    pub fn without_repeats(alloc: Global, deps: &[Dep]) -> Result<DepList, Memory>
        ensures list { IfOk result (λ list. list ≡ without_repeats deps.now) }
        ensures once { IfOk result (λ list. AllPairs ◌≢◌ list) }
        ensures short { IfOk result (λ list. length list ≤ length deps.now) }
    {
        let mut list = DepList::new(alloc);
        for dep in deps {
            push_once(&mut list, dep)?;
        }
        Ok(list)
    }
}
