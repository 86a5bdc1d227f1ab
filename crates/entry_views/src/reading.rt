//! Reads the bytes of a body. Bytes that don't begin with a body are read as the value 0 without
//! dependencies.

ghost use Rattle.std.specs.Prelude.{◌≡◌, length, map, slice_get, IfOk};
ghost use Rattle.lc_base.specs.declared.limits.TheConstants.{MAX_DEPS};
ghost use Rattle.byte_fields.specs.{Reader.{value_seen}, Spelling.{IsValue}};
ghost use Rattle.prov_entry.specs.Spelling.{IsBody};
ghost use Rattle.entry_views.specs.{
  Reading.{body_at},
  RowBodies.{body_read, body_standing, dep_without_digest},
};

use crate::body_dep_view::BodyDepView;
use crate::body_view::{BodyView, read_body};
use byte_fields::ValueView;
use lc_base::{Dep, DepList, Memory, Text, TextError, Value};
use prov_entry::{Body, BodyDep, BodyDepList};
use std::alloc::Global;

/// The body at the start of bytes; `None` if there is none.
#[tactic(auto, using(crate::proofs::Bodies::is_read, crate::proofs::Bodies::is_none))]
fn body_view(bytes: &[u8]) -> Option<BodyView<'_>>
    ensures { body_standing result ≡ body_read (body_at bytes.now) }
{
    read_body(bytes, 0).ok()
}

/// A copy of a value, which owns its text.
fn owned_value(alloc: Global, view: &ValueView) -> Result<Value, Memory>
    requires { IsValue (value_seen view.now) }
    ensures { IfOk result (λ value. value ≡ value_seen view.now) }
{
    match view {
        ValueView::Int(number) => Ok(Value::Int(*number)),
        ValueView::Text(bytes) => match Text::new(alloc, bytes) {
            Ok(text) => Ok(Value::Text(text)),
            Err(TextError::Memory) => Err(Memory),
            Err(_) => unreachable!(),
        },
        ValueView::Gone => Ok(Value::Gone),
    }
}

fn without_digest(dep: &BodyDep) -> Dep
    ensures { result ≡ dep_without_digest dep.now }
{
    Dep {
        key: dep.key,
        block: dep.block,
    }
}

/// A copy of dependencies, which owns its list.
fn owned_deps(alloc: Global, view: &BodyDepView) -> Result<BodyDepList, Memory>
    ensures { IfOk result (λ deps. deps ≡ view.now) }
{
    let mut deps = BodyDepList::new(alloc);
    for index in 0..view.len() {
        match view.get(index) {
            Some(dep) => deps.push(dep)?,
            None => unreachable!(),
        }
    }
    Ok(deps)
}

/// Dependencies without their digests.
fn without_digests(alloc: Global, view: &BodyDepView) -> Result<DepList, Memory>
    ensures { IfOk result (λ deps. deps ≡ map dep_without_digest view.now) }
{
    let mut deps = DepList::new(alloc);
    for index in 0..view.len() {
        match view.get(index) {
            Some(dep) => deps.push(without_digest(&dep))?,
            None => unreachable!(),
        }
    }
    Ok(deps)
}

/// The body that bytes spell. It has at most `MAX_DEPS` dependencies, and can be spelled.
pub fn body_of_bytes(alloc: Global, bytes: &[u8]) -> Result<Body, Memory>
    ensures body { IfOk result (λ body. body ≡ body_read (body_at bytes.now)) }
    ensures lawful { IfOk result IsBody }
{
    match body_view(bytes) {
        None => Ok(Body {
            value: Value::Int(0),
            deps: BodyDepList::new(alloc),
        }),
        Some(body) => {
            // By this call contracts know that the body can be spelled.
            let _spelled = body.bytes();
            let value = owned_value(alloc, &body.value())?;
            let deps = owned_deps(alloc, &body.deps())?;
            Ok(Body { value, deps })
        }
    }
}

/// The value of the body that bytes spell; 0 if they spell none.
pub fn value_of_bytes(alloc: Global, bytes: &[u8]) -> Result<Value, Memory>
    ensures { IfOk result (λ value. value ≡ (body_read (body_at bytes.now)).value) }
{
    match body_view(bytes) {
        None => Ok(Value::Int(0)),
        Some(body) => {
            // By this call contracts know that its value is one.
            let _spelled = body.bytes();
            owned_value(alloc, &body.value())
        }
    }
}

/// The dependencies of the body that bytes spell, in the order in which they were recorded; they
/// have no digests.
pub fn deps_of_bytes(alloc: Global, bytes: &[u8]) -> Result<DepList, Memory>
    ensures { IfOk result (λ deps. deps ≡ map dep_without_digest
        (body_read (body_at bytes.now)).deps) }
{
    match body_view(bytes) {
        None => Ok(DepList::new(alloc)),
        Some(body) => without_digests(alloc, &body.deps()),
    }
}

/// The number of dependencies of the body that bytes spell, at most `MAX_DEPS`.
pub fn dep_count_of_bytes(bytes: &[u8]) -> u32
    ensures { result ≡ length (body_read (body_at bytes.now)).deps }
{
    match body_view(bytes) {
        None => 0,
        Some(body) => {
            // By this call contracts know that they are at most `MAX_DEPS`.
            let _spelled = body.bytes();
            body.deps().len() as u32
        }
    }
}

/// The dependency at an index, from 0, of the body that bytes spell; `None` exactly past the end.
#[tactic(auto, using(crate::proofs::Bodies::dep_is))]
pub fn dep_of_bytes(bytes: &[u8], index: u32) -> Option<Dep>
    ensures { result ≡ slice_get (map dep_without_digest (body_read (body_at bytes.now)).deps) index }
{
    match body_view(bytes) {
        None => None,
        Some(body) => match body.deps().get(index as usize) {
            None => None,
            Some(dep) => Some(without_digest(&dep)),
        },
    }
}
