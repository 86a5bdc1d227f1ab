//! An answer that borrows from a proof is copied, so that it outlives the proof's bytes.

ghost use Rattle.std.specs.Prelude.{◌≡◌, map, IfOk, OnOk};
ghost use Rattle.lc_base.specs.TextBytes.{IsText};
ghost use Rattle.byte_fields.specs.{Reader.{value_seen}, Spelling.{IsValue}};
ghost use Rattle.proof_checks.specs.Checks.{dep_of};
ghost use Rattle.trace_verifier.specs.proof_verifier.Answering.{answer_seen, HasValue};
ghost use Rattle.proof_commands.specs.Copying.{with_dep};

use byte_fields::ValueView;
use entry_views::BodyDepView;
use lc_base::{Answer, Dep, DepList, Memory, Text, TextError, Value};
use proof_codec::UseView;
use prov_entry::BodyDep;
use std::alloc::Global;
use trace_verifier::Found;

/// Copies the bytes of a text.
fn text_of(alloc: Global, bytes: &[u8]) -> Result<Text, Memory>
    requires { IsText bytes.now }
    ensures { IfOk result (λ text. text ≡ bytes.now) }
{
    match Text::new(alloc, bytes) {
        Ok(text) => Ok(text),
        Err(TextError::Memory) => Err(Memory),
        Err(_) => unreachable!(),
    }
}

fn value_of(alloc: Global, value: ValueView) -> Result<Value, Memory>
    requires { IsValue (value_seen value) }
    ensures { IfOk result (λ copy. copy ≡ value_seen value.entry) }
{
    match value {
        ValueView::Int(number) => Ok(Value::Int(number)),
        ValueView::Text(bytes) => Ok(Value::Text(text_of(alloc, bytes)?)),
        ValueView::Gone => Ok(Value::Gone),
    }
}

fn put_dep(list: &mut DepList, dep: Option<BodyDep>) -> Result<(), Memory>
    ensures { OnOk result (list.new ≡ with_dep list.old dep) }
{
    match dep {
        None => Ok(()),
        Some(dep) => list.push(Dep {
            key: dep.key,
            block: dep.block,
        }),
    }
}

fn deps_of(alloc: Global, deps: &BodyDepView) -> Result<DepList, Memory>
    ensures { IfOk result (λ list. list ≡ map dep_of deps.now) }
{
    let mut list = DepList::new(alloc);
    for i in 0..deps.len() {
        put_dep(&mut list, deps.get(i))?;
    }
    Ok(list)
}

fn uses_of(alloc: Global, uses: &UseView) -> Result<DepList, Memory>
    ensures { IfOk result (λ list. list ≡ uses.now) }
{
    let mut rest = uses.again();
    let mut list = DepList::new(alloc);
    while let Some(dep) = rest.next() {
        list.push(dep)?;
    }
    Ok(list)
}

/// Copies an answer, with its texts and lists. `Memory` if the allocator has no room.
pub fn answer_of(alloc: Global, found: &Found) -> Result<Answer, Memory>
    requires { HasValue (answer_seen found.now) }
    ensures { IfOk result (λ answer. answer ≡ answer_seen found.now) }
{
    match found {
        Found::Nothing => Ok(Answer::Nothing),
        Found::Hist { block, tx, value } => Ok(Answer::Hist {
            block: *block,
            tx: *tx,
            value: value_of(alloc, *value)?,
        }),
        Found::Back { block, deps } => Ok(Answer::Back {
            block: *block,
            deps: deps_of(alloc, deps)?,
        }),
        Found::Fwd { block, uses } => Ok(Answer::Fwd {
            block: *block,
            uses: uses_of(alloc, uses)?,
        }),
    }
}
