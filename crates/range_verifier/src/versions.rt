//! The versions that are shown are copied, so that they outlive the bytes of the range proof.

ghost use Rattle.std.specs.{
  Prelude.{◌≡◌, map, reverse, IfOk},
  List.{AllByRecursion},
};
ghost use Rattle.byte_fields.specs.{Reader.{value_seen}, Spelling.{IsValue}};
ghost use Rattle.proof_verifier.specs.proof_checks.RangeChecks.{version_shown};

use crate::shown::{ShownVersion, ShownVersions};
use byte_fields::ValueView;
use lc_base::{Memory, Text, TextError, Value, Version, VersionList};
use std::alloc::Global;

/// Copies a value, which then owns its text.
fn value_of(alloc: Global, value: ValueView) -> Result<Value, Memory>
    requires { IsValue (value_seen value) }
    ensures { IfOk result (λ copy. copy ≡ value_seen value.entry) }
{
    match value {
        ValueView::Int(number) => Ok(Value::Int(number)),
        ValueView::Text(bytes) => match Text::new(alloc, bytes) {
            Ok(text) => Ok(Value::Text(text)),
            Err(TextError::Memory) => Err(Memory),
            Err(_) => unreachable!(),
        },
        ValueView::Gone => Ok(Value::Gone),
    }
}

/// Copies a version.
fn version_of(alloc: Global, version: &ShownVersion) -> Result<Version, Memory>
    ensures { IfOk result (λ copy. copy ≡ version_shown version.now) }
{
    // By this call contracts know that the value is one.
    let _spelled = version.body.bytes();
    let header = version.header.fields();
    Ok(Version {
        block: header.block,
        tx: header.tx,
        value: value_of(alloc, version.body.value())?,
    })
}

/// The versions from the last to the first.
fn reversed(versions: VersionList) -> VersionList
    ensures { result ≡ reverse versions }
{
    let mut versions = versions.into_vec();
    versions.reverse();
    VersionList::from_vec(versions)
}

/// Copies the versions, the first one first.
pub(crate) fn copied(alloc: Global, shown: ShownVersions) -> Result<VersionList, Memory>
    ensures { IfOk result (λ versions. versions ≡ reverse (map version_shown shown.entry)) }
{
    let mut shown = shown;
    let mut versions = VersionList::new(alloc);
    while let Some(version) = shown.next() {
        versions.push(version_of(alloc, &version)?)?;
    }
    Ok(reversed(versions))
}
