//! Reading an input whole: an input past the bound costs one byte more than the bound, and no more.

ghost use Rattle.lc_base.specs.Faults.{HasCause};
ghost use Rattle.std.specs.Prelude.{◌≡◌, ◌<◌, ◌≤◌, length, IfOk, IfSome, IsErrOf};
ghost use Rattle.cli_lines.specs.{
  declared.whole.TheConstants.{MAX_WHOLE_INPUT_BYTES},
  Whole.{IsWholeInput},
};

use lc_base::{Bytes, HostError, Memory, zeros};
use lc_io::Source;
use std::alloc::Global;

/// The greatest number of bytes of an input that is read whole: 64 MiB.
pub const MAX_WHOLE_INPUT_BYTES: usize = 67_108_864;

/// The number of bytes that one pull asks for.
const CHUNK: usize = 65_536;

/// A buffer of `count` bytes.
fn room(alloc: Global, count: usize) -> Result<Vec<u8>, Memory>
    ensures { IfOk result (λ room. length room.items ≡ count) }
{
    zeros(alloc, count)
}

/// All bytes that the source has left, pulled through the chunk; `None` if these are more than
/// `MAX_WHOLE_INPUT_BYTES`, and then one byte more than that was taken.
fn read_by<I: Source>(
    alloc: Global,
    source: &mut I,
    chunk: &mut [u8],
) -> Result<Option<Bytes>, HostError>
    requires { 0 < length chunk.old }
    ensures whole { IfSome (I.left source.old) (λ input. IfOk result (λ found. IsWholeInput found input (I.left source.new))) }
    ensures bound { IfOk result (λ found. IfSome found (λ bytes. length bytes ≤ MAX_WHOLE_INPUT_BYTES)) }
    ensures cause { HasCause (I.source_faults source.old) (I.source_faults source.new) (IsErrOf result HostError.Fault) }
{
    let mut bytes = Vec::new(alloc);
    'pulls: loop {
        let want = chunk.len().min(MAX_WHOLE_INPUT_BYTES + 1 - bytes.len());
        let count = source.pull(&mut chunk[..want])?;
        if count == 0 {
            return Ok(Some(Bytes::from_vec(bytes)));
        }
        if bytes.len() + count > MAX_WHOLE_INPUT_BYTES {
            return Ok(None);
        }
        bytes.extend_from_slice(&chunk[..count])?;
    }
}

/// All bytes that the source has left; `None` if these are more than `MAX_WHOLE_INPUT_BYTES`, and
/// then one byte more than that was taken.
pub fn read_whole<I: Source>(alloc: Global, source: &mut I) -> Result<Option<Bytes>, HostError>
    ensures whole { IfSome (I.left source.old) (λ input. IfOk result (λ found. IsWholeInput found input (I.left source.new))) }
    ensures bound { IfOk result (λ found. IfSome found (λ bytes. length bytes ≤ MAX_WHOLE_INPUT_BYTES)) }
    ensures cause { HasCause (I.source_faults source.old) (I.source_faults source.new) (IsErrOf result HostError.Fault) }
{
    let mut chunk = room(alloc, CHUNK)?;
    read_by(alloc, source, &mut chunk)
}
