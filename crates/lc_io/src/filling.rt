//! Taking as many bytes of a source as a buffer has room for.

ghost use Rattle.std.specs.Prelude.{◌≡◌, ◌≤◌, length, IfOk, IsErr};
ghost use Rattle.lc_base.specs.Faults.{HasCause};
ghost use Rattle.lc_io.specs.Outside.{Fills};

use crate::outside::{Failed, Source};

/// Fills the buffer as far as the source reaches, and returns how many bytes came.
pub fn fill<I: Source>(source: &mut I, buffer: &mut [u8]) -> Result<usize, Failed>
    ensures bound { IfOk result (λ n. n ≤ length buffer.new) }
    ensures bytes { Fills (I.left source.old) (I.left source.new) result buffer.new }
    ensures cause { HasCause (I.source_faults source.old) (I.source_faults source.new) (IsErr result) }
{
    let mut start = 0;
    while start < buffer.len() {
        let count = source.pull(&mut buffer[start..])?;
        if count == 0 {
            return Ok(start);
        }
        start += count;
    }
    Ok(start)
}
