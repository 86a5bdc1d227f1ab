//! Reading a light file. Its bytes are taken in pieces, and memory grows only with bytes that came.

ghost use Rattle.std.specs.Prelude.{◌≡◌, ◌*◌, length, IfSome, IsErrOf};
ghost use Rattle.lc_base.specs.Faults.{HasCause};
ghost use Rattle.light_client.specs.Reading.{
  IsFilled,
  AreTaken,
  IsAppended,
  IsHeadRead,
  IsLightAnswer,
};

use crate::error::LightError;
use crate::light_file::LightFile;
use crate::limits::{BLOCK_ROOT_BYTES, MAGIC, MAX_PIECE_BYTES};
use lc_base::{Bytes, Memory};
use lc_io::{Source, fill};
use std::alloc::Global;

/// Fills the buffer; `Form` if the source ends before it is full.
fn take<I: Source>(source: &mut I, buffer: &mut [u8]) -> Result<(), LightError>
    ensures size { length buffer.new ≡ length buffer.old }
    ensures bytes { IsFilled (I.left source.old) result buffer.new (I.left source.new) }
    ensures cause { HasCause (I.source_faults source.old) (I.source_faults source.new)
        (IsErrOf result LightError.Fault) }
{
    let count = fill(source, buffer)?;
    if count < buffer.len() {
        return Err(LightError::Form);
    }
    Ok(())
}

/// The next four bytes.
fn word<I: Source>(source: &mut I) -> Result<[u8; 4], LightError>
    ensures bytes { AreTaken 4 (I.left source.old) result (I.left source.new) }
    ensures cause { HasCause (I.source_faults source.old) (I.source_faults source.new)
        (IsErrOf result LightError.Fault) }
{
    let mut bytes = [0u8; 4];
    take(source, &mut bytes)?;
    Ok(bytes)
}

/// The number of blocks, from the head of a light file.
fn count<I: Source>(source: &mut I) -> Result<u32, LightError>
    ensures head { IfSome (I.left source.old)
        (λ input. IsHeadRead input result (I.left source.new)) }
    ensures cause { HasCause (I.source_faults source.old) (I.source_faults source.new)
        (IsErrOf result LightError.Fault) }
{
    let magic = word(source)?;
    let count = word(source)?;
    if magic.as_slice() != MAGIC.as_slice() {
        return Err(LightError::Form);
    }
    Ok(u32::from_be_bytes(count))
}

/// Makes room for a piece: for as many bytes as there are already, or one piece if that is more,
/// but for no more than are still to come.
fn make_room(bytes: &mut Vec<u8>, to_come: usize) -> Result<(), Memory>
    ensures { bytes.new.items ≡ bytes.old.items }
{
    if bytes.len() == bytes.capacity() {
        bytes.reserve_exact(bytes.len().max(MAX_PIECE_BYTES).min(to_come))?;
    }
    Ok(())
}

/// Appends the next bytes of the source, as many as `to_come` but at most a piece.
fn append_piece<I: Source>(
    source: &mut I,
    bytes: &mut Vec<u8>,
    to_come: usize,
) -> Result<(), LightError>
    ensures bytes { IsAppended to_come (I.left source.old) bytes.old.items result bytes.new.items
        (I.left source.new) }
    ensures cause { HasCause (I.source_faults source.old) (I.source_faults source.new)
        (IsErrOf result LightError.Fault) }
{
    let mut buffer = [0u8; MAX_PIECE_BYTES];
    let piece = &mut buffer[..to_come.min(MAX_PIECE_BYTES)];
    take(source, piece)?;
    make_room(bytes, to_come)?;
    bytes.extend_from_slice(piece)?;
    Ok(())
}

/// The bytes of so many blocks.
fn blocks<I: Source>(alloc: Global, source: &mut I, count: u32) -> Result<Bytes, LightError>
    ensures bytes { AreTaken (64 * count) (I.left source.old) result (I.left source.new) }
    ensures cause { HasCause (I.source_faults source.old) (I.source_faults source.new)
        (IsErrOf result LightError.Fault) }
{
    let size = count as usize * BLOCK_ROOT_BYTES;
    let mut bytes = Vec::new(alloc);
    while bytes.len() < size {
        let to_come = size - bytes.len();
        append_piece(source, &mut bytes, to_come)?;
    }
    Ok(Bytes::from_vec(bytes))
}

impl LightFile {
    /// The light file at the start of a source, of which it takes just the bytes of the file.
    /// `Form` exactly if the source has none: fewer than `HEAD_BYTES` bytes, others than `MAGIC` at
    /// the start, or fewer than `BLOCK_ROOT_BYTES` for each block that is counted. `Fault` exactly
    /// if the source failed.
    pub fn read<I: Source>(alloc: Global, source: &mut I) -> Result<LightFile, LightError>
        ensures answer { IfSome (I.left source.old)
            (λ input. IsLightAnswer input result (I.left source.new)) }
        ensures cause { HasCause (I.source_faults source.old) (I.source_faults source.new)
            (IsErrOf result LightError.Fault) }
    {
        let count = count(source)?;
        let bytes = blocks(alloc, source, count)?;
        Ok(LightFile::new(count, bytes))
    }
}
