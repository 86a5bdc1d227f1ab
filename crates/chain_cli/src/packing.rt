//! The commands `pack` and `pack 2`: the block file of a draft, or its first fault.

ghost use Rattle.std.specs.Prelude.{◌≡◌, true, map, Some, IfOk, IfSome, IsErrOf};
ghost use Rattle.lc_base.specs.Faults.{HasCause};
ghost use Rattle.cli_lines.specs.Outcome.{status_of};
ghost use Rattle.block_codec.specs.Spelling.{is_version};
ghost use Rattle.chain_pack.specs.Draft.{texts_of_draft};
ghost use Rattle.cli_words.specs.declared.words.Command.TheVariants.{Pack};
ghost use Rattle.cli_output.specs.{
  Blocks.{frame, draft_outcome, TellsFault},
  Output.{pack_output, version_number},
  Running.{MayEnd},
  Scanning.{GivesOutput},
  Telling.{OnlyReads},
};

use block_codec::{FIRST_VERSION, SECOND_VERSION};
use byte_fields::put_u32;
use chain_pack::{PackError, pack as blocks_of};
use cli_lines::{Ending, Outcome, read_whole};
use cli_output::OutcomeStop;
use cli_words::BlockVersion;
use lc_base::{Bytes, Memory, Seq, TextList};
use lc_io::Source;
use std::alloc::Global;

/// The frame of a block: its length in four bytes, the most significant first, and its bytes. A
/// length that doesn't fit four bytes, which no block has, is answered with `Memory`.
pub fn frame(alloc: Global, block: &[u8]) -> Result<Bytes, Memory>
    ensures { IfOk result (λ bytes. bytes ≡ frame block.now) }
{
    let Ok(length) = u32::try_from(block.len()) else {
        return Err(Memory);
    };
    let mut bytes = Vec::new(alloc);
    put_u32(&mut bytes, length)?;
    bytes.extend_from_slice(block)?;
    Ok(Bytes::from_vec(bytes))
}

/// The frame of each block, in order.
fn frames(alloc: Global, blocks: &[Bytes]) -> Result<Seq<Bytes>, Memory>
    ensures { IfOk result (λ frames. frames ≡ map frame blocks.now) }
{
    let mut frames = Seq::new(alloc);
    for block in blocks {
        frames.push(frame(alloc, block.as_bytes())?)?;
    }
    Ok(frames)
}

/// The outcome for a draft that is no list of blocks.
fn refusal_outcome(alloc: Global, error: &PackError) -> Result<Outcome, Memory>
    ensures { IfOk result (TellsFault error.now) }
{
    match error {
        PackError::Json => Outcome::bad_input(alloc, "json"),
        PackError::Top => Outcome::bad_input(alloc, "top"),
        PackError::Shape { block, tx } => {
            let cause = format!(in alloc; "draft {block} {tx}")?;
            Outcome::bad_input(alloc, cause.as_str())
        }
        PackError::BlockLimit { block } => {
            let cause = format!(in alloc; "block {block}")?;
            Outcome::bad_input(alloc, cause.as_str())
        }
        PackError::Memory => Err(Memory),
    }
}

fn version_number(version: BlockVersion) -> u8
    ensures number { result ≡ version_number version }
    ensures is_version { is_version result ≡ true }
{
    match version {
        BlockVersion::First => FIRST_VERSION,
        BlockVersion::Second => SECOND_VERSION,
    }
}

/// The outcome for a draft that was read whole, and is packed into blocks of this version.
fn draft_outcome(alloc: Global, version: BlockVersion, draft: &[u8]) -> Result<Outcome, Memory>
    ensures { IfOk result
        (λ outcome. outcome ≡ draft_outcome (texts_of_draft (version_number version) draft.now)) }
{
    match blocks_of(alloc, draft, version_number(version)) {
        Ok(blocks) => Ok(Outcome {
            pieces: frames(alloc, blocks.as_slice())?,
            ending: Ending::Done,
        }),
        Err(error) => refusal_outcome(alloc, &error),
    }
}

/// The outcome of `pack` or `pack 2`: the block file of the draft that the input is, of blocks of
/// this version, or its first fault.
pub fn pack<I: Source>(
    alloc: Global,
    version: BlockVersion,
    source: &mut I,
) -> Result<Outcome, OutcomeStop>
    ensures outcome { IfSome (I.left source.old) (λ input. IfOk result (λ outcome. GivesOutput outcome (I.left source.new) (pack_output (version_number version) input))) }
    ensures ends { IfOk result (λ outcome. MayEnd (status_of outcome.ending) (Some (Pack version))) }
    ensures only { OnlyReads result }
    ensures cause { HasCause (I.source_faults source.old) (I.source_faults source.new) (IsErrOf result OutcomeStop.Unreadable) }
{
    match read_whole(alloc, source)? {
        None => Ok(Outcome::bad_input(alloc, "long")?),
        Some(bytes) => Ok(draft_outcome(alloc, version, bytes.as_bytes())?),
    }
}
