//! Building the lines that commands print: each ends with the byte 0x0A.

ghost use Rattle.std.specs.{
  Prelude.{◌≡◌, [], ◌∷◌, ◌++◌, codes, decimal, map, string_bytes, IfOk},
  Fmt.{signed_decimal},
};
ghost use Rattle.cli_lines.specs.Lines.{
  usage_line,
  beyond_line,
  misplaced_text,
  refusal_text,
  cause_text,
  refused_line,
  value_text,
  hist_line,
  version_line,
  dep_line,
  answer_lines,
  trace_lines,
  range_lines,
  bad_input_line,
  not_a_log_line,
  damaged_line,
  upgraded_line,
  already_upgraded_line,
  root_line,
  line,
};
ghost use Rattle.hex.specs.Hex.{encode_lower};

use block_codec::Misplaced;
use chain_input::{Cause, Refusal};
use digest_kit::digest_text;
use lc_base::{Answer, Bytes, Dep, DepList, Digest, Memory, Seq, Value, Version};
use root_laws::Trace;
use std::alloc::{AllocError, Global};

/// A line of this text.
pub fn line(alloc: Global, text: &str) -> Result<Bytes, Memory>
    ensures { IfOk result (λ bytes. bytes ≡ line text.now) }
{
    let mut bytes = Vec::from_slice(alloc, text.as_bytes())?;
    bytes.push(b'\n')?;
    Ok(Bytes::from_vec(bytes))
}

/// The line for words that are no command.
pub fn usage_line(alloc: Global) -> Result<Bytes, Memory>
    ensures { IfOk result (λ bytes. bytes ≡ usage_line) }
{
    line(alloc, "usage")
}

/// The line for a block past the head of the chain, or for a chain of no block.
pub fn beyond_line(alloc: Global, head: Option<u32>) -> Result<Bytes, Memory>
    ensures { IfOk result (λ bytes. bytes ≡ beyond_line head) }
{
    match head {
        None => line(alloc, "beyond empty"),
        Some(head) => {
            let text = format!(in alloc; "beyond head {head}")?;
            line(alloc, text.as_str())
        }
    }
}

/// A text of the word and then the bytes in lower-case hex.
pub fn hex_after(alloc: Global, word: &str, bytes: &[u8]) -> Result<String, AllocError>
    ensures { IfOk result (λ text. string_bytes text ≡ word.now ++ encode_lower bytes.now) }
{
    let mut text = String::from_str(alloc, word)?;
    let hex = hex::encode(alloc, bytes)?;
    text.push_str(hex.as_str())?;
    Ok(text)
}

/// The line of the root at the block `number`.
pub fn root_line(alloc: Global, number: u32, root: &Digest) -> Result<Bytes, Memory>
    ensures { IfOk result (λ bytes. bytes ≡ root_line number root.now.0) }
{
    let head = format!(in alloc; "root {number} ")?;
    let text = digest_text(alloc, head.as_str(), root)?;
    line(alloc, text.as_str())
}

/// Why a block is neither held by a chain nor its next one, in words.
fn misplaced_text(alloc: Global, why: &Misplaced) -> Result<String, AllocError>
    ensures { IfOk result (λ text. string_bytes text ≡ misplaced_text why.now) }
{
    match why {
        Misplaced::Fork { have } => digest_text(alloc, "fork ", have),
        Misplaced::Full => String::from_str(alloc, "full"),
        Misplaced::Number { want } => format!(in alloc; "number {want}"),
        Misplaced::Parent { want } => digest_text(alloc, "parent ", want),
        Misplaced::Version { want } => format!(in alloc; "version {want}"),
        Misplaced::Budget { sum } => format!(in alloc; "budget {sum}"),
    }
}

/// Why a chain refuses bytes, in words.
pub fn refusal_text(alloc: Global, refusal: &Refusal) -> Result<String, AllocError>
    ensures { IfOk result (λ text. string_bytes text ≡ refusal_text refusal.now) }
{
    match refusal {
        Refusal::Malformed(offset) => format!(in alloc; "malformed {offset}"),
        Refusal::Placed(why) => misplaced_text(alloc, why),
    }
}

/// Why a frame is refused, in words.
fn cause_text(alloc: Global, cause: &Cause) -> Result<String, AllocError>
    ensures { IfOk result (λ text. string_bytes text ≡ cause_text cause.now) }
{
    match cause {
        Cause::Truncated => String::from_str(alloc, "truncated"),
        Cause::Length(count) => format!(in alloc; "length {count}"),
        Cause::Many => String::from_str(alloc, "many"),
        Cause::Block(refusal) => refusal_text(alloc, refusal),
    }
}

fn refused_text(alloc: Global, frame: u32, cause: &str) -> Result<Bytes, Memory>
    ensures { IfOk result (λ bytes. bytes ≡ line (codes "refused frame " ++ decimal frame ++ codes " " ++ cause.now)) }
{
    let text = format!(in alloc; "refused frame {frame} {cause}")?;
    line(alloc, text.as_str())
}

/// The line for a refused frame: its number, from 0, and the cause.
pub fn refused_line(alloc: Global, frame: u32, cause: &Cause) -> Result<Bytes, Memory>
    ensures { IfOk result (λ bytes. bytes ≡ refused_line frame cause.now) }
{
    let text = cause_text(alloc, cause)?;
    refused_text(alloc, frame, text.as_str())
}

/// The line for an input that is not of its grammar, or too long.
pub fn bad_input_line(alloc: Global, cause: &str) -> Result<Bytes, Memory>
    ensures { IfOk result (λ bytes. bytes ≡ bad_input_line cause.now) }
{
    let text = format!(in alloc; "badinput {cause}")?;
    line(alloc, text.as_str())
}

/// The line for a disk that holds something other than a log.
pub fn not_a_log_line(alloc: Global) -> Result<Bytes, Memory>
    ensures { IfOk result (λ bytes. bytes ≡ not_a_log_line) }
{
    line(alloc, "not a log")
}

/// The line for a log that is damaged at this offset, in bytes.
pub fn damaged_line(alloc: Global, at: u64) -> Result<Bytes, Memory>
    ensures { IfOk result (λ bytes. bytes ≡ damaged_line at) }
{
    let text = format!(in alloc; "damaged at {at}")?;
    line(alloc, text.as_str())
}

/// The line for a log that was marked, with the number of its blocks.
pub fn upgraded_line(alloc: Global, count: u32) -> Result<Bytes, Memory>
    ensures { IfOk result (λ bytes. bytes ≡ upgraded_line count) }
{
    let text = format!(in alloc; "upgraded {count}")?;
    line(alloc, text.as_str())
}

/// The line for a log that was marked already.
pub fn already_upgraded_line(alloc: Global) -> Result<Bytes, Memory>
    ensures { IfOk result (λ bytes. bytes ≡ already_upgraded_line) }
{
    line(alloc, "already upgraded")
}

fn int_line(alloc: Global, block: u32, tx: u16, number: i64) -> Result<Bytes, Memory>
    ensures { IfOk result (λ bytes. bytes ≡ line (codes "block " ++ decimal block ++ codes " tx " ++ decimal tx ++ codes " int " ++ signed_decimal number)) }
{
    let text = format!(in alloc; "block {block} tx {tx} int {number}")?;
    line(alloc, text.as_str())
}

fn text_line(alloc: Global, block: u32, tx: u16, text: &[u8]) -> Result<Bytes, Memory>
    ensures { IfOk result (λ bytes. bytes ≡ line (codes "block " ++ decimal block ++ codes " tx " ++ decimal tx ++ codes " text " ++ text.now)) }
{
    let mut bytes = format!(in alloc; "block {block} tx {tx} text ")?.into_bytes();
    bytes.extend_from_slice(text)?;
    bytes.push(b'\n')?;
    Ok(Bytes::from_vec(bytes))
}

fn gone_line(alloc: Global, block: u32, tx: u16) -> Result<Bytes, Memory>
    ensures { IfOk result (λ bytes. bytes ≡ line (codes "block " ++ decimal block ++ codes " tx " ++ decimal tx ++ codes " gone")) }
{
    let text = format!(in alloc; "block {block} tx {tx} gone")?;
    line(alloc, text.as_str())
}

fn dep_line(alloc: Global, dep: &Dep) -> Result<Bytes, Memory>
    ensures { IfOk result (λ bytes. bytes ≡ dep_line dep.now) }
{
    let mut bytes = Vec::from_slice(alloc, dep.key.as_bytes())?;
    let block = dep.block;
    let rest = format!(in alloc; " {block}\n")?;
    bytes.extend_from_slice(rest.as_bytes())?;
    Ok(Bytes::from_vec(bytes))
}

/// The head line, and then a line for each version.
fn dep_lines(alloc: Global, head: Bytes, deps: &[Dep]) -> Result<Seq<Bytes>, Memory>
    ensures { IfOk result (λ lines. lines ≡ head ∷ map dep_line deps.now) }
{
    let mut lines = Seq::new(alloc);
    lines.push(head)?;
    for dep in deps {
        lines.push(dep_line(alloc, dep)?)?;
    }
    Ok(lines)
}

fn one_line(alloc: Global, line: Bytes) -> Result<Seq<Bytes>, Memory>
    ensures { IfOk result (λ lines. lines ≡ line ∷ []) }
{
    let mut lines = Seq::new(alloc);
    lines.push(line)?;
    Ok(lines)
}

fn back_head(alloc: Global, block: u32, count: usize) -> Result<Bytes, Memory>
    ensures { IfOk result (λ bytes. bytes ≡ line (codes "block " ++ decimal block ++ codes " deps " ++ decimal count)) }
{
    let text = format!(in alloc; "block {block} deps {count}")?;
    line(alloc, text.as_str())
}

fn fwd_head(alloc: Global, block: u32, count: usize) -> Result<Bytes, Memory>
    ensures { IfOk result (λ bytes. bytes ≡ line (codes "block " ++ decimal block ++ codes " uses " ++ decimal count)) }
{
    let text = format!(in alloc; "block {block} uses {count}")?;
    line(alloc, text.as_str())
}

fn back_lines(alloc: Global, block: u32, deps: &DepList) -> Result<Seq<Bytes>, Memory>
    ensures { IfOk result (λ lines. lines ≡ answer_lines (Answer.Back block deps.now)) }
{
    let head = back_head(alloc, block, deps.len())?;
    dep_lines(alloc, head, deps.as_slice())
}

fn fwd_lines(alloc: Global, block: u32, uses: &DepList) -> Result<Seq<Bytes>, Memory>
    ensures { IfOk result (λ lines. lines ≡ answer_lines (Answer.Fwd block uses.now)) }
{
    let head = fwd_head(alloc, block, uses.len())?;
    dep_lines(alloc, head, uses.as_slice())
}

/// The lines of an answer: one, and for a list one more for each of its versions.
pub fn answer_lines(alloc: Global, answer: &Answer) -> Result<Seq<Bytes>, Memory>
    ensures { IfOk result (λ lines. lines ≡ answer_lines answer.now) }
{
    match answer {
        Answer::Nothing => one_line(alloc, line(alloc, "none")?),
        Answer::Hist { block, tx, value } => one_line(alloc, hist_line(alloc, *block, *tx, value)?),
        Answer::Back { block, deps } => back_lines(alloc, *block, deps),
        Answer::Fwd { block, uses } => fwd_lines(alloc, *block, uses),
    }
}

fn hist_line(alloc: Global, block: u32, tx: u16, value: &Value) -> Result<Bytes, Memory>
    ensures { IfOk result (λ bytes. bytes ≡ hist_line block tx value.now) }
{
    match value {
        Value::Int(number) => int_line(alloc, block, tx, *number),
        Value::Text(text) => text_line(alloc, block, tx, text.as_bytes()),
        Value::Gone => gone_line(alloc, block, tx),
    }
}

fn trace_head(alloc: Global, block: u32, count: usize) -> Result<Bytes, Memory>
    ensures { IfOk result (λ bytes. bytes ≡ line (codes "block " ++ decimal block ++ codes " ancestors " ++ decimal count)) }
{
    let text = format!(in alloc; "block {block} ancestors {count}")?;
    line(alloc, text.as_str())
}

/// The lines of a version with its ancestors: one, and one more for each of them; `none` if there is
/// no version.
pub fn trace_lines(alloc: Global, trace: &Option<Trace>) -> Result<Seq<Bytes>, Memory>
    ensures { IfOk result (λ lines. lines ≡ trace_lines trace.now) }
{
    match trace {
        None => one_line(alloc, line(alloc, "none")?),
        Some(trace) => {
            let head = trace_head(alloc, trace.block, trace.ancestors.len())?;
            dep_lines(alloc, head, trace.ancestors.as_slice())
        }
    }
}

fn version_line(alloc: Global, version: &Version) -> Result<Bytes, Memory>
    ensures { IfOk result (λ bytes. bytes ≡ version_line version.now) }
{
    hist_line(alloc, version.block, version.tx, &version.value)
}

fn range_head(alloc: Global, count: usize) -> Result<Bytes, Memory>
    ensures { IfOk result (λ bytes. bytes ≡ line (codes "versions " ++ decimal count)) }
{
    let text = format!(in alloc; "versions {count}")?;
    line(alloc, text.as_str())
}

/// The lines of versions of a key: one of their number, and one more for each of them.
pub fn range_lines(alloc: Global, versions: &[Version]) -> Result<Seq<Bytes>, Memory>
    ensures { IfOk result (λ lines. lines ≡ range_lines versions.now) }
{
    let mut lines = Seq::new(alloc);
    lines.push(range_head(alloc, versions.len())?)?;
    for version in versions {
        lines.push(version_line(alloc, version)?)?;
    }
    Ok(lines)
}
