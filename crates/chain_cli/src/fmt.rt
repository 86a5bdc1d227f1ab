//! The commands `fmt` and `fmt 2`: the canonical text of a contract, or its first fault.

ghost use Rattle.lc_base.specs.Faults.{HasCause};
ghost use Rattle.std.specs.Prelude.{
  ◌≡◌,
  ◌≤◌,
  ℕ,
  List,
  [],
  ◌∷◌,
  ◌++◌,
  length,
  string_bytes,
  Some,
  IfOk,
  IfSome,
  OnOk,
  IsErrOf,
};
ghost use Rattle.contract_tree.specs.Tree.{contract_of};
ghost use Rattle.contract_check.specs.Faults.{check_fault};
ghost use Rattle.cli_lines.specs.{
  declared.whole.TheConstants.{MAX_WHOLE_INPUT_BYTES},
  Lines.{syntax_word, syntax_cause, check_word, check_cause},
  Outcome.{status_of, bad_input},
};
ghost use Rattle.cli_words.specs.declared.words.Command.TheVariants.{Fmt};
ghost use Rattle.cli_output.specs.{
  Output.{edition_number, fmt_outcome, IsFmtOutput, output_of},
  Running.{MayEnd},
  Scanning.{IsFmtOutcome},
  Telling.{OnlyReads},
  Texts.{last_line, lines_after, lines_of},
};

use cli_lines::{Ending, Outcome, read_whole};
use cli_output::OutcomeStop;
use cli_words::Edition;
use contract_check::{CheckError, CheckKind, check};
use contract_parse::{SyntaxError, SyntaxKind, parse};
use contract_print::print;
use contract_tokens::{FIRST_EDITION, SECOND_EDITION};
use contract_tree::Contract;
use lc_base::{Bytes, Memory, Seq};
use lc_io::Source;
use std::alloc::{AllocError, Global};
use std::mem;

/// Takes one more byte of a text that is cut into lines: `line` has the bytes after the last line
/// end.
fn put_byte(
    alloc: Global,
    lines: &mut Seq<Bytes>,
    line: &mut Vec<u8>,
    byte: u8,
) -> Result<(), Memory>
    ensures { OnOk result ((bytes : List ℕ) → lines.new ++ lines_after line.new.items bytes ≡ lines.old ++ lines_after line.old.items (byte ∷ bytes)) }
{
    line.push(byte)?;
    if byte == b'\n' {
        let whole = mem::replace(line, Vec::new(alloc));
        lines.push(Bytes::from_vec(whole))?;
    }
    Ok(())
}

/// Adds the bytes after the last line end as a last line, if there are any.
fn put_rest(lines: &mut Seq<Bytes>, line: Vec<u8>) -> Result<(), Memory>
    ensures { OnOk result (lines.new ≡ lines.old ++ last_line line.items) }
{
    if line.is_empty() {
        return Ok(());
    }
    lines.push(Bytes::from_vec(line))
}

/// The lines of a text, each with its line end.
fn lines_of(alloc: Global, text: &[u8]) -> Result<Seq<Bytes>, Memory>
    ensures { IfOk result (λ lines. lines ≡ lines_of text.now) }
{
    let mut lines = Seq::new(alloc);
    let mut line = Vec::new(alloc);
    for byte in text {
        put_byte(alloc, &mut lines, &mut line, *byte)?;
    }
    put_rest(&mut lines, line)?;
    Ok(lines)
}

fn syntax_word(kind: SyntaxKind) -> &'static str
    ensures { result.now ≡ syntax_word kind }
{
    match kind {
        SyntaxKind::Byte => "byte",
        SyntaxKind::Literal => "literal",
        SyntaxKind::Expected => "expected",
        SyntaxKind::End => "end",
        SyntaxKind::Deep => "deep",
    }
}

fn check_word(kind: CheckKind) -> &'static str
    ensures { result.now ≡ check_word kind }
{
    match kind {
        CheckKind::Unknown => "unknown",
        CheckKind::Again => "again",
        CheckKind::Count => "count",
        CheckKind::Kind => "kind",
    }
}

fn syntax_cause(alloc: Global, at: u32, kind: SyntaxKind) -> Result<String, AllocError>
    ensures { IfOk result (λ text. string_bytes text ≡ syntax_cause at kind) }
{
    let word = syntax_word(kind);
    let text = format!(in alloc; "syntax {at} {word}")?;
    Ok(text)
}

fn check_cause(alloc: Global, at: u32, kind: CheckKind) -> Result<String, AllocError>
    ensures { IfOk result (λ text. string_bytes text ≡ check_cause (record { at = at; kind = kind })) }
{
    let word = check_word(kind);
    let text = format!(in alloc; "check {at} {word}")?;
    Ok(text)
}

/// The outcome for a contract: its canonical text, unless a name or a kind is invalid.
fn contract_outcome(alloc: Global, contract: Contract) -> Result<Outcome, Memory>
    ensures { IfOk result (λ outcome. outcome ≡ fmt_outcome (contract_of contract) (check_fault (contract_of contract))) }
{
    match check(alloc, contract) {
        Ok(checked) => {
            let text = print(alloc, checked.contract())?;
            Ok(Outcome {
                pieces: lines_of(alloc, text.as_bytes())?,
                ending: Ending::Done,
            })
        }
        Err(CheckError::Refused { at, kind }) => {
            let cause = check_cause(alloc, at, kind)?;
            Outcome::bad_input(alloc, cause.as_str())
        }
        Err(CheckError::Memory) => Err(Memory),
    }
}

fn edition_number(edition: Edition) -> u8
    ensures { result ≡ edition_number edition }
{
    match edition {
        Edition::First => FIRST_EDITION,
        Edition::Second => SECOND_EDITION,
    }
}

/// The outcome for a source of an edition that was read whole.
fn source_outcome(alloc: Global, edition: Edition, source: &[u8]) -> Result<Outcome, Memory>
    requires { length source.now ≤ MAX_WHOLE_INPUT_BYTES }
    ensures { IfOk result (λ outcome. IsFmtOutput (edition_number edition) source.now (output_of outcome [])) }
{
    match parse(alloc, source, edition_number(edition)) {
        Ok(contract) => {
            let outcome = contract_outcome(alloc, contract)?;
            Ok(outcome)
        }
        Err(SyntaxError::Refused { at, kind }) => {
            let cause = syntax_cause(alloc, at, kind)?;
            let outcome = Outcome::bad_input(alloc, cause.as_str())?;
            Ok(outcome)
        }
        Err(SyntaxError::Memory) => Err(Memory),
    }
}

/// The outcome of `fmt` or `fmt 2`: the canonical text of the contract that the input is in the
/// edition, or its first fault.
pub fn fmt<I: Source>(
    alloc: Global,
    edition: Edition,
    source: &mut I,
) -> Result<Outcome, OutcomeStop>
    ensures outcome { IfSome (I.left source.old) (λ input. IfOk result (λ outcome. IsFmtOutcome (edition_number edition) outcome (I.left source.new) input)) }
    ensures ends { IfOk result (λ outcome. MayEnd (status_of outcome.ending) (Some (Fmt edition))) }
    ensures only { OnlyReads result }
    ensures cause { HasCause (I.source_faults source.old) (I.source_faults source.new) (IsErrOf result OutcomeStop.Unreadable) }
{
    match read_whole(alloc, source)? {
        None => Ok(Outcome::bad_input(alloc, "long")?),
        Some(bytes) => Ok(source_outcome(alloc, edition, bytes.as_bytes())?),
    }
}
