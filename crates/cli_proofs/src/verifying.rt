//! The command `verify`: what a proof shows, or why it is not accepted. It needs no log.

ghost use Rattle.std.specs.Prelude.{◌≡◌, [], ◌∷◌, Some, IfOk, IfSome, IsErrOf};
ghost use Rattle.lc_base.specs.Faults.{HasCause};
ghost use Rattle.cli_output.specs.{
  cli_lines.Outcome.{status_of, outcome_with, bad_input},
  proof_commands.Refusing.{rejected_line},
  Proofs.{hex_cause, verification_outcome},
  Running.{MayEnd},
  Scanning.{IsVerifyOutcome},
  Telling.{OnlyReads},
};
ghost use Rattle.cli_words.specs.declared.words.Command.TheVariants.{Verify};

use cli_output::{
    Ending, HexFault, Outcome, OutcomeStop, Refused, Verification, read_whole, rejected_line,
    shown_lines, verify_hex,
};
use cli_words::Question;
use lc_base::{Digest, Memory};
use lc_io::Source;
use std::alloc::Global;

/// The outcome for a proof that is not accepted.
pub(crate) fn rejected_outcome(alloc: Global, refused: &Refused) -> Result<Outcome, Memory>
    ensures { IfOk result (λ outcome. outcome ≡ outcome_with (rejected_line refused.now ∷ []) Ending.Rejected) }
{
    Outcome::from_line(alloc, rejected_line(alloc, refused)?, Ending::Rejected)
}

/// The outcome for an input that is no hex.
pub fn bad_hex(alloc: Global, fault: &HexFault) -> Result<Outcome, Memory>
    ensures { IfOk result (λ outcome. outcome ≡ bad_input (hex_cause fault.now)) }
{
    match fault {
        HexFault::Odd => Outcome::bad_input(alloc, "odd"),
        HexFault::At(at) => {
            let cause = format!(in alloc; "at {at}")?;
            Outcome::bad_input(alloc, cause.as_str())
        }
    }
}

/// The outcome for what verifying a proof in hex returned.
fn verification_outcome(alloc: Global, found: &Verification) -> Result<Outcome, Memory>
    ensures { IfOk result (λ outcome. outcome ≡ verification_outcome found.now) }
{
    match found {
        Verification::Accepted(shown) => Ok(Outcome {
            pieces: shown_lines(alloc, shown)?,
            ending: Ending::Done,
        }),
        Verification::Rejected(refused) => rejected_outcome(alloc, refused),
        Verification::BadHex(fault) => bad_hex(alloc, fault),
    }
}

/// The outcome of `verify`: what is shown by the proof that the input is, in hex, under this root;
/// or why it is not accepted.
pub fn verify<I: Source>(
    alloc: Global,
    root: &Digest,
    question: &Question,
    source: &mut I,
) -> Result<Outcome, OutcomeStop>
    ensures outcome { IfSome (I.left source.old)
        (λ input. IfOk result (λ outcome. IsVerifyOutcome root.now.0 question.now outcome
        (I.left source.new) input)) }
    ensures ends { IfOk result (λ outcome. MayEnd (status_of outcome.ending)
        (Some (Verify root.now question.now))) }
    ensures only { OnlyReads result }
    ensures cause { HasCause (I.source_faults source.old) (I.source_faults source.new)
        (IsErrOf result OutcomeStop.Unreadable) }
{
    match read_whole(alloc, source)? {
        None => Ok(Outcome::bad_input(alloc, "long")?),
        Some(bytes) => {
            let found = verify_hex(alloc, root, question, bytes.as_bytes())?;
            Ok(verification_outcome(alloc, &found)?)
        }
    }
}
