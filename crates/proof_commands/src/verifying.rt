//! An input is decoded from hex, then read and checked as a proof.

ghost use Rattle.std.specs.Prelude.{◌≡◌, IfOk};
ghost use Rattle.cli_words.specs.declared.question.Question.TheVariants as questions;
ghost use Rattle.hex.specs.Hex.{decode_of};
ghost use Rattle.proof_commands.specs.Verifying.{
  IsVerification,
  hex_text,
  bytes_or_fault,
  of_verdict,
  verdict_of,
  verification,
};

use crate::answering::answer_of;
use crate::verification::{HexFault, Refused, Shown, Verification};
use cli_words::Question;
use hex::FromHexError;
use lc_base::{Bytes, Digest, Key, Memory, Query};
use range_verifier::{RangeError, verify_range};
use std::alloc::Global;
use trace_verifier::{TraceError, verify, verify_trace};

/// The input without the line end that it may end with.
fn hex_text(input: &[u8]) -> &[u8]
    ensures { result.now ≡ hex_text input.now }
{
    match input.last() {
        Some(b'\n') => &input[..input.len() - 1],
        _ => input,
    }
}

/// The verification of the bytes of a proof of an answer.
fn verify_version(
    alloc: Global,
    root: &Digest,
    query: &Query,
    proof: &[u8],
) -> Result<Verification, Memory>
    ensures { IfOk result (λ found. found
        ≡ of_verdict (verdict_of root.now.0 (questions.Version query.now) proof.now)) }
{
    match verify(root, query, proof) {
        Ok(found) => {
            let answer = answer_of(alloc, &found)?;
            Ok(Verification::Accepted(Shown::Answer(answer)))
        }
        Err(reject) => Ok(Verification::Rejected(Refused::Version(reject))),
    }
}

/// The verification of the bytes of a proof of ancestors.
fn verify_ancestors(
    alloc: Global,
    root: &Digest,
    key: &Key,
    at: u32,
    proof: &[u8],
) -> Result<Verification, Memory>
    ensures { IfOk result (λ found. found
        ≡ of_verdict (verdict_of root.now.0 (questions.Ancestors key.now at) proof.now)) }
{
    match verify_trace(alloc, root, key, at, proof) {
        Ok(trace) => Ok(Verification::Accepted(Shown::Ancestors(trace))),
        Err(TraceError::Rejected(reject)) => Ok(Verification::Rejected(Refused::Ancestors(reject))),
        Err(TraceError::WantedMemory { .. } | TraceError::Memory) => Err(Memory),
    }
}

/// The verification of the bytes of a range proof.
fn verify_between(
    alloc: Global,
    root: &Digest,
    key: &Key,
    from: u32,
    to: u32,
    proof: &[u8],
) -> Result<Verification, Memory>
    ensures { IfOk result (λ found. found
        ≡ of_verdict (verdict_of root.now.0 (questions.Between key.now from to) proof.now)) }
{
    match verify_range(alloc, root, key, from, to, proof) {
        Ok(versions) => Ok(Verification::Accepted(Shown::Versions(versions))),
        Err(RangeError::Rejected(reject)) => Ok(Verification::Rejected(Refused::Between(reject))),
        Err(RangeError::Memory) => Err(Memory),
    }
}

/// The verification of the bytes of a proof of the question's kind.
fn verify_bytes(
    alloc: Global,
    root: &Digest,
    question: &Question,
    proof: &[u8],
) -> Result<Verification, Memory>
    ensures { IfOk result (λ found. found
        ≡ of_verdict (verdict_of root.now.0 question.now proof.now)) }
{
    match question {
        Question::Version(query) => verify_version(alloc, root, query, proof),
        Question::Ancestors { key, at } => verify_ancestors(alloc, root, key, *at, proof),
        Question::Between { key, from, to } => verify_between(alloc, root, key, *from, *to, proof),
    }
}

/// Decodes hex with digits of either case; the input may end with one line end. The bytes, or why
/// the input isn't hex.
pub fn decode_hex(alloc: Global, input: &[u8]) -> Result<Result<Bytes, HexFault>, Memory>
    ensures { IfOk result (λ told. told ≡ bytes_or_fault (decode_of (hex_text input.now))) }
{
    match hex::decode(alloc, hex_text(input)) {
        Ok(bytes) => Ok(Ok(Bytes::from_vec(bytes))),
        Err(FromHexError::InvalidHexCharacter { index, .. }) => Ok(Err(HexFault::At(index))),
        Err(FromHexError::OutOfMemory) => Err(Memory),
        Err(_) => Ok(Err(HexFault::Odd)),
    }
}

fn verify_input(
    alloc: Global,
    root: &Digest,
    question: &Question,
    input: &[u8],
) -> Result<Verification, Memory>
    ensures { IfOk result (λ found. found ≡ verification root.now.0 question.now input.now) }
{
    match decode_hex(alloc, input)? {
        Ok(proof) => verify_bytes(alloc, root, question, proof.as_bytes()),
        Err(fault) => Ok(Verification::BadHex(fault)),
    }
}

/// Verifies a proof for one who has the root and the question. The input is the proof in hex, with
/// digits of either case, and may end with one line end.
pub fn verify_hex(
    alloc: Global,
    root: &Digest,
    question: &Question,
    input: &[u8],
) -> Result<Verification, Memory>
    ensures { IfOk result (IsVerification root.now.0 question.now input.now) }
{
    verify_input(alloc, root, question, input)
}
