//! Building the lines of proofs that are checked by a light file.

ghost use Rattle.std.specs.Prelude.{
  ◌≡◌,
  [],
  ◌∷◌,
  ◌++◌,
  codes,
  decimal,
  string_bytes,
  IfOk,
  Ok,
  Err,
};
ghost use Rattle.cli_output.specs.{
  cli_lines.Lines.{line},
  Lights.{accepted_proof_line, light_reject_text, proof_lines, rejected_proof_line},
  light_client.Checking.{checked_seen},
};
ghost use Rattle.cli_words.specs.Words.{kind_word};
ghost use Rattle.proof_verifier.specs.Answering.{HasValue, answer_seen};

use cli_output::{Checked, LightReject, answer_lines, answer_of, line, reject_text};
use cli_words::kind_word;
use digest_kit::digest_text;
use lc_base::{Bytes, Memory, Query, Seq};
use proof_checks::Reject;
use std::alloc::{AllocError, Global};

/// Why a light file doesn't accept a proof, in words.
fn light_reject_text(alloc: Global, reject: &LightReject) -> Result<String, AllocError>
    ensures { IfOk result (λ text. string_bytes text ≡ light_reject_text reject.now) }
{
    match reject {
        LightReject::Malformed { at } => reject_text(alloc, &Reject::Malformed { at: *at }),
        LightReject::Unknown { count } => format!(in alloc; "unknown {count}"),
        LightReject::DigestDiffers { have } => digest_text(alloc, "digest ", have),
        LightReject::Rejected(reject) => reject_text(alloc, reject),
    }
}

fn rejected_text(alloc: Global, index: u32, cause: &str) -> Result<Bytes, Memory>
    ensures { IfOk result (λ bytes. bytes
        ≡ line (codes "proof " ++ decimal index ++ codes " rejected " ++ cause.now)) }
{
    let text = format!(in alloc; "proof {index} rejected {cause}")?;
    line(alloc, text.as_str())
}

/// The line of a proof that isn't accepted: its number, from 0, and why.
fn rejected_proof_line(alloc: Global, index: u32, reject: &LightReject) -> Result<Bytes, Memory>
    ensures { IfOk result (λ bytes. bytes ≡ rejected_proof_line index reject.now) }
{
    let cause = light_reject_text(alloc, reject)?;
    rejected_text(alloc, index, cause.as_str())
}

/// The line of a proof that is accepted: its number, from 0, the question that it answers, and the
/// block of its root.
fn accepted_proof_line(
    alloc: Global,
    index: u32,
    query: &Query,
    root_at: u32,
) -> Result<Bytes, Memory>
    ensures { IfOk result (λ bytes. bytes
        ≡ line (codes "proof " ++ decimal index ++ codes " " ++ kind_word query.now.kind
        ++ codes " " ++ query.now.key ++ codes " " ++ decimal query.now.at ++ codes " root "
        ++ decimal root_at)) }
{
    let kind = kind_word(query.kind);
    let at = query.at;
    let mut bytes = format!(in alloc; "proof {index} {kind} ")?.into_bytes();
    bytes.extend_from_slice(query.key.as_bytes())?;
    let rest = format!(in alloc; " {at} root {root_at}\n")?;
    bytes.extend_from_slice(rest.as_bytes())?;
    Ok(Bytes::from_vec(bytes))
}

/// The lines of a proof that is accepted: its own, and those of the answer.
pub(crate) fn accepted_lines(
    alloc: Global,
    index: u32,
    checked: &Checked,
) -> Result<Seq<Bytes>, Memory>
    requires { HasValue (answer_seen checked.now.found) }
    ensures { IfOk result (λ lines. lines ≡ proof_lines index (Ok (checked_seen checked.now))) }
{
    let head = accepted_proof_line(alloc, index, &checked.query, checked.root_at)?;
    let answer = answer_of(alloc, &checked.found)?;
    let mut lines = Seq::new(alloc);
    lines.push(head)?;
    lines.append(answer_lines(alloc, &answer)?)?;
    Ok(lines)
}

/// The line of a proof that isn't accepted, as a list.
pub(crate) fn rejected_lines(
    alloc: Global,
    index: u32,
    reject: &LightReject,
) -> Result<Seq<Bytes>, Memory>
    ensures { IfOk result (λ lines. lines ≡ proof_lines index (Err reject.now)) }
{
    let mut lines = Seq::new(alloc);
    lines.push(rejected_proof_line(alloc, index, reject)?)?;
    Ok(lines)
}
