//! `view_trace` checks that bytes are a whole trace; every part of a `TraceView` is read from the
//! bytes that it checked.

ghost use Rattle.std.specs.Prelude.{◌≡◌, Some, Ok, IfOk, IfErr, IfSome};
ghost use Rattle.lc_base.specs.Answers.{Answers};
ghost use Rattle.byte_fields.specs.Reader.{fault_left, Reads, ReadsAs};
ghost use Rattle.proof_codec.specs.Viewing.{told_at};
ghost use Rattle.proof_verifier.specs.{
  proof_checks.TraceSpelling.{SpellsTrace},
  proof_checks.declared.trace_proof.TraceProof.{TraceProof as TraceValue},
};
ghost use Rattle.trace_verifier.specs.{
  Malformed.{IsInvalidAt},
  Reading.{magic_at, proof_of_length, start_at, trace_proof_at, trace_in},
};

use crate::items_view::{ItemsView, read_items};
use byte_fields::{Fault, Reader};
use proof_codec::{ProofView, ViewError, view};
use proof_verifier::TRACE_MAGIC;
use std::marker::Model;

/// A trace read in place.
#[derive(Drop)]
pub struct TraceView<'p> {
    start: ProofView<'p>,
    items: ItemsView<'p>,
}

impl<'p> Model for TraceView<'p> {
    ghost use Rattle.proof_verifier.specs.proof_checks.declared.trace_proof.TraceProof.{
      TraceProof as TraceValue,
    };

    ghost Value = { TraceValue };

    ghost view = { λ trace. record { start = trace.start; items = trace.items } };
}

impl<'p> TraceView<'p> {
    /// The proof of the version.
    pub fn start(&self) -> &ProofView<'p>
        ensures { result.now ≡ self.now.start }
    {
        &self.start
    }

    /// Its ancestors, the last one first.
    pub fn items(&self) -> ItemsView<'p>
        ensures { result ≡ self.now.items }
    {
        self.items.again()
    }
}

#[tactic(auto, unfolding(crate::specs::Reading::magic_at))]
fn magic<'p>(reader: &mut Reader<'p>) -> Result<&'p [u8], Fault>
    ensures { ReadsAs (λ bytes. bytes.now) fault_left result (magic_at reader.old) reader.new }
{
    let left = reader.remaining();
    let bytes = reader.bytes(4)?;
    if bytes != TRACE_MAGIC.as_slice() {
        return Err(Fault { left });
    }
    Ok(bytes)
}

/// The offset in an error.
fn offset_of(error: ViewError) -> usize
    ensures { told_at error ≡ Some result }
{
    match error {
        ViewError::Malformed { at } => at,
    }
}

/// Reads the next `count` bytes as a proof.
#[tactic(auto, using(crate::proofs::Fields::fault_read))]
fn read_proof<'p>(reader: &mut Reader<'p>, count: usize) -> Result<ProofView<'p>, Fault>
    ensures { Reads fault_left result (proof_of_length count reader.old) reader.new }
{
    let left = reader.remaining();
    let bytes = reader.bytes(count)?;
    match view(bytes) {
        Ok(proof) => Ok(proof),
        Err(error) => {
            let at = offset_of(error);
            Err(Fault { left: left - at })
        }
    }
}

/// Reads the number of bytes of a proof in four bytes (big-endian), then the proof.
#[tactic(auto, unfolding(crate::specs::Reading::start_at))]
fn read_start<'p>(reader: &mut Reader<'p>) -> Result<ProofView<'p>, Fault>
    ensures { Reads fault_left result (start_at reader.old) reader.new }
{
    let count = reader.u32()?;
    read_proof(reader, count as usize)
}

#[tactic(auto, unfolding(crate::specs::Reading::trace_proof_at))]
fn trace<'p>(reader: &mut Reader<'p>) -> Result<TraceView<'p>, Fault>
    ensures { Reads fault_left result (trace_proof_at reader.old) reader.new }
{
    magic(reader)?;
    let start = read_start(reader)?;
    let items = read_items(reader)?;
    Ok(TraceView { start, items })
}

#[tactic(auto, unfolding(crate::specs::Reading::trace_in))]
fn trace_in<'p>(bytes: &'p [u8]) -> Result<TraceView<'p>, ViewError>
    ensures { Answers (λ trace. trace) told_at result (trace_in bytes.now) }
{
    let mut reader = Reader::new(bytes);
    match trace(&mut reader) {
        Ok(trace) => {
            let left = reader.remaining();
            if left > 0 {
                return Err(ViewError::Malformed {
                    at: bytes.len() - left,
                });
            }
            Ok(trace)
        }
        Err(fault) => Err(ViewError::Malformed {
            at: bytes.len() - fault.left,
        }),
    }
}

/// Reads the bytes as a trace. `Malformed` exactly if they aren't one; its offset counts from the
/// first byte of the trace, also within the proof of the version.
pub fn view_trace<'p>(bytes: &'p [u8]) -> Result<TraceView<'p>, ViewError>
    // What is read is spelled by the bytes.
    ensures found { IfOk result (λ trace. SpellsTrace bytes.now trace) }
    // What the bytes spell is read.
    ensures only { (trace : TraceValue) → SpellsTrace bytes.now trace → result ≡ Ok trace }
    // An error has the offset of the fault.
    ensures fault { IfErr result (λ error. IfSome (told_at error) (IsInvalidAt bytes.now)) }
    // The result is that of the function that defines what bytes are as a trace.
    ensures exact { Answers (λ trace. trace) told_at result (trace_in bytes.now) }
{
    trace_in(bytes)
}
