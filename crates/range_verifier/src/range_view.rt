//! `view_range` checks that bytes are a whole range proof; every part of a `RangeView` is read from
//! the bytes that it checked.

ghost use Rattle.std.specs.Prelude.{◌≡◌, Ok, IfOk, IfErr, IfSome};
ghost use Rattle.lc_base.specs.Answers.{Answers};
ghost use Rattle.byte_fields.specs.Reader.{fault_left, Reads};
ghost use Rattle.proof_codec.specs.Viewing.{told_at};
ghost use Rattle.proof_verifier.specs.{
  proof_checks.RangeSpelling.{SpellsRange},
  proof_checks.declared.range_proof.RangeProof.{RangeProof as RangeValue},
};
ghost use Rattle.range_verifier.specs.Reading.{headers_at, way_at, range_at, range_in, IsInvalidAt};

use crate::bodies_view::{BodiesView, read_bodies};
use crate::front::{RangeQuery, front};
use crate::within::count_within;
use byte_fields::{Fault, Reader};
use lc_base::Key;
use proof_codec::{HeadersView, LeafProofView, ViewError, read_each_header, read_leaf_proof};
use std::marker::Model;

/// A range proof read in place.
#[derive(Drop)]
pub struct RangeView<'p> {
    query: RangeQuery,
    leaf_proof: LeafProofView<'p>,
    headers: HeadersView<'p>,
    bodies: BodiesView<'p>,
}

impl<'p> Model for RangeView<'p> {
    ghost use Rattle.proof_verifier.specs.proof_checks.declared.range_proof.RangeProof.{
      RangeProof as RangeValue,
    };

    ghost Value = { RangeValue };

    ghost view = { λ range. record {
      key = range.query.key;
      from = range.query.from;
      to = range.query.to;
      leaf_proof = range.leaf_proof;
      headers = range.headers;
      bodies = range.bodies;
    } };
}

impl<'p> RangeView<'p> {
    /// The key.
    pub fn key(&self) -> &Key
        ensures { result.now ≡ self.now.key }
    {
        &self.query.key
    }

    /// The first block.
    pub fn from(&self) -> u32
        ensures { result ≡ self.now.from }
    {
        self.query.from
    }

    /// The last block.
    pub fn to(&self) -> u32
        ensures { result ≡ self.now.to }
    {
        self.query.to
    }

    /// What shows the leaf that covers the key.
    pub fn leaf_proof(&self) -> &LeafProofView<'p>
        ensures { result.now ≡ self.now.leaf_proof }
    {
        &self.leaf_proof
    }

    /// The headers, the newest first.
    pub fn headers(&self) -> HeadersView<'p>
        ensures { result ≡ self.now.headers }
    {
        self.headers.again()
    }

    /// The bodies of the headers between the blocks, in the same order.
    pub fn bodies(&self) -> BodiesView<'p>
        ensures { result ≡ self.now.bodies }
    {
        self.bodies.again()
    }
}

/// Reads the number of headers in four bytes (big-endian), then the headers.
#[tactic(auto, unfolding(crate::specs::Reading::headers_at))]
fn headers<'p>(reader: &mut Reader<'p>) -> Result<HeadersView<'p>, Fault>
    ensures { Reads fault_left result (headers_at reader.old) reader.new }
{
    let count = reader.u32()?;
    read_each_header(reader, count)
}

#[tactic(auto, unfolding(crate::specs::Reading::range_at, crate::specs::Reading::way_at))]
fn range<'p>(reader: &mut Reader<'p>) -> Result<RangeView<'p>, Fault>
    ensures { Reads fault_left result (range_at reader.old) reader.new }
{
    let query = front(reader)?;
    let leaf_proof = read_leaf_proof(reader, query.to)?;
    let headers = headers(reader)?;
    let count = count_within(&headers, query.from, query.to);
    let bodies = read_bodies(reader, count)?;
    Ok(RangeView {
        query,
        leaf_proof,
        headers,
        bodies,
    })
}

#[tactic(auto, unfolding(crate::specs::Reading::range_in))]
fn range_in<'p>(bytes: &'p [u8]) -> Result<RangeView<'p>, ViewError>
    ensures { Answers (λ range. range) told_at result (range_in bytes.now) }
{
    let mut reader = Reader::new(bytes);
    match range(&mut reader) {
        Ok(range) => {
            let left = reader.remaining();
            if left > 0 {
                return Err(ViewError::Malformed {
                    at: bytes.len() - left,
                });
            }
            Ok(range)
        }
        Err(fault) => Err(ViewError::Malformed {
            at: bytes.len() - fault.left,
        }),
    }
}

/// Reads the bytes as a range proof. `Malformed` exactly if they aren't one.
pub fn view_range<'p>(bytes: &'p [u8]) -> Result<RangeView<'p>, ViewError>
    // What is read is spelled by the bytes.
    ensures found { IfOk result (λ range. SpellsRange bytes.now range) }
    // What the bytes spell is read.
    ensures only { (range : RangeValue) → SpellsRange bytes.now range → result ≡ Ok range }
    // An error has the offset of the fault.
    ensures fault { IfErr result (λ error. IfSome (told_at error) (IsInvalidAt bytes.now)) }
    // The result is that of the function that defines what bytes are as a range proof.
    ensures exact { Answers (λ range. range) told_at result (range_in bytes.now) }
{
    range_in(bytes)
}
