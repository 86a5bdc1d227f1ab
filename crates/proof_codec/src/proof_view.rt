//! `view` checks a whole proof; every part of a `ProofView` is read from the bytes that it checked.

ghost use Rattle.std.specs.{Prelude.{◌≡◌, Ok, IfOk, IfErr, IfSome}, Option.{option_map}};
ghost use Rattle.lc_base.specs.Answers.{Answers};
ghost use Rattle.entry_views.specs.{
  byte_fields.Prefixes.{IsLongestPrefix},
  byte_fields.Reader.{fault_left, Reads, ReadsAs},
  Reading.{body_at},
};
ghost use Rattle.proof_codec.specs.{
  Spelling.{IsProof, proof_fields, last_of, is_answer, asks_uses},
  Reading.{if_any_at, uses_at, way_at, proof_at},
  declared.proof.Proof.{Proof as ProofValue},
  Viewing.{Spells, proof_in, told_at},
};

use crate::audit_view::AuditView;
use crate::front::front;
use crate::headers_view::{HeadersView, read_headers};
use crate::leaf_proof_view::{LeafProofView, read_leaf_proof};
use crate::use_view::{UseView, read_uses};
use entry_views::{BodyView, Fault, LeafView, Reader};
use lc_base::{Digest, Kind, Query};
use std::marker::Model;

/// Why bytes aren't a proof.
#[derive(Clone, Copy)]
pub enum ViewError {
    /// The offset of the first field that is cut short or breaks its rule.
    Malformed { at: usize },
}

/// A proof read in place.
#[derive(Drop)]
pub struct ProofView<'p> {
    query: Query,
    leaf_proof: LeafProofView<'p>,
    headers: HeadersView<'p>,
    body: Option<BodyView<'p>>,
    uses: Option<UseView<'p>>,
}

impl<'p> Model for ProofView<'p> {
    ghost use Rattle.std.specs.Option.{option_map};
    ghost use Rattle.proof_codec.specs.declared.proof.Proof.{Proof as ProofValue};

    ghost Value = { ProofValue };

    ghost view = { λ proof. record {
      query = proof.query;
      leaf_proof = proof.leaf_proof;
      headers = proof.headers;
      body = option_map (λ body. body.value) proof.body;
      uses = proof.uses;
    } };
}

impl<'p> ProofView<'p> {
    /// The query that the proof answers.
    pub fn query(&self) -> Query
        ensures { result ≡ self.now.query }
    {
        self.query
    }

    /// What shows the leaf that covers the key.
    pub fn leaf_proof(&self) -> &LeafProofView<'p>
        ensures { result.now ≡ self.now.leaf_proof }
    {
        &self.leaf_proof
    }

    /// The block of the root.
    pub fn root_at(&self) -> u32
        ensures { result ≡ self.now.leaf_proof.root_at }
    {
        self.leaf_proof.place().root_at
    }

    /// The digest of the root's block.
    pub fn block_digest(&self) -> Digest
        ensures { result ≡ self.now.leaf_proof.block_digest }
    {
        self.leaf_proof.place().block_digest
    }

    /// The number of leaves of the tree.
    pub fn leaf_count(&self) -> u32
        ensures { result ≡ self.now.leaf_proof.leaf_count }
    {
        self.leaf_proof.place().leaf_count
    }

    /// The index of the leaf that covers the key, from 0.
    pub fn leaf_index(&self) -> u32
        ensures { result ≡ self.now.leaf_proof.leaf_index }
    {
        self.leaf_proof.place().leaf_index
    }

    /// The leaf that covers the key.
    pub fn leaf(&self) -> &LeafView<'p>
        ensures { result.now.value ≡ self.now.leaf_proof.leaf }
    {
        self.leaf_proof.leaf()
    }

    /// The audit path of the leaf.
    pub fn audit(&self) -> AuditView<'p>
        ensures { result ≡ self.now.leaf_proof.audit }
    {
        self.leaf_proof.audit()
    }

    /// The headers, the newest first.
    pub fn headers(&self) -> HeadersView<'p>
        ensures { result ≡ self.now.headers }
    {
        self.headers.again()
    }

    /// The body of the version that answers.
    pub fn body(&self) -> Option<&BodyView<'p>>
        ensures { option_map (λ body. body.now.value) result ≡ self.now.body }
    {
        self.body.as_ref()
    }

    /// What was derived from the version that answers; `None` if the query doesn't ask for it.
    pub fn uses(&self) -> Option<UseView<'p>>
        ensures { result ≡ self.now.uses }
    {
        match &self.uses {
            None => None,
            Some(uses) => Some(uses.again()),
        }
    }
}

/// Whether the version of the last header answers a query at block `at`.
fn is_answered(headers: &HeadersView, at: u32) -> bool
    ensures { result ≡ is_answer at (last_of headers.now) }
{
    match headers.last_block() {
        None => false,
        Some(block) => block <= at,
    }
}

fn body_if<'p>(reader: &mut Reader<'p>, there: bool) -> Result<Option<BodyView<'p>>, Fault>
    ensures { ReadsAs (λ body. option_map (λ body. body.value) body) fault_left result (if_any_at body_at there reader.old) reader.new }
{
    if !there {
        return Ok(None);
    }
    Ok(Some(BodyView::read(reader)?))
}

fn uses_if<'p>(reader: &mut Reader<'p>, there: bool) -> Result<Option<UseView<'p>>, Fault>
    ensures { ReadsAs (λ uses. uses) fault_left result (if_any_at uses_at there reader.old) reader.new }
{
    if !there {
        return Ok(None);
    }
    Ok(Some(read_uses(reader)?))
}

#[tactic(auto, unfolding(crate::specs::Reading::proof_at, crate::specs::Reading::way_at))]
fn proof<'p>(reader: &mut Reader<'p>) -> Result<ProofView<'p>, Fault>
    ensures { Reads fault_left result (proof_at reader.old) reader.new }
{
    let query = front(reader)?;
    let leaf_proof = read_leaf_proof(reader, query.at)?;
    let headers = read_headers(reader)?;
    let answered = is_answered(&headers, query.at);
    let body = body_if(reader, answered)?;
    let asked = asks_uses(query.kind, body.is_some());
    let uses = uses_if(reader, asked)?;
    Ok(ProofView {
        query,
        leaf_proof,
        headers,
        body,
        uses,
    })
}

/// Whether a query of this kind asks for uses, given whether a version answers it.
fn asks_uses(kind: Kind, answered: bool) -> bool
    ensures { result ≡ asks_uses kind answered }
{
    match kind {
        Kind::Hist | Kind::Back => false,
        Kind::Fwd => answered,
    }
}

#[tactic(auto, unfolding(crate::specs::Viewing::proof_in))]
fn proof_in<'p>(bytes: &'p [u8]) -> Result<ProofView<'p>, ViewError>
    ensures { Answers (λ proof. proof) told_at result (proof_in bytes.now) }
{
    let mut reader = Reader::new(bytes);
    match proof(&mut reader) {
        Ok(proof) => {
            let left = reader.remaining();
            if left > 0 {
                return Err(ViewError::Malformed {
                    at: bytes.len() - left,
                });
            }
            Ok(proof)
        }
        Err(fault) => Err(ViewError::Malformed {
            at: bytes.len() - fault.left,
        }),
    }
}

/// Reads the bytes as a proof. `Malformed` exactly if they aren't one.
pub fn view<'p>(bytes: &'p [u8]) -> Result<ProofView<'p>, ViewError>
    // What is read is spelled by the bytes.
    ensures found { IfOk result (λ proof. Spells bytes.now proof) }
    // What the bytes spell is read.
    ensures only { (proof : ProofValue) → Spells bytes.now proof → result ≡ Ok proof }
    // An error has the offset of the fault.
    ensures fault { IfErr result (λ error. IfSome (told_at error) (IsLongestPrefix proof_fields IsProof bytes.now)) }
    // The result is that of the function that defines what bytes are as a proof.
    ensures exact { Answers (λ proof. proof) told_at result (proof_in bytes.now) }
{
    proof_in(bytes)
}
