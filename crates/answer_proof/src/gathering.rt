//! A proof is gathered from a lineage whose last block is the root's.

ghost use Rattle.std.specs.{
  Prelude.{◌≡◌, ◌≤◌, true, IfOk, IsErrOf},
  List.{concat},
  Option.{is_some, option_map},
};
ghost use Rattle.lc_base.specs.History.{latest};
ghost use Rattle.lc_io.specs.Scratch.{is_known};
ghost use Rattle.plain_rows.specs.Places.{IsRowAt};
ghost use Rattle.prov_entry.specs.Spelling.{IsBody};
ghost use Rattle.root_laws.specs.Naming.{body_of};
ghost use Rattle.merkle_dag.specs.Lineage.{AgreesWith, LeavesLineage};
ghost use Rattle.proof_codec.specs.Spelling.{IsProof, IsIfAny, proof_fields};
ghost use Rattle.proof_checks.specs.Making.{made_of};
ghost use Rattle.answer_proof.specs.Proving.{IsButForBody};

use crate::answering::{body_if_any, uses_if_asked};
use crate::asked::Asked;
use crate::typed::check_types;
use crate::walking::path_headers;
use lc_base::{Bytes, HostError, Memory};
use lc_io::Scratch;
use merkle_dag::{Counter, Lineage, Steps};
use proof_codec::{LeafProof, Proof, write};
use prov_entry::Body;
use std::alloc::Global;

/// The counter of the entries that are read for a proof, which nobody asks for. Counts of it are
/// begun in this file alone.
struct Proving;

impl Counter for Proving {
    ghost use Rattle.std.specs.Prelude.{true};

    ghost may_begin = { true };
}

/// The proof made of all rows of a lineage, with this body. `answer` is the index of the row that
/// answers. The rows must be those up to the root's block.
fn proof_with<C: Counter>(
    alloc: Global,
    lineage: &Lineage,
    asked: &Asked,
    answer: Option<u32>,
    body: Option<Body>,
    steps: &mut Steps<C>,
) -> Result<Proof, Memory>
    requires early { asked.now.query.at ≤ asked.now.root_at }
    requires answer { IsRowAt lineage.now.rows answer
        (latest lineage.now.rows asked.now.query.key asked.now.query.at) }
    requires there { is_some body ≡ is_some
        (latest lineage.now.rows asked.now.query.key asked.now.query.at) }
    requires body { IsIfAny IsBody body }
    ensures made { body ≡ option_map (body_of lineage.now.rows)
        (latest lineage.now.rows asked.now.query.key asked.now.query.at)
        → IfOk result (λ proof. proof ≡ made_of lineage.now.rows asked.now.root_at
        asked.now.block_digest.0 asked.now.query) }
    ensures always { IfOk result
        (λ proof. proof ≡ record (made_of lineage.now.rows asked.now.root_at
        asked.now.block_digest.0 asked.now.query) { body = body }) }
    ensures lawful { IfOk result IsProof }
{
    check_types(lineage, asked);
    let tree = lineage.tree();
    let leaf_index = tree.covering(&asked.query.key);
    let audit = tree.audit(leaf_index)?;
    let headers = path_headers(alloc, lineage, &asked.query.key, asked.query.at, steps)?;
    let uses = uses_if_asked(lineage, asked.query.kind, answer)?;
    Ok(Proof {
        query: asked.query,
        leaf_proof: LeafProof {
            root_at: asked.root_at,
            block_digest: asked.block_digest,
            leaf_count: tree.count(),
            leaf_index,
            leaf: tree.leaf(leaf_index),
            audit,
        },
        headers,
        body,
        uses,
    })
}

/// The bytes of the proof made of all rows of a lineage, which must be those up to the root's
/// block.
pub(crate) fn bytes_of_rows<S: Scratch>(
    alloc: Global,
    lineage: &mut Lineage,
    scratch: &mut S,
    asked: &Asked,
) -> Result<Bytes, HostError>
    requires early { asked.now.query.at ≤ asked.now.root_at }
    requires agrees { AgreesWith lineage.old (S.state scratch.old) }
    // If it is known which bytes the scratch device holds:
    ensures bytes { is_known (S.state scratch.old) ≡ true
        → IfOk result (λ bytes. bytes ≡ concat (proof_fields (made_of lineage.old.rows
        asked.now.root_at asked.now.block_digest.0 asked.now.query))) }
    // Whether that is known or not:
    ensures always { IfOk result (IsButForBody (made_of lineage.old.rows asked.now.root_at
        asked.now.block_digest.0 asked.now.query)) }
    ensures leaves { LeavesLineage S.state S.scratch_faults lineage.old scratch.old lineage.new
        scratch.new (IsErrOf result HostError.Fault) }
{
    let mut steps = Steps::<Proving>::new();
    let answer = lineage.latest_row(&asked.query.key, asked.query.at, &mut steps);
    let body = body_if_any(alloc, lineage, scratch, answer)?;
    let proof = proof_with(alloc, lineage, asked, answer, body, &mut steps)?;
    let bytes = write(alloc, &proof)?;
    Ok(bytes)
}
