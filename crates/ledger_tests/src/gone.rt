//! A version without a value is kept, proved and verified as any other.

ghost use Rattle.lc_io.specs.MemScratch.{state_over};
ghost use Rattle.merkle_dag.specs.Lineage.{AgreesWith};

use crate::acts::{Act, holds_of};
use block_codec::SECOND_VERSION;
use byte_fields::ValueView;
use chain_pack::pack;
use lc_base::{Digest, Key, Kind, Query};
use lc_io::MemScratch;
use merkle_dag::Lineage;
use proof_verifier::{Found, verify};
use range_proof::prove;
use std::alloc::Global;

/// The draft of four blocks: block 0 has a contract of the second edition, which puts a key and
/// drops it, block 1 gives the key a value, and block 2 drops it.
const DRAFT: &[u8] = br#"[
  [{"deploy": {"sender": "u", "name": "c", "source":
    "fn f() { put \"c/a\" = 1; } fn g() { if has(\"c/a\") { drop \"c/a\"; } }\nfn h() { let x = get_int(\"c/a\"); }"}}],
  [{"call": {"sender": "u", "contract": "c", "function": "f", "args": [], "budget": 100}}],
  [{"call": {"sender": "u", "contract": "c", "function": "g", "args": [], "budget": 100}}],
  [{"call": {"sender": "u", "contract": "c", "function": "h", "args": [], "budget": 100}}]
]"#;

/// The last block.
const LAST: u32 = 3;

/// Whether bytes are a proof, accepted by who has the root, that the last version of a key, that of
/// block 2, says that the key is gone.
fn is_accepted(root: &Digest, query: &Query, proof: &[u8]) -> bool {
    matches!(
        verify(root, query, proof),
        Ok(Found::Hist {
            block: 2,
            tx: 0,
            value: ValueView::Gone,
        })
    )
}

/// Whether who has the root accepts the proof of the key's last version with the answer that it is
/// gone.
pub(crate) fn is_proved_gone(alloc: Global, lineage: &mut Lineage, scratch: &mut MemScratch) -> bool
    requires agrees { AgreesWith lineage.old (state_over scratch.old.bytes) }
    ensures agrees { AgreesWith lineage.new (state_over scratch.new.bytes) }
{
    let (Ok(key), Some(root)) = (Key::new(b"c/a"), lineage.root(LAST)) else {
        return false;
    };
    let query = Query {
        kind: Kind::Hist,
        key,
        at: LAST,
    };
    match prove(alloc, lineage, scratch, &query, LAST) {
        Ok(proof) => is_accepted(&root, &query, proof.as_bytes()),
        Err(_) => false,
    }
}

#[test]
fn version_that_is_gone_is_proved(rt: HostRuntime) {
    let blocks = pack(rt.alloc(), DRAFT, SECOND_VERSION).ok();
    assert!(rt; holds_of(rt.alloc(), blocks, &[], &[Act::ProveGone]) == Some(true));
}
