//! A lineage that is asked by calls that the program doesn't make, over the chain of
//! `examples/recall.blocks`.

use crate::acts::{Act, holds_of};
use crate::lineages::Question;
use block_codec::FIRST_VERSION;
use chain_pack::pack;
use hex::FromHex;
use lc_base::{Digest, Kind};
use merkle_dag::{Lineage, QueryError};

/// The draft of the three blocks.
const DRAFT: &[u8] = br#"[
  [
    {"set": {"sender": "foundry", "key": "raw/part/p1", "value": "batch 17"}},
    {"set": {"sender": "foundry", "key": "raw/part/p2", "value": "batch 18"}}
  ],
  [
    {"set": {"sender": "plant", "key": "raw/lot/l1", "value": 120, "deps": ["raw/part/p1"]}},
    {"set": {"sender": "plant", "key": "raw/lot/l2", "value": 80, "deps": ["raw/part/p2"]}}
  ],
  [
    {"set": {"sender": "plant", "key": "raw/lot/l3", "value": 200,
      "deps": ["raw/part/p1", "raw/part/p2"]}},
    {"set": {"sender": "shop", "key": "raw/shop/s1", "value": "l1", "deps": ["raw/lot/l1"]}}
  ]
]"#;

/// The tree hash of the two leaves before the last.
const PAIR: &str = "b72932a29059361920a50e4214789bbc92396695ddfb08a1894f6bf5c1f53478";

/// The tree hash of the first four leaves.
const FOUR: &str = "7c2e11c93b331c080c08fe17b970b57e84664f9a9aa963df1fed9f7f89c725e4";

/// The digest that these digits spell in hex.
fn spelled(digits: &str) -> Option<Digest> {
    match <[u8; 32] as FromHex>::from_hex(digits) {
        Ok(bytes) => Some(Digest(bytes)),
        Err(_) => None,
    }
}

/// Whether the audit path of the last of the seven leaves, that of `raw/shop/s1`, has the tree
/// hashes that are known.
pub(crate) fn has_audit_path(lineage: &Lineage) -> bool {
    let (Some(pair), Some(four)) = (spelled(PAIR), spelled(FOUR)) else {
        return false;
    };
    let tree = lineage.tree();
    if tree.count() != 7 {
        return false;
    }
    match tree.audit(6) {
        Ok(path) => path.as_slice() == [pair, four].as_slice(),
        Err(_) => false,
    }
}

/// What the lineage must tell.
const TOLD: [Act<'static>; 5] = [
    // The uses of the first part are its two lots, and one version is looked at.
    Act::Ask(Question {
        by_ask: true,
        kind: Kind::Fwd,
        key: b"raw/part/p1",
        at: 2,
        told: (b'f', 0, 0, 0),
        list: &[(b"raw/lot/l1", 1), (b"raw/lot/l3", 2)],
        error: None,
        steps: (1, 1),
    }),
    // A question past the last block is answered with that block's number, and looks at nothing.
    Act::Ask(Question {
        by_ask: true,
        kind: Kind::Fwd,
        key: b"raw/part/p1",
        at: 3,
        told: (b'!', 0, 0, 0),
        list: &[],
        error: Some(QueryError::Beyond { head: Some(2) }),
        steps: (0, 0),
    }),
    // The lineage itself answers what the third lot was made of.
    Act::Ask(Question {
        by_ask: false,
        kind: Kind::Back,
        key: b"raw/lot/l3",
        at: 2,
        told: (b'b', 2, 0, 0),
        list: &[(b"raw/part/p1", 0), (b"raw/part/p2", 0)],
        error: None,
        steps: (0, u64::MAX),
    }),
    // The lineage itself answers the number of the third lot, also past the last block.
    Act::Ask(Question {
        by_ask: false,
        kind: Kind::Hist,
        key: b"raw/lot/l3",
        at: 9,
        told: (b'i', 2, 0, 200),
        list: &[],
        error: None,
        steps: (0, u64::MAX),
    }),
    Act::AuditPath,
];

#[test]
fn answers_of_a_lineage(rt: HostRuntime) {
    let blocks = pack(rt.alloc(), DRAFT, FIRST_VERSION).ok();
    assert!(rt; holds_of(rt.alloc(), blocks, &[], &TOLD) == Some(true));
}
