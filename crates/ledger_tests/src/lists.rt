//! The open list of a key, and the lists that later versions of a key closed.

ghost use Rattle.std.specs.Prelude.{◌≡◌};

use crate::acts::{Act, holds_of};
use block_codec::FIRST_VERSION;
use chain_pack::pack;
use lc_base::Key;
use merkle_dag::Lineage;

/// The draft of four blocks of six rows. A lot is made of the first version of a part, then the
/// part has a second one, of which another lot is made.
const DRAFT: &[u8] = br#"[
  [
    {"set": {"sender": "foundry", "key": "raw/part/p1", "value": "batch 17"}},
    {"set": {"sender": "foundry", "key": "raw/part/p2", "value": "batch 18"}}
  ],
  [
    {"set": {"sender": "plant", "key": "raw/lot/l1", "value": 120, "deps": ["raw/part/p1"]}}
  ],
  [
    {"set": {"sender": "foundry", "key": "raw/part/p1", "value": "batch 19"}},
    {"set": {"sender": "plant", "key": "raw/lot/l2", "value": 80, "deps": ["raw/part/p2"]}}
  ],
  [
    {"set": {"sender": "plant", "key": "raw/lot/l3", "value": 200, "deps": ["raw/part/p1"]}}
  ]
]"#;

/// The lists. The newest version of each part has the lot that was made of it, a key without rows
/// has no list, and a lot of which nothing was made has an empty one. The first version of the part
/// that has two holds the lot that was made of it, and the newest versions hold nothing.
const LISTS: [Act<'static>; 7] = [
    Act::OpenList(b"raw/part/p1", Some(&[5])),
    Act::OpenList(b"raw/part/p2", Some(&[4])),
    Act::OpenList(b"raw/part/p3", None),
    Act::OpenList(b"raw/lot/l1", Some(&[])),
    Act::ClosedList(6, 0, &[2]),
    Act::ClosedList(6, 1, &[]),
    Act::ClosedList(6, 3, &[]),
];

/// Whether the open list of a key is this one.
pub(crate) fn has_open_list(lineage: &Lineage, key: &[u8], wanted: Option<&[u32]>) -> bool {
    let Ok(key) = Key::new(key) else {
        return false;
    };
    lineage.open_list(&key) == wanted
}

/// Whether there are as many rows, and the closed list of the one of an index is this one.
pub(crate) fn has_closed_list(lineage: &Lineage, rows: usize, index: u32, wanted: &[u32]) -> bool {
    let count = lineage.row_count();
    count == rows && (index as usize) < count && lineage.closed_list(index) == wanted
}

#[test]
fn next_version_closes_the_list(rt: HostRuntime) {
    let blocks = pack(rt.alloc(), DRAFT, FIRST_VERSION).ok();
    assert!(rt; holds_of(rt.alloc(), blocks, &[], &LISTS) == Some(true));
}
