//! Bodies and leaves as they are written: calls that the program doesn't make.

use lc_base::{Digest, Key, Value};
use prov_entry::{Body, BodyDepList, Leaf, no_uses, write_body, write_leaf};
use std::alloc::Global;

/// The digest of a header in a leaf.
const HEADER: Digest = Digest([7; 32]);

/// Whether the body of the number 5, without dependencies, is written as these bytes.
fn writes_body(alloc: Global, wanted: &[u8]) -> bool {
    let body = Body {
        value: Value::Int(5),
        deps: BodyDepList::new(alloc),
    };
    match write_body(alloc, &body) {
        Ok(bytes) => bytes.as_bytes() == wanted,
        Err(_) => false,
    }
}

/// Whether the leaf of a key without uses, whose newest version is in block 3, begins and ends with
/// these bytes.
fn writes_leaf(alloc: Global, start: &[u8], end: &[u8]) -> bool {
    let Ok(key) = Key::new(b"raw/a") else {
        return false;
    };
    let leaf = Leaf {
        key: Some(key),
        next: None,
        newest_block: 3,
        newest: HEADER,
        open_count: 0,
        open_digest: no_uses(),
    };
    match write_leaf(alloc, &leaf) {
        Ok(bytes) => bytes.as_bytes().starts_with(start) && bytes.as_bytes().ends_with(end),
        Err(_) => false,
    }
}

#[test]
fn written_entries(rt: HostRuntime) {
    assert!(rt; writes_body(rt.alloc(), &[0, 0, 0, 0, 0, 0, 0, 0, 5, 0]));
    let start = b"\0\x05raw/a\0\0\0\0\x03\x07";
    assert!(rt; writes_leaf(rt.alloc(), start, &no_uses().0));
}
