//! Calls that the program doesn't make: headers are written and read again, and links are found by
//! scanning rows.

use entry_views::read_header;
use lc_base::{DepList, Key, Memory, Row, RowList, Value};
use prov_entry::{Header, LinkList, no_uses, write_header};
use skip_links::links;
use std::alloc::Global;

/// Whether these bytes are read as a header, with nothing after it.
fn is_read_as(bytes: &[u8], header: &Header) -> bool {
    let Ok(view) = read_header(bytes, 0) else {
        return false;
    };
    let fields = view.fields();
    let read = (fields.key, fields.block, fields.tx, fields.body, view.end());
    read == (
        header.key,
        header.block,
        header.tx,
        header.body,
        bytes.len(),
    )
}

/// Whether a header that is written is read again, with nothing after it.
fn is_read_again(alloc: Global) -> bool {
    let Ok(key) = Key::new(b"raw/c") else {
        return false;
    };
    let header = Header {
        key,
        block: 0,
        tx: 1,
        body: no_uses(),
        closed: 0,
        closed_digest: no_uses(),
        links: LinkList::new(alloc),
    };
    match write_header(alloc, &header) {
        Ok(bytes) => is_read_as(bytes.as_bytes(), &header),
        Err(_) => false,
    }
}

#[test]
fn header_that_is_read_again(rt: HostRuntime) {
    assert!(rt; is_read_again(rt.alloc()));
}

/// The versions of a key in these blocks, without dependencies.
fn versions_in(alloc: Global, key: Key, blocks: &[u32]) -> Result<RowList, Memory> {
    let mut rows = RowList::new(alloc);
    for block in blocks {
        rows.push(Row {
            key,
            block: *block,
            tx: 0,
            value: Value::Int(0),
            deps: DepList::new(alloc),
        })?;
    }
    Ok(rows)
}

/// Whether the links of the version of a key in a block are to these blocks, if these are the rows.
fn has_links_in(alloc: Global, rows: &[Row], key: &Key, block: u32, wanted: &[u32]) -> bool {
    match links(alloc, rows, key, block) {
        Ok(found) => found.as_slice() == wanted,
        Err(Memory) => false,
    }
}

/// Whether the links of the version in a block are to these blocks, if its key has versions in the
/// blocks 2, 9 and 10.
fn has_links(alloc: Global, block: u32, wanted: &[u32]) -> bool {
    let Ok(key) = Key::new(b"raw/a") else {
        return false;
    };
    match versions_in(alloc, key, &[2, 9, 10]) {
        Ok(rows) => has_links_in(alloc, rows.as_slice(), &key, block, wanted),
        Err(Memory) => false,
    }
}

#[test]
fn links_of_versions(rt: HostRuntime) {
    // The version in block 9 has height 3, and that in block 10 height 1.
    let links: [(u32, &[u32]); 3] = [(2, &[]), (9, &[2, 2, 2, 2]), (10, &[9, 9])];
    for (block, wanted) in links {
        assert!(rt; has_links(rt.alloc(), block, wanted));
    }
}
