//! Lists of texts without a clash: none is found.

use lc_base::{Bytes, Memory, TextList};
use std::alloc::Global;
use text_clashes::{ClashSearch, first_clash};

/// The text of one byte.
fn text_of(alloc: Global, byte: u8) -> Result<Bytes, Memory> {
    let mut text = Bytes::new(alloc);
    text.push(byte)?;
    Ok(text)
}

/// The list of these texts, each of one byte.
fn texts_of(alloc: Global, bytes: &[u8]) -> Result<TextList, Memory> {
    let mut texts = TextList::new(alloc);
    for byte in bytes {
        let text = text_of(alloc, *byte)?;
        texts.push(text)?;
    }
    Ok(texts)
}

/// Whether memory suffices, and no two texts of these lists clash.
fn has_no_clash(alloc: Global, given: &[u8], own: &[u8]) -> Result<bool, Memory> {
    let given = texts_of(alloc, given)?;
    let own = texts_of(alloc, own)?;
    match first_clash(alloc, &given, &own) {
        Ok(found) => Ok(found.is_none()),
        Err(Memory) => Err(Memory),
    }
}

/// The same by a search that is given the texts of the second list one after another.
fn finds_no_clash(alloc: Global, given: &[u8], own: &[u8]) -> Result<bool, Memory> {
    let given = texts_of(alloc, given)?;
    let mut search = ClashSearch::new(alloc, given)?;
    for byte in own {
        search.add(text_of(alloc, *byte)?);
    }
    Ok(search.finish()?.is_none())
}

#[test]
fn lists_without_a_clash(rt: HostRuntime) {
    let lists: [(&[u8], &[u8]); 3] = [(b"ab", b"ab"), (b"", b"ab"), (b"aba", b"")];
    for (given, own) in lists {
        assert!(rt; has_no_clash(rt.alloc(), given, own) == Ok(true));
        assert!(rt; finds_no_clash(rt.alloc(), given, own) == Ok(true));
    }
}
