//! The texts of errors, and the longest text.

use lc_base::{KeyError, MAX_TEXT_BYTES, Text, TextError};
use std::alloc::Global;
use std::fmt::Display;

/// Whether an error has this text.
fn reads<E: Display + Drop>(alloc: Global, error: E, text: &str) -> bool {
    match error.to_string(alloc) {
        Ok(found) => found.as_str() == text,
        Err(_) => false,
    }
}

const KEY_ERRORS: [(KeyError, &str); 3] = [
    (KeyError::Empty, "empty"),
    (KeyError::Long, "too long"),
    (KeyError::Byte(4), "bad byte at 4"),
];

const TEXT_ERRORS: [(TextError, &str); 3] = [
    (TextError::Long, "too long"),
    (TextError::Byte(1023), "bad byte at 1023"),
    (TextError::Memory, "no memory"),
];

#[test]
fn texts_of_errors(rt: HostRuntime) {
    for (error, text) in KEY_ERRORS {
        assert!(rt; reads(rt.alloc(), error, text));
    }
    for (error, text) in TEXT_ERRORS {
        assert!(rt; reads(rt.alloc(), error, text));
    }
}

/// How many bytes the text has that `count` bytes are, or why they are none.
fn text_of(alloc: Global, count: usize) -> Result<usize, TextError> {
    match vec![in alloc; b'a'; count] {
        Ok(bytes) => match Text::new(alloc, &bytes) {
            Ok(text) => Ok(text.as_bytes().len()),
            Err(error) => Err(error),
        },
        Err(_) => Err(TextError::Memory),
    }
}

#[test]
fn longest_texts(rt: HostRuntime) {
    assert!(rt; text_of(rt.alloc(), 0) == Ok(0));
    assert!(rt; text_of(rt.alloc(), MAX_TEXT_BYTES) == Ok(8_192));
    assert!(rt; text_of(rt.alloc(), MAX_TEXT_BYTES + 1) == Err(TextError::Long));
}
