//! Values that are read without being copied.

/// A value whose text is borrowed from the bytes that it was read from.
#[derive(Clone, Copy)]
pub enum ValueView<'a> {
    Int(i64),
    Text(&'a [u8]),
    Gone,
}
