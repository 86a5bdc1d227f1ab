//! A fault of bytes, by the offset of the first invalid field.

ghost use Rattle.std.specs.Prelude.{◌≡◌, drop};

/// There is no spelling of an entry where one was to be read.
#[derive(Clone, Copy)]
pub struct FieldError {
    /// The offset at which the first field begins that is cut short or breaks its rule.
    pub at: usize,
}

/// The bytes from an offset on; empty if it is past the end.
pub(crate) fn tail(bytes: &[u8], at: usize) -> &[u8]
    ensures { result.now ≡ drop at bytes.now }
{
    if at > bytes.len() {
        return &[];
    }
    &bytes[at..]
}
