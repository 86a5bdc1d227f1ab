//! Why a part of a draft was not read.

/// Why a part of a draft was not read.
#[derive(Clone, Copy)]
pub enum ReadError {
    /// It has another shape, or breaks the rule of a field.
    Shape,
    /// Out of memory.
    Memory,
}
