use crate::side::Side;
use contract_tree::Builtin;

/// What a builtin wants of a version.
#[derive(Clone, Copy)]
pub(crate) enum Wanted {
    /// What this builtin returns of it.
    Part(Builtin),
    /// The length of one of its lists.
    Count(Side),
}
