//! The names that are visible, oldest first.

use crate::table::NameTable;
use contract_tree::ValueKind;

/// Names with the kinds of their values.
pub type Scope = NameTable<ValueKind>;
