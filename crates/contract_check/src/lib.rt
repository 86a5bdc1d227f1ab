//! Which contracts are well kinded: names are declared once and before use, and builtins and
//! operators get the kinds that they take. And what names stand for, found by name in a time that
//! no choice of names makes long.
#![tactic(auto)]

mod code;
mod contract;
mod expression;
mod fault;
mod indexes;
mod scope;
mod statement;
mod table;
mod used;

pub use contract::{Checked, check};
pub use fault::{CheckError, CheckKind};
pub use table::NameTable;
