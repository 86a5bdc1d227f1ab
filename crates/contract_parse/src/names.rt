//! Names that may be declared: those of no builtin.

ghost use Rattle.std.specs.Prelude.{◌≡◌};
ghost use Rattle.contract_grammar.specs.{Marks.{declared_of}, Rules.{one}, Reads.{Reads}};

use contract_grammar::{Cursor, NameKind, ParseStop};
use lc_base::Name;

/// A name that may be declared, which is no builtin's, and its offset.
pub fn declared_name(cursor: &mut Cursor<'_>) -> Result<(u32, Name), ParseStop>
    ensures { Reads result (one declared_of cursor.old) cursor.new }
{
    cursor.name(NameKind::Declared)
}
