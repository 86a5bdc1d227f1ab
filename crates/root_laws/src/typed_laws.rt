//! Laws of typed histories and ledgers, each the contract of a function that does nothing.

ghost use Rattle.root_laws.specs.TypedLaws.{PartsAreTyped, BlocksAreTyped, HeadersAreHeaders, BodiesAreBodies, LeavesAreLeaves};

/// The rows of a typed history up to a block are a typed history.
pub fn parts_are_typed()
    ensures { PartsAreTyped }
{}

/// The number of a ledger's block has 32 bits, and its digest 32 bytes.
pub fn blocks_are_typed()
    ensures { BlocksAreTyped }
{}

/// The header of each row of a typed history can be spelled, so its text determines it.
pub fn headers_are_headers()
    ensures { HeadersAreHeaders }
{}

/// The body of each row of a typed history can be spelled too.
pub fn bodies_are_bodies()
    ensures { BodiesAreBodies }
{}

/// The leaves over the keys of a typed history can be spelled too.
pub fn leaves_are_leaves()
    ensures { LeavesAreLeaves }
{}
