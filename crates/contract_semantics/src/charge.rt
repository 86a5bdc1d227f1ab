//! The charges of a call: fixed numbers, so that every machine finds the same cost.

ghost use Rattle.std.specs.Prelude.{◌≡◌};
ghost use Rattle.contract_semantics.specs.Charges.{charge_of};

use contract_tree::Builtin;

/// The charge of each statement, each turn of a loop, and each node of an expression, taken when it
/// begins.
pub const CHARGE_NODE: u32 = 1;

/// The further charge of a builtin that reads the present value of a key.
pub const CHARGE_READ: u32 = 8;

/// The further charge of a builtin that asks about the past.
pub const CHARGE_HISTORY: u32 = 80;

/// The further charge of a `put`, taken once its parts have been evaluated.
pub const CHARGE_PUT: u32 = 16;

/// The further charge of a builtin, taken once its arguments have been evaluated.
pub fn charge_of(builtin: Builtin) -> u32
    ensures { result ≡ charge_of builtin }
{
    match builtin {
        Builtin::GetInt | Builtin::GetText | Builtin::Has => CHARGE_READ,
        Builtin::Caller | Builtin::Block | Builtin::Len | Builtin::Text => 0,
        Builtin::HistInt
        | Builtin::HistText
        | Builtin::HistBlock
        | Builtin::HistTx
        | Builtin::Seen
        | Builtin::BackCount
        | Builtin::FwdCount
        | Builtin::BackKey
        | Builtin::FwdKey
        | Builtin::BackBlock
        | Builtin::FwdBlock => CHARGE_HISTORY,
    }
}
