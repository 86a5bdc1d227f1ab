//! What the types of a row's fields say of their values. These calls do nothing: by them contracts
//! know it.

ghost use Rattle.std.specs.{Prelude.{◌^◌, ◌<◌, FitsSigned}, Int.{w64}};
ghost use Rattle.prov_entry.specs.byte_fields.Spelling.{IsValue};
ghost use Rattle.root_laws.specs.TypedLedger.{IsTypedRow};

use lc_base::{Row, Value};

fn check_numbers(block: u32, tx: u16)
    ensures block { block < 2 ^ 32 }
    ensures tx { tx < 2 ^ 16 }
{}

fn check_number(number: i64)
    ensures { FitsSigned w64 number }
{}

fn check_value(value: &Value)
    ensures { IsValue value.now }
{
    match value {
        Value::Int(number) => check_number(*number),
        Value::Text(text) => {
            let _bytes = text.as_bytes();
        }
        Value::Gone => {}
    }
}

/// By this call contracts know that a row is within its types; it does nothing.
pub fn check_row(row: &Row)
    ensures { IsTypedRow row.now }
{
    let _bytes = row.key.as_bytes();
    check_numbers(row.block, row.tx);
    check_value(&row.value);
}
