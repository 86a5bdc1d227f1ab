//! What becomes of puts: when there would be one too many, the value that is pending, and rows.
//! They are in the order in which their keys were first put.

ghost use Rattle.std.specs.{
  Prelude.{◌≡◌, ◌&&◌, not, nat_le, length, IfOk},
  Option.{option_copied},
};
ghost use Rattle.dep_capture.specs.{
  declared.limits.TheConstants.{MAX_KEYS_PUT},
  Capture.{was_put, pending, row_of_put, rows_of_puts},
};

use crate::access::Put;
use crate::keyed::Keyed;
use crate::limits::MAX_KEYS_PUT;
use lc_base::{Key, Row, Value};
use std::alloc::{AllocError, Global};

/// Whether a put of the key would be of one key more than `MAX_KEYS_PUT`.
pub(crate) fn is_one_too_many(puts: &Keyed<Put>, key: &Key) -> bool
    ensures { result ≡ (not (was_put puts.now key.now) && nat_le MAX_KEYS_PUT (length puts.now)) }
{
    !puts.has(key) && puts.len() >= MAX_KEYS_PUT
}

/// The value that was put to the key; `None` if none was.
pub(crate) fn pending<'a>(puts: &'a Keyed<Put>, key: &Key) -> Option<&'a Value>
    ensures { option_copied result ≡ pending puts.now key.now }
{
    match puts.get(key) {
        None => None,
        Some(put) => Some(&put.value),
    }
}

fn row_of_put(block: u32, tx: u16, put: Put) -> Row
    ensures { result ≡ row_of_put block tx put }
{
    Row {
        key: put.key,
        block,
        tx,
        value: put.value,
        deps: put.deps,
    }
}

/// The rows of the puts, in their order.
pub(crate) fn rows_of_puts(
    alloc: Global,
    block: u32,
    tx: u16,
    puts: Vec<Put>,
) -> Result<Vec<Row>, AllocError>
    ensures { IfOk result (λ rows. rows.items ≡ rows_of_puts block tx puts.items) }
{
    puts.into_iter()
        .map(|put| row_of_put(block, tx, put))
        .collect(alloc)
}
