//! A proof of all ancestors is written field by field, in the order of `trace_fields`; numbers are
//! big-endian.

ghost use Rattle.std.specs.{
  Prelude.{◌≡◌, ◌++◌, ◌≤◌, ◌<◌, ◌^◌, length, IfOk, OnOk},
  List.{concat, flat_map, AllByRecursion},
  Int.{w32, to_be_bytes},
};
ghost use Rattle.lc_base.specs.declared.limits.TheConstants.{MAX_ROWS};
ghost use Rattle.proof_checks.specs.{
  TraceSpelling.{item_fields, items_fields},
  TraceTexts.{IsTraceItem},
};

use byte_fields::put_u32;
use lc_base::{Bytes, Memory};
use proof_checks::{TRACE_MAGIC, TraceItem};
use prov_entry::{write_body, write_header};
use std::alloc::Global;

/// Appends the header and the body of an ancestor.
fn put_item(alloc: Global, out: &mut Vec<u8>, item: &TraceItem) -> Result<(), Memory>
    requires { IsTraceItem item.now }
    ensures { OnOk result (out.new.items ≡ out.old.items ++ concat (item_fields item.now)) }
{
    let header = write_header(alloc, &item.header)?;
    out.extend_from_slice(header.as_bytes())?;
    let body = write_body(alloc, &item.body)?;
    out.extend_from_slice(body.as_bytes())?;
    Ok(())
}

/// Appends ancestors, one after another.
fn put_items(alloc: Global, out: &mut Vec<u8>, items: &[TraceItem]) -> Result<(), Memory>
    requires { AllByRecursion IsTraceItem items.now }
    ensures { OnOk result (out.new.items ≡ out.old.items
        ++ concat (flat_map item_fields items.now)) }
{
    for item in items {
        put_item(alloc, out, item)?;
    }
    Ok(())
}

/// The bytes of a proof of all ancestors, from those of its start.
pub(crate) fn write_trace(alloc: Global, start: &[u8], items: &[TraceItem]) -> Result<Bytes, Memory>
    requires start_fits { length start.now < 2 ^ 32 }
    requires few { length items.now ≤ MAX_ROWS }
    requires lawful { AllByRecursion IsTraceItem items.now }
    ensures { IfOk result (λ bytes. bytes ≡ TRACE_MAGIC ++ (to_be_bytes w32 (length start.now)
        ++ (start.now ++ concat (items_fields items.now)))) }
{
    let mut out = Vec::new(alloc);
    out.extend_from_slice(&TRACE_MAGIC)?;
    put_u32(&mut out, start.len() as u32)?;
    out.extend_from_slice(start)?;
    put_u32(&mut out, items.len() as u32)?;
    put_items(alloc, &mut out, items)?;
    Ok(Bytes::from_vec(out))
}
