//! A range proof is written field by field, in the order of `range_fields`; numbers are big-endian.
//! Each header is made of what is in memory, and each body is read from the scratch device, when it
//! is written.

ghost use Rattle.std.specs.{
  Prelude.{◌≡◌, ◌++◌, ◌+◌, ◌<◌, ◌^◌, true, length, OnOk, IsErrOf},
  List.{concat, flat_map},
  Int.{w32, to_be_bytes},
};
ghost use Rattle.lc_io.specs.Scratch.{is_known};
ghost use Rattle.entry_store.specs.declared.entry.EntryId.{EntryId as Id};
ghost use Rattle.prov_query.specs.merkle_dag.Lineage.{AgreesWith, LeavesLineage};
ghost use Rattle.proof_checks.specs.RangeSpelling.{front_fields};
ghost use Rattle.range_proof.specs.Parts.{
  AreWithin,
  AreEntriesWithin,
  AddsBodies,
  header_fields_at,
  body_fields_at,
};

use crate::asked::Asked;
use byte_fields::{put_key, put_u32};
use entry_store::EntryId;
use entry_views::body_of_bytes;
use lc_base::{HostError, Memory};
use lc_io::Scratch;
use proof_checks::RANGE_MAGIC;
use prov_entry::{write_body, write_header};
use prov_query::{Counter, Lineage, Steps};
use std::alloc::Global;

/// Appends the magic bytes, the key, the first block and the last one.
pub(crate) fn put_front(out: &mut Vec<u8>, asked: &Asked) -> Result<(), Memory>
    ensures { OnOk result (out.new.items ≡ out.old.items
        ++ concat (front_fields asked.now.key asked.now.from asked.now.to)) }
{
    out.extend_from_slice(&RANGE_MAGIC)?;
    put_key(out, &asked.key)?;
    put_u32(out, asked.from)?;
    put_u32(out, asked.to)
}

/// Appends the header of the row at an index.
fn put_header<C: Counter>(
    alloc: Global,
    lineage: &Lineage,
    out: &mut Vec<u8>,
    index: u32,
    steps: &mut Steps<C>,
) -> Result<(), Memory>
    requires { index < length lineage.now.rows }
    ensures { OnOk result (out.new.items ≡ out.old.items
        ++ concat (header_fields_at lineage.now.rows index)) }
{
    // All rows are typed, so their headers can be spelled.
    let _typed = lineage.row_count();
    let header = lineage.header(index, steps)?;
    let bytes = write_header(alloc, &header)?;
    out.extend_from_slice(bytes.as_bytes())?;
    Ok(())
}

/// Appends the headers of the rows of entries, one after another.
fn put_path<C: Counter>(
    alloc: Global,
    lineage: &Lineage,
    out: &mut Vec<u8>,
    path: &[EntryId],
    steps: &mut Steps<C>,
) -> Result<(), Memory>
    requires { AreEntriesWithin lineage.now.rows path.now }
    ensures { OnOk result (out.new.items ≡ out.old.items
        ++ concat (flat_map (λ (id : Id). header_fields_at lineage.now.rows id.0) path.now)) }
{
    for id in path {
        put_header(alloc, lineage, out, id.0, steps)?;
    }
    Ok(())
}

/// Appends the headers of the rows at indexes, one after another.
fn put_further<C: Counter>(
    alloc: Global,
    lineage: &Lineage,
    out: &mut Vec<u8>,
    further: &[u32],
    steps: &mut Steps<C>,
) -> Result<(), Memory>
    requires { AreWithin lineage.now.rows further.now }
    ensures { OnOk result (out.new.items ≡ out.old.items
        ++ concat (flat_map (header_fields_at lineage.now.rows) further.now)) }
{
    for index in further {
        put_header(alloc, lineage, out, *index, steps)?;
    }
    Ok(())
}

/// Appends the number of headers in four bytes, and the headers: those on the path of the lookup,
/// by their entries, and the further ones, by the indexes of their rows.
pub(crate) fn put_headers<C: Counter>(
    alloc: Global,
    lineage: &Lineage,
    out: &mut Vec<u8>,
    path: &[EntryId],
    further: &[u32],
    steps: &mut Steps<C>,
) -> Result<(), Memory>
    requires path { AreEntriesWithin lineage.now.rows path.now }
    requires further { AreWithin lineage.now.rows further.now }
    requires few { length path.now + length further.now < 2 ^ 32 }
    ensures { OnOk result (out.new.items ≡ out.old.items
        ++ (to_be_bytes w32 (length path.now + length further.now)
        ++ (concat (flat_map (λ (id : Id). header_fields_at lineage.now.rows id.0) path.now)
        ++ concat (flat_map (header_fields_at lineage.now.rows) further.now)))) }
{
    put_u32(out, (path.len() + further.len()) as u32)?;
    put_path(alloc, lineage, out, path, steps)?;
    put_further(alloc, lineage, out, further, steps)
}

/// Appends the body of the row at an index. Whatever bytes the scratch device holds, a body is
/// spelled.
fn put_body<S: Scratch>(
    alloc: Global,
    lineage: &mut Lineage,
    scratch: &mut S,
    out: &mut Vec<u8>,
    index: u32,
) -> Result<(), HostError>
    requires within { index < length lineage.old.rows }
    requires agrees { AgreesWith lineage.old (S.state scratch.old) }
    // If it is known which bytes the scratch device holds:
    ensures own { is_known (S.state scratch.old) ≡ true → OnOk result
        (out.new.items ≡ out.old.items ++ concat (body_fields_at lineage.old.rows index)) }
    // Whether that is known or not:
    ensures one { OnOk result (AddsBodies 1 out.old.items out.new.items) }
    ensures leaves { LeavesLineage S.state S.scratch_faults lineage.old scratch.old lineage.new
        scratch.new (IsErrOf result HostError.Fault) }
{
    // All rows are typed, so their bodies can be spelled.
    let _typed = lineage.row_count();
    let kept = lineage.body_of(scratch, EntryId(index))?;
    let body = body_of_bytes(alloc, &kept)?;
    let bytes = write_body(alloc, &body)?;
    out.extend_from_slice(bytes.as_bytes())?;
    Ok(())
}

/// Appends the bodies of the rows at indexes, one after another.
pub(crate) fn put_bodies<S: Scratch>(
    alloc: Global,
    lineage: &mut Lineage,
    scratch: &mut S,
    out: &mut Vec<u8>,
    indexes: &[u32],
) -> Result<(), HostError>
    requires within { AreWithin lineage.old.rows indexes.now }
    requires agrees { AgreesWith lineage.old (S.state scratch.old) }
    // If it is known which bytes the scratch device holds:
    ensures own { is_known (S.state scratch.old) ≡ true → OnOk result (out.new.items
        ≡ out.old.items ++ concat (flat_map (body_fields_at lineage.old.rows) indexes.now)) }
    // Whether that is known or not:
    ensures as_many { OnOk result (AddsBodies (length indexes.now) out.old.items out.new.items) }
    ensures leaves { LeavesLineage S.state S.scratch_faults lineage.old scratch.old lineage.new
        scratch.new (IsErrOf result HostError.Fault) }
{
    for index in indexes {
        match put_body(alloc, lineage, scratch, out, *index) {
            Ok(()) => {}
            Err(error) => return Err(error),
        }
    }
    Ok(())
}
