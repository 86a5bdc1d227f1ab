//! The texts of the rows of a lineage: their headers, bodies, and uses. No more than one is made at
//! a time.

ghost use Rattle.std.specs.{
  Prelude.{◌≡◌, ◌<◌, ◌≤◌, true, [], ◌∷◌, Some, length, slice_get, OnOk, IsErrOf},
  List.{flat_map},
};
ghost use Rattle.lc_base.specs.declared.row.Row.{Row};
ghost use Rattle.lc_io.specs.Scratch.{is_known};
ghost use Rattle.prov_entry.specs.{
  declared.limits.TheConstants.{MAX_LINKS},
  Spelling.{header_text},
};
ghost use Rattle.root_laws.specs.Naming.{header_of};
ghost use Rattle.merkle_dag.specs.Lineage.{AgreesWith, LeavesLineage};
ghost use Rattle.proof_checks.specs.{
  ProofTexts.{texts_of_uses},
  LedgerTexts.{texts_of_row, texts_of_row_uses},
};
ghost use Rattle.text_clashes.specs.Searching.{Searches};

use entry_store::EntryId;
use lc_base::{Dep, HostError, Memory};
use lc_io::Scratch;
use merkle_dag::{Counter, Lineage, Steps};
use prov_entry::{BODY, HEADER, Header, no_uses, with_use, write_header};
use std::alloc::Global;
use text_clashes::{ClashSearch, tagged_text, use_text};

/// The counter of the entries that are read for a search, which nobody asks for. Counts of it are
/// begun in this file alone.
struct Searching;

impl Counter for Searching {
    ghost use Rattle.std.specs.Prelude.{true};

    ghost may_begin = { true };
}

/// Adds the text of a header.
fn search_header(alloc: Global, search: &mut ClashSearch, header: &Header) -> Result<(), Memory>
    requires { length header.now.links ≤ MAX_LINKS }
    ensures { OnOk result (Searches (header_text header.now ∷ []) search.old search.new) }
{
    let bytes = write_header(alloc, header)?;
    search.add(tagged_text(alloc, HEADER, bytes.as_bytes())?);
    Ok(())
}

/// Adds the text of the header of the row at an index.
fn search_row_header(
    alloc: Global,
    search: &mut ClashSearch,
    lineage: &Lineage,
    index: u32,
) -> Result<(), Memory>
    requires { index < length lineage.now.rows }
    ensures { (row : Row) → slice_get lineage.now.rows index ≡ Some row
        → OnOk result (Searches (header_text (header_of lineage.now.rows row) ∷ [])
        search.old search.new) }
{
    // The call makes it known that the rows are typed, so that their headers can be spelled.
    let _typed = lineage.row_count();
    let mut steps = Steps::<Searching>::new();
    let header = lineage.header(index, &mut steps)?;
    search_header(alloc, search, &header)
}

/// Adds the texts of the header and the body of the row at an index; the body's bytes are those
/// that the scratch device has.
fn search_row<S: Scratch>(
    alloc: Global,
    search: &mut ClashSearch,
    lineage: &mut Lineage,
    scratch: &mut S,
    index: u32,
) -> Result<(), HostError>
    requires within { index < length lineage.old.rows }
    requires agrees { AgreesWith lineage.old (S.state scratch.old) }
    // If it is known which bytes the scratch device holds:
    ensures texts { is_known (S.state scratch.old) ≡ true → (row : Row)
        → slice_get lineage.old.rows index ≡ Some row
        → OnOk result (Searches (texts_of_row lineage.old.rows row) search.old search.new) }
    // Whether that is known or not:
    ensures leaves { LeavesLineage S.state S.scratch_faults lineage.old scratch.old lineage.new
        scratch.new (IsErrOf result HostError.Fault) }
{
    search_row_header(alloc, search, lineage, index)?;
    let bytes = lineage.body_of(scratch, EntryId(index))?;
    search.add(tagged_text(alloc, BODY, &bytes)?);
    Ok(())
}

/// Adds the texts of the header and the body of each row, in order.
pub(crate) fn search_rows<S: Scratch>(
    alloc: Global,
    search: &mut ClashSearch,
    lineage: &mut Lineage,
    scratch: &mut S,
) -> Result<(), HostError>
    requires agrees { AgreesWith lineage.old (S.state scratch.old) }
    // If it is known which bytes the scratch device holds:
    ensures texts { is_known (S.state scratch.old) ≡ true
        → OnOk result (Searches (flat_map (texts_of_row lineage.old.rows) lineage.old.rows)
        search.old search.new) }
    // Whether that is known or not:
    ensures leaves { LeavesLineage S.state S.scratch_faults lineage.old scratch.old lineage.new
        scratch.new (IsErrOf result HostError.Fault) }
{
    for index in 0..lineage.row_count() as u32 {
        match search_row(alloc, search, lineage, scratch, index) {
            Ok(()) => {}
            Err(error) => return Err(error),
        }
    }
    Ok(())
}

/// Adds the texts of uses, each with the digest of those before it.
fn search_uses(alloc: Global, search: &mut ClashSearch, uses: &[Dep]) -> Result<(), Memory>
    ensures { OnOk result (Searches (texts_of_uses uses.now) search.old search.new) }
{
    let mut digest = no_uses();
    for one in uses {
        search.add(use_text(alloc, &digest, one)?);
        digest = with_use(&digest, one);
    }
    Ok(())
}

/// Adds the texts of the uses of each row, in order.
pub(crate) fn search_all_uses(
    alloc: Global,
    search: &mut ClashSearch,
    lineage: &Lineage,
) -> Result<(), Memory>
    ensures { OnOk result (Searches (flat_map (texts_of_row_uses lineage.now.rows)
        lineage.now.rows) search.old search.new) }
{
    for index in 0..lineage.row_count() as u32 {
        let uses = lineage.uses(index)?;
        search_uses(alloc, search, uses.as_slice())?;
    }
    Ok(())
}
