//! The body of the version that answers is read from the scratch device; its uses are in memory.

ghost use Rattle.std.specs.{
  Prelude.{◌≡◌, true, Option, IfOk, IsErrOf},
  Option.{is_some, option_map},
};
ghost use Rattle.lc_base.specs.{declared.row.Row.{Row}, History.{uses}};
ghost use Rattle.lc_io.specs.Scratch.{is_known};
ghost use Rattle.plain_rows.specs.Places.{IsRowAt};
ghost use Rattle.prov_entry.specs.Spelling.{IsBody};
ghost use Rattle.root_laws.specs.Naming.{body_of};
ghost use Rattle.merkle_dag.specs.Lineage.{AgreesWith, LeavesLineage};
ghost use Rattle.proof_codec.specs.Spelling.{IsIfAny};
ghost use Rattle.proof_checks.specs.Making.{uses_if};

use entry_store::EntryId;
use entry_views::body_of_bytes;
use lc_base::{DepList, HostError, Kind, Memory};
use lc_io::Scratch;
use merkle_dag::Lineage;
use prov_entry::Body;
use std::alloc::Global;

/// The body of the row at an index; `None` if there is no index.
pub(crate) fn body_if_any<S: Scratch>(
    alloc: Global,
    lineage: &mut Lineage,
    scratch: &mut S,
    index: Option<u32>,
) -> Result<Option<Body>, HostError>
    requires row { (version : Option Row) × IsRowAt lineage.old.rows index version }
    requires agrees { AgreesWith lineage.old (S.state scratch.old) }
    // If it is known which bytes the scratch device holds:
    ensures body { is_known (S.state scratch.old) ≡ true → (version : Option Row) → IsRowAt lineage.old.rows index version
        → IfOk result (λ body. body ≡ option_map (body_of lineage.old.rows) version) }
    // Whether that is known or not:
    ensures there { (version : Option Row) → IsRowAt lineage.old.rows index version → IfOk result (λ body. is_some body ≡ is_some version) }
    ensures lawful { IfOk result (IsIfAny IsBody) }
    ensures leaves { LeavesLineage S.state S.scratch_faults lineage.old scratch.old lineage.new
        scratch.new (IsErrOf result HostError.Fault) }
{
    // All rows are typed, so their bodies can be spelled.
    let _typed = lineage.row_count();
    let Some(index) = index else {
        return Ok(None);
    };
    let bytes = lineage.body_of(scratch, EntryId(index))?;
    let body = body_of_bytes(alloc, &bytes)?;
    Ok(Some(body))
}

/// The uses of the row at an index; `None` if there is no index.
fn uses_if_any(lineage: &Lineage, index: Option<u32>) -> Result<Option<DepList>, Memory>
    requires { (version : Option Row) × IsRowAt lineage.now.rows index version }
    ensures { (version : Option Row) → IsRowAt lineage.now.rows index version → IfOk result (λ list. list ≡ option_map (λ (row : Row). uses lineage.now.rows row.key row.block) version) }
{
    match index {
        None => Ok(None),
        Some(index) => {
            let list = lineage.uses(index)?;
            Ok(Some(list))
        }
    }
}

/// The uses of the row at an index if the query asks for them, else `None`.
pub(crate) fn uses_if_asked(
    lineage: &Lineage,
    kind: Kind,
    index: Option<u32>,
) -> Result<Option<DepList>, Memory>
    requires { (version : Option Row) × IsRowAt lineage.now.rows index version }
    ensures { (version : Option Row) → IsRowAt lineage.now.rows index version
        → IfOk result (λ list. list ≡ uses_if kind (option_map (λ (row : Row). uses lineage.now.rows row.key row.block) version)) }
{
    match kind {
        Kind::Hist => Ok(None),
        Kind::Back => Ok(None),
        Kind::Fwd => uses_if_any(lineage, index),
    }
}
