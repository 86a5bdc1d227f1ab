//! The bodies of a block's rows are pushed one after another, once the index is over the rows.

ghost use Rattle.std.specs.{
  Prelude.{◌≡◌, ◌+◌, ◌≤◌, ◌++◌, length, OnOk, IsErrOf},
  List.{All},
};
ghost use Rattle.lc_base.specs.{
  Faults.{HasCause},
  declared.limits.TheConstants.{MAX_ROWS},
  declared.row.Row.{Row},
  declared.host_error.HostError.TheVariants.{Fault},
};
ghost use Rattle.lc_io.specs.Scratch.{Retains};
ghost use Rattle.body_store.specs.{Bodies.{bodies_in}, Agreement.{Agrees}};
ghost use Rattle.lineage_rewind.specs.root_laws.TypedLedger.{IsTypedRow};

use body_store::Bodies;
use lc_base::{Bytes, HostError, Row};
use lc_io::Scratch;
use lineage_rewind::check_row;
use std::alloc::Global;
use std::rc::RcSlice;

/// These rows are within their types. The call does nothing: contracts learn this by it.
pub(crate) fn check_rows(rows: &[Row])
    ensures { All IsTypedRow rows.now }
{
    for row in rows {
        check_row(row);
    }
}

/// Appends the bodies of a block's rows, which have these bytes. On an error only some of them may
/// be there.
pub(crate) fn add_bodies<S: Scratch>(
    alloc: Global,
    bodies: &mut Bodies,
    scratch: &mut S,
    new: &[Bytes],
) -> Result<(), HostError>
    requires room { length bodies.old.kept + length new.now ≤ MAX_ROWS }
    requires agrees { Agrees bodies.old (S.state scratch.old) }
    ensures bodies { OnOk result (bodies_in bodies.new ≡ bodies_in bodies.old ++ new.now) }
    ensures agrees { Agrees bodies.new (S.state scratch.new) }
    ensures retains { Retains (S.state scratch.old) (S.state scratch.new) }
    ensures cause { HasCause (S.scratch_faults scratch.old) (S.scratch_faults scratch.new)
        (IsErrOf result Fault) }
{
    for bytes in new {
        let body = RcSlice::from_slice(alloc, bytes.as_slice())?;
        match bodies.push(scratch, body) {
            Ok(()) => {}
            Err(error) => return Err(error),
        }
    }
    Ok(())
}
