//! The rows of a block become the newest versions of their keys. This closes the lists of the
//! versions before, so it comes after the entries, which are made of these lists.

ghost use Rattle.std.specs.Prelude.{◌≡◌, ◌≤◌, ◌+◌, [], ℕ, List, length, OnOk};
ghost use Rattle.lc_base.specs.{declared.limits.TheConstants.{MAX_ROWS}, declared.row.Row.{Row}};
ghost use Rattle.lineage_index.specs.Settling.{AreSettling};

use crate::heads::set_newest;
use forward_links::OpenLists;
use lc_base::{Memory, Row};
use plain_rows::IndexList;
use state_tree::Tree;

/// Makes these rows the newest versions of their keys, one after another, and closes the lists of
/// the versions before. The rows have the indexes from `first` on.
pub(crate) fn settle_rows(
    tree: &mut Tree,
    lists: &mut OpenLists,
    newest: &mut Vec<u32>,
    closed: &mut Vec<IndexList>,
    first: u32,
    new: &[Row],
) -> Result<(), Memory>
    requires room { first + length new.now ≤ MAX_ROWS }
    requires settled { (rows : List Row) × (n : ℕ)
        × AreSettling rows new.now [] n tree.old lists.old newest.old.items closed.old.items
        × (first ≡ length rows) }
    ensures { (rows : List Row) (n : ℕ)
        → AreSettling rows new.now [] n tree.old lists.old newest.old.items closed.old.items
        → first ≡ length rows
        → OnOk result (AreSettling rows new.now new.now n tree.new lists.new newest.new.items
        closed.new.items) }
{
    let mut index = first;
    for row in new {
        set_newest(tree, lists, newest, closed, &row.key, index)?;
        index += 1;
    }
    Ok(())
}
