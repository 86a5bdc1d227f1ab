//! Adding a block, in four steps that keep `IsKeptIndex`: all uses of the block are added before
//! any list is closed, and all lists are closed before any leaf is set.

ghost use Rattle.std.specs.Prelude.{◌≡◌, ℕ, List, ◌+◌, ◌++◌, map, OnOk, IfOk};
ghost use Rattle.lc_base.specs.declared.row.Row.{Row};
ghost use Rattle.lineage_index.specs.{Growth.{Grows}, Blocks.{IsKeptIndex, bytes_of_body}};

use crate::leaves::renew_leaves;
use crate::new_entries::add_entries;
use crate::settling::settle_rows;
use crate::spelling::spell_rows;
use forward_links::OpenLists;
use lc_base::{Memory, Row, TextList};
use plain_rows::IndexList;
use skip_list::Store;
use state_tree::Tree;
use std::alloc::Global;

/// Adds the rows of a block, and returns the bytes of their bodies. These are spelled first, while
/// all uses are added to the open lists. Then the entries of the rows are made, the lists of keys
/// with a new version are closed, and the leaves of all keys that the block touches are set.
pub(crate) fn advance(
    alloc: Global,
    tree: &mut Tree,
    lists: &mut OpenLists,
    newest: &mut Vec<u32>,
    store: &mut Store,
    closed: &mut Vec<IndexList>,
    new: &[Row],
) -> Result<TextList, Memory>
    requires { (rows : List Row) × (n : ℕ) × Grows rows new.now n
        × IsKeptIndex rows n tree.old lists.old newest.old.items store.old closed.old.items }
    ensures kept { (rows : List Row) (n : ℕ) → Grows rows new.now n
        → IsKeptIndex rows n tree.old lists.old newest.old.items store.old closed.old.items
        → OnOk result (IsKeptIndex (rows ++ new.now) (n + 1) tree.new lists.new newest.new.items
        store.new closed.new.items) }
    ensures bodies { (rows : List Row) (n : ℕ) → Grows rows new.now n
        → IsKeptIndex rows n tree.old lists.old newest.old.items store.old closed.old.items
        → IfOk result (λ bodies. bodies ≡ map (bytes_of_body (rows ++ new.now)) new.now) }
{
    let first = store.count();
    let mut touched = Vec::new(alloc);
    let bodies = spell_rows(alloc, tree, lists, &mut touched, first, new)?;
    add_entries(alloc, tree, lists, newest, store, new, bodies.as_slice())?;
    settle_rows(tree, lists, newest, closed, first, new)?;
    renew_leaves(tree, lists, newest, store, touched, new)?;
    Ok(bodies)
}
