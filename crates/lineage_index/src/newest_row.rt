//! The newest row of a key is at the index of the key's leaf, less 1; the row's entry has the index
//! of the row as its id.

ghost use Rattle.std.specs.Prelude.{◌≡◌, List};
ghost use Rattle.lc_base.specs.declared.row.Row.{Row};
ghost use Rattle.skip_links.specs.Versions.{newest_index};
ghost use Rattle.lineage_index.specs.{Versions.{newest_entry}, NewestRows.{AreNewest}};

use crate::heads::index_of;
use crate::leaves::newest_at;
use lc_base::Key;
use skip_list::EntryId;
use state_tree::Tree;

/// The index of the newest row of a key; `None` if the key has none.
pub(crate) fn newest_row_of(tree: &Tree, newest: &[u32], key: &Key) -> Option<u32>
    requires { (rows : List Row) × AreNewest rows tree.now newest.now }
    ensures { (rows : List Row) → AreNewest rows tree.now newest.now → result ≡ newest_index rows key.now }
{
    match index_of(tree, key) {
        None => None,
        Some(index) => Some(newest_at(newest, index)),
    }
}

/// The entry of the newest row of a key; `None` if the key has none.
pub(crate) fn newest_entry_of(tree: &Tree, newest: &[u32], key: &Key) -> Option<EntryId>
    requires { (rows : List Row) × AreNewest rows tree.now newest.now }
    ensures { (rows : List Row) → AreNewest rows tree.now newest.now → result ≡ newest_entry rows key.now }
{
    match newest_row_of(tree, newest, key) {
        None => None,
        Some(index) => Some(EntryId(index)),
    }
}
