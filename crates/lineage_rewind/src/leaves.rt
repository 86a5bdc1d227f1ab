//! The leaves of all keys are set, each by what is kept of the newest version of its key.

ghost use Rattle.std.specs.Prelude.{[], ℕ, List};
ghost use Rattle.lc_base.specs.declared.row.Row.{Row};
ghost use Rattle.lineage_index.specs.{
  Growth.{Entry},
  Heads.{AreHeads, states_of},
  Settling.{AreRenewing},
};

use lineage_index::{OpenLists, Store, Tree, leaf_state};

/// Sets the leaves of all keys. It takes no memory.
pub(crate) fn renew_all(tree: &mut Tree, lists: &OpenLists, newest: &[u32], store: &Store)
    requires { (rows : List Row) × (entry : List ℕ → Entry)
        × AreRenewing rows entry [] tree.old lists.now newest.now store.now }
    ensures { (rows : List Row) (entry : List ℕ → Entry)
        → AreRenewing rows entry [] tree.old lists.now newest.now store.now
        → AreHeads tree.new lists.now newest.now (states_of rows) }
{
    for key in 0..newest.len() {
        tree.set_leaf(&leaf_state(lists, newest, store, key as u32 + 1));
    }
}
