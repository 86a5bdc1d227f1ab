//! The keys in byte order, each with the index of its leaf: which leaf covers a key that has none
//! is looked for here, and a walk along the thread would take as long as there are leaves.

ghost use Rattle.std.specs.Prelude.{MatchOption};
ghost use Rattle.state_tree.specs.Order.{NoneUpTo, IsLastUpTo};

use lc_base::Key;
use std::collections::BTreeMap;

/// The index of the leaf of the greatest key that is not above this one; `None` if each key is
/// above it.
pub(crate) fn last_up_to(order: &BTreeMap<Key, u32>, key: &Key) -> Option<u32>
    ensures { MatchOption result (NoneUpTo order.now key.now) (λ index. IsLastUpTo order.now key.now index) }
{
    match order.range(..=*key).next_back() {
        None => None,
        Some((_, index)) => Some(*index),
    }
}
