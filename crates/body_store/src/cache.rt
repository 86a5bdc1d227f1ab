//! The bodies at hand. A cache without memory for one goes on without it.

ghost use Rattle.std.specs.{
  Prelude.{◌≡◌, ◌⊎◌, ℕ, List, Contains, IfOk, IfSome},
  Rc.{rc_slice_items},
};
ghost use Rattle.body_store.specs.Cached.{pairs_of};

use crate::kept::BodyIndex;
use lc_base::Memory;
use lru::LruCache;
use std::rc::RcSlice;

/// Puts a body at hand, if there is memory for it.
pub(crate) fn keep(
    cache: &mut LruCache<BodyIndex, RcSlice<u8>>,
    index: BodyIndex,
    body: RcSlice<u8>,
)
    ensures capacity { cache.new.cap ≡ cache.old.cap }
    ensures at_hand { (pair : ℕ × List ℕ) → Contains (pairs_of cache.new.entries) pair
        → Contains (pairs_of cache.old.entries) pair ⊎ (pair ≡ (index.0, rc_slice_items body)) }
{
    match cache.put(index, body) {
        Ok(_) => {}
        Err(_) => {}
    }
}

/// Puts at hand a body that its caller goes on to use, if there is memory for it.
pub(crate) fn keep_shared(
    cache: &mut LruCache<BodyIndex, RcSlice<u8>>,
    index: BodyIndex,
    body: &RcSlice<u8>,
)
    ensures capacity { cache.new.cap ≡ cache.old.cap }
    ensures at_hand { (pair : ℕ × List ℕ) → Contains (pairs_of cache.new.entries) pair
        → Contains (pairs_of cache.old.entries) pair ⊎ (pair ≡ (index.0, rc_slice_items body.now)) }
{
    match body.clone() {
        Ok(shared) => keep(cache, index, shared),
        Err(_) => {}
    }
}

/// The body at an index, if it is at hand.
pub(crate) fn body_at_hand(
    cache: &mut LruCache<BodyIndex, RcSlice<u8>>,
    index: BodyIndex,
) -> Result<Option<RcSlice<u8>>, Memory>
    ensures capacity { cache.new.cap ≡ cache.old.cap }
    ensures kept { (pair : ℕ × List ℕ) → Contains (pairs_of cache.new.entries) pair
        → Contains (pairs_of cache.old.entries) pair }
    ensures found { IfOk result
        (λ body. IfSome body (λ body. Contains (pairs_of cache.old.entries)
        (index.0, rc_slice_items body))) }
{
    match cache.get(&index) {
        Some(body) => Ok(Some(body.clone()?)),
        None => Ok(None),
    }
}
