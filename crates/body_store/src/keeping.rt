//! Keeps bodies on a scratch device, and reads them back. A body that is pushed is written first,
//! and only then listed.

ghost use Rattle.std.specs.{
  Prelude.{◌≡◌, ◌<◌, true, [], ◌∷◌, ◌++◌, length, map, Some, IfOk, OnErr, OnOk, IsErrOf},
  Rc.{rc_slice_items},
};
ghost use Rattle.lc_base.specs.{
  declared.limits.TheConstants.{MAX_ROWS},
  declared.host_error.HostError.TheVariants.{Fault},
};
ghost use Rattle.lc_io.specs.Scratch.{is_known, HoldsAt, Serves};
ghost use Rattle.body_store.specs.{
  Bodies.{bodies_of, body_at},
  Agreement.{Agrees},
  Cached.{pairs_of},
};

use crate::cache::{body_at_hand, keep, keep_shared};
use crate::kept::{BodyIndex, Kept};
use lc_base::{HostError, zeros};
use lc_io::Scratch;
use lru::LruCache;
use shared_list::Shared;
use std::alloc::Global;
use std::rc::RcSlice;

/// Reads the `len` bytes that are kept at a place.
fn read<S: Scratch>(
    alloc: Global,
    scratch: &mut S,
    place: u64,
    len: usize,
) -> Result<RcSlice<u8>, HostError>
    requires kept { (S.state scratch.old).kept place len ≡ true }
    ensures len { IfOk result (λ body. length (rc_slice_items body) ≡ len) }
    ensures bytes { IfOk result (λ body. HoldsAt (S.state scratch.old) place (rc_slice_items body)) }
    ensures scratch { Serves S.state S.scratch_faults scratch.old scratch.new
        (IsErrOf result Fault) }
{
    let mut bytes = zeros(alloc, len)?;
    scratch.get(place, &mut bytes)?;
    Ok(RcSlice::from_vec(bytes)?)
}

/// The body at an index: the one at hand, or else the one that the device keeps, which is at hand
/// from then on if there is memory for it.
pub(crate) fn body_from<S: Scratch>(
    kept: &Shared<Kept>,
    cache: &mut LruCache<BodyIndex, RcSlice<u8>>,
    scratch: &mut S,
    index: BodyIndex,
) -> Result<RcSlice<u8>, HostError>
    requires within { index.0 < length kept.now }
    requires agrees { Agrees (record { kept = kept.now; cached = pairs_of cache.old.entries })
        (S.state scratch.old) }
    ensures body { IfOk result
        (λ body. is_known (S.state scratch.old) ≡ true
        → body_at kept.now index.0 ≡ Some (rc_slice_items body)) }
    ensures capacity { cache.new.cap ≡ cache.old.cap }
    ensures agrees { Agrees (record { kept = kept.now; cached = pairs_of cache.new.entries })
        (S.state scratch.new) }
    ensures scratch { Serves S.state S.scratch_faults scratch.old scratch.new
        (IsErrOf result Fault) }
{
    if let Some(body) = body_at_hand(cache, index)? {
        return Ok(body);
    }
    let one = kept.at(index.0 as usize);
    let body = read(kept.allocator(), scratch, one.place(), one.len())?;
    keep_shared(cache, index, &body);
    Ok(body)
}

/// Appends a body, which the device keeps from then on. On an error the bodies stay as they were.
pub(crate) fn push_to<S: Scratch>(
    kept: &mut Shared<Kept>,
    cache: &mut LruCache<BodyIndex, RcSlice<u8>>,
    scratch: &mut S,
    body: RcSlice<u8>,
) -> Result<(), HostError>
    requires room { length kept.old < MAX_ROWS }
    requires agrees { Agrees (record { kept = kept.old; cached = pairs_of cache.old.entries })
        (S.state scratch.old) }
    ensures pushed { OnOk result
        (bodies_of kept.new ≡ bodies_of kept.old ++ rc_slice_items body ∷ []) }
    ensures kept { OnErr result (kept.new ≡ kept.old) }
    ensures cache { OnErr result (cache.new ≡ cache.old) }
    ensures capacity { cache.new.cap ≡ cache.old.cap }
    ensures agrees { Agrees (record { kept = kept.new; cached = pairs_of cache.new.entries })
        (S.state scratch.new) }
    ensures scratch { Serves S.state S.scratch_faults scratch.old scratch.new
        (IsErrOf result Fault) }
{
    let place = scratch.put(body.as_slice())?;
    let index = BodyIndex(kept.len() as u32);
    let one = Kept::new(place, &body);
    kept.push(one)?;
    keep(cache, index, body);
    Ok(())
}
