//! The bodies of versions in the order in which they were pushed. If it is known which bytes the
//! device holds, a body that is read doesn't depend on which of them are at hand.

ghost use Rattle.std.specs.{
  Prelude.{◌≡◌, ◌<◌, ◌≤◌, true, [], ◌∷◌, ◌++◌, length, take, Some, IfOk, OnOk, OnErr, IsErrOf},
  Rc.{rc_slice_items},
};
ghost use Rattle.lc_base.specs.{Faults.{HasCause}, declared.limits.TheConstants.{MAX_ROWS}};
ghost use Rattle.lc_io.specs.Scratch.{ScratchState, is_known, Retains};
ghost use Rattle.body_store.specs.{
  declared.limits.TheConstants.{CACHED_BODIES},
  Bodies.{bodies_in, body_at_index},
  Agreement.{Agrees},
};

use crate::keeping::{body_from, push_to};
use crate::kept::{BodyIndex, Kept};
use crate::limits::CACHED_BODIES;
use lc_base::{HostError, Memory};
use lc_io::Scratch;
use lru::LruCache;
use shared_list::Shared;
use std::alloc::{AllocError, Global};
use std::marker::Model;
use std::num::NonZeroUsize;
use std::rc::RcSlice;

/// The bodies of versions, which a scratch device keeps, and some of them at hand.
#[derive(Drop)]
pub struct Bodies {
    kept: Shared<Kept>,
    cache: LruCache<BodyIndex, RcSlice<u8>>,
}

impl Model for Bodies {
    ghost use Rattle.std.specs.Prelude.{◌≡◌, ◌≤◌, length};
    ghost use Rattle.lc_base.specs.declared.limits.TheConstants.{MAX_ROWS};
    ghost use Rattle.body_store.specs.declared.limits.TheConstants.{CACHED_BODIES};
    ghost use Rattle.body_store.specs.Bodies.{BodiesState};
    ghost use Rattle.body_store.specs.Cached.{pairs_of};

    ghost Value = { BodiesState };

    ghost view = { λ bodies. record { kept = bodies.kept; cached = pairs_of bodies.cache.entries } };

    ghost invariant = { λ bodies. (length bodies.kept ≤ MAX_ROWS) × (bodies.cache.cap ≡ CACHED_BODIES) };
}

/// A cache with no body at hand.
fn empty_cache(alloc: Global) -> Result<LruCache<BodyIndex, RcSlice<u8>>, AllocError>
    ensures none { IfOk result (λ cache. cache.entries ≡ []) }
    ensures capacity { IfOk result (λ cache. cache.cap ≡ CACHED_BODIES) }
{
    LruCache::sparse(alloc, NonZeroUsize::new(CACHED_BODIES).unwrap())
}

impl Bodies {
    /// No bodies. They agree with every device.
    pub fn new(alloc: Global) -> Result<Bodies, Memory>
        ensures none { IfOk result (λ bodies. bodies.kept ≡ []) }
        ensures agrees { IfOk result (λ bodies. (scratch : ScratchState) → Agrees bodies scratch) }
    {
        let cache = empty_cache(alloc)?;
        Ok(Bodies {
            kept: Shared::new(alloc),
            cache,
        })
    }

    /// Appends a body, which the device keeps from then on. If the device fails or memory runs out,
    /// the bodies stay as they were.
    pub fn push<S: Scratch>(&mut self, scratch: &mut S, body: RcSlice<u8>) -> Result<(), HostError>
        requires room { length self.old.kept < MAX_ROWS }
        requires agrees { Agrees self.old (S.state scratch.old) }
        ensures pushed { OnOk result
            (bodies_in self.new ≡ bodies_in self.old ++ rc_slice_items body ∷ []) }
        ensures unchanged { OnErr result (self.new ≡ self.old) }
        ensures agrees { Agrees self.new (S.state scratch.new) }
        ensures retains { Retains (S.state scratch.old) (S.state scratch.new) }
        ensures cause { HasCause (S.scratch_faults scratch.old) (S.scratch_faults scratch.new)
            (IsErrOf result HostError.Fault) }
    {
        push_to(&mut self.kept, &mut self.cache, scratch, body)
    }

    /// The body at an index, in the order in which they were pushed, from 0: the one at hand, or
    /// else the one that the device keeps.
    pub fn body<S: Scratch>(
        &mut self,
        scratch: &mut S,
        index: u32,
    ) -> Result<RcSlice<u8>, HostError>
        requires within { index < length self.old.kept }
        requires agrees { Agrees self.old (S.state scratch.old) }
        ensures body { IfOk result
            (λ body. is_known (S.state scratch.old) ≡ true
            → body_at_index self.old index ≡ Some (rc_slice_items body)) }
        ensures kept { self.new.kept ≡ self.old.kept }
        ensures agrees { Agrees self.new (S.state scratch.new) }
        ensures retains { Retains (S.state scratch.old) (S.state scratch.new) }
        ensures cause { HasCause (S.scratch_faults scratch.old) (S.scratch_faults scratch.new)
            (IsErrOf result HostError.Fault) }
    {
        body_from(&self.kept, &mut self.cache, scratch, BodyIndex(index))
    }

    /// The number of bodies.
    pub fn len(&self) -> u32
        ensures count { result ≡ length self.now.kept }
        ensures few { length self.now.kept ≤ MAX_ROWS }
    {
        self.kept.len() as u32
    }

    /// The first `count` bodies. None of them is at hand.
    pub fn front(&self, count: u32) -> Result<Bodies, Memory>
        requires { count ≤ length self.now.kept }
        ensures front { IfOk result
            (λ front. front ≡ record { kept = take count self.now.kept; cached = [] }) }
        ensures agrees { IfOk result
            (λ front. (scratch : ScratchState) → Agrees self.now scratch → Agrees front scratch) }
    {
        let kept = self.kept.prefix(count as usize)?;
        let cache = empty_cache(self.kept.allocator())?;
        Ok(Bodies { kept, cache })
    }
}
