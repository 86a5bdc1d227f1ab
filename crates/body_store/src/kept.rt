//! What is kept of a body in memory: its place and its length. The bytes are on the scratch device,
//! and only contracts see them here.

ghost use Rattle.std.specs.{Prelude.{◌≡◌, length}, Rc.{rc_slice_items}};

use std::marker::Model;
use std::rc::RcSlice;
use std::snapshot::Snapshot;

/// The index of a body in the order in which they were pushed, from 0.
#[derive(Clone, Copy, PartialEq, Eq, Hash)]
pub(crate) struct BodyIndex(pub u32);

/// The bytes of a body as contracts see them. They take no memory: the bytes are on the scratch
/// device.
#[derive(Drop)]
pub(crate) struct Pushed {
    bytes: Snapshot<RcSlice<u8>>,
}

impl Model for Pushed {
    ghost use Rattle.std.specs.Prelude.{ℕ, List};
    ghost use Rattle.std.specs.Rc.{rc_slice_items};

    ghost Value = { List ℕ };

    ghost view = { λ pushed. rc_slice_items pushed.bytes.value };
}

impl Pushed {
    /// The bytes of this body.
    pub fn of(body: &RcSlice<u8>) -> Pushed
        ensures { result ≡ rc_slice_items body.now }
    {
        Pushed {
            bytes: Snapshot::of(body),
        }
    }
}

/// The place of a body on the device, and its length in bytes.
#[derive(Drop)]
pub(crate) struct Kept {
    place: u64,
    len: usize,
    body: Pushed,
}

impl Model for Kept {
    ghost use Rattle.std.specs.Prelude.{◌≡◌, length};
    ghost use Rattle.body_store.specs.Bodies.{KeptBody};

    ghost Value = { KeptBody };

    ghost view = { λ kept. record { place = kept.place; body = kept.body } };

    ghost invariant = { λ kept. kept.len ≡ length kept.body };
}

impl Kept {
    /// A body that is kept at a place.
    pub fn new(place: u64, body: &RcSlice<u8>) -> Kept
        ensures { result ≡ record { place = place; body = rc_slice_items body.now } }
    {
        Kept {
            place,
            len: body.len(),
            body: Pushed::of(body),
        }
    }

    /// Its place on the device.
    pub fn place(&self) -> u64
        ensures { result ≡ self.now.place }
    {
        self.place
    }

    /// Its length in bytes.
    pub fn len(&self) -> usize
        ensures { result ≡ length self.now.body }
    {
        self.len
    }
}
