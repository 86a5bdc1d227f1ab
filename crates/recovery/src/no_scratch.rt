//! The scratch device of a chain that doesn't call its device.

ghost use Rattle.std.specs.Prelude.{nat_le, None};

use lc_io::{Failed, Scratch, one_more};

/// A device that keeps no byte: each call of it fails, and is counted.
#[derive(Drop)]
pub struct NoScratch {
    pub faults: u64,
}

impl Scratch for NoScratch {
    ghost state = { λ _. record { kept = λ place count. nat_le count 0; held = None } };

    ghost scratch_faults = { λ device. device.faults };

    fn put(&mut self, _bytes: &[u8]) -> Result<u64, Failed> {
        self.faults = one_more(self.faults);
        Err(Failed)
    }

    fn get(&mut self, _place: u64, _buffer: &mut [u8]) -> Result<(), Failed> {
        self.faults = one_more(self.faults);
        Err(Failed)
    }
}
