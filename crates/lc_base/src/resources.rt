//! What the collections of the program are made with: memory, and a hash whose keys are random.

ghost use Rattle.std.specs.Prelude.{◌≡◌, IfOk};

use std::alloc::Global;
use std::hash::RandomState;
use std::io;
use std::random::RandomSource;

/// The allocator, and the hasher of the maps and sets that look up what blocks name. The keys of
/// the hasher are random, so whoever writes blocks cannot choose names that all collide.
#[derive(Clone, Copy)]
pub struct Resources {
    pub alloc: Global,
    pub hasher: RandomState,
}

impl Resources {
    /// With a hasher whose keys are drawn from the source. It fails if the source does.
    pub fn new(alloc: Global, source: &impl RandomSource) -> io::Result<Resources>
        ensures { IfOk result (λ resources. resources.alloc ≡ alloc) }
    {
        let hasher = RandomState::new(source)?;
        Ok(Resources { alloc, hasher })
    }
}

/// A source that has zeros alone: by it, tests and cases hash alike in each run.
#[derive(Clone, Copy)]
pub struct Zeros;

impl RandomSource for Zeros {
    fn fill_bytes(&self, buf: &mut [u8]) -> io::Result<()> {
        buf.fill(0);
        Ok(())
    }
}
