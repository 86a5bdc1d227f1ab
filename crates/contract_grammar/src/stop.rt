ghost use Rattle.std.specs.Prelude.{◌≡◌};

use crate::Obstacle;
use lc_base::Memory;
use std::alloc::AllocFailed;

/// Why a reader of tokens stopped.
#[derive(Clone, Copy)]
pub enum ParseStop {
    /// An obstacle at the next token.
    At(Obstacle),
    /// Out of memory.
    Memory,
}

impl From<Memory> for ParseStop {
    ghost use Rattle.contract_grammar.specs.declared.stop.ParseStop.TheVariants as stops;

    ghost from_gives = { λ _ error. error ≡ stops.Memory };

    fn from(_error: Memory) -> ParseStop {
        ParseStop::Memory
    }
}

impl<T: Drop> From<AllocFailed<T>> for ParseStop {
    ghost use Rattle.contract_grammar.specs.declared.stop.ParseStop.TheVariants as stops;

    ghost from_gives = { λ _ error. error ≡ stops.Memory };

    fn from(_error: AllocFailed<T>) -> ParseStop {
        ParseStop::Memory
    }
}
