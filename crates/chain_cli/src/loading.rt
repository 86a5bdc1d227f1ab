//! The command `load`: the blocks of a seed are added to a chain, which is then queried.

ghost use Rattle.std.specs.Prelude.{◌≡◌, true, IfOk, IsErrOf};
ghost use Rattle.lc_base.specs.Faults.{HasCause};
ghost use Rattle.lc_io.specs.Scratch.{is_known};
ghost use Rattle.chain_exec.specs.Compiled.{compiled_in};
ghost use Rattle.cli_words.specs.Words.{IsCount};
ghost use Rattle.cli_output.specs.Output.{load_outcome};

use cli_lines::{Ending, Outcome};
use cli_output::{OutcomeStop, load_chain, load_line};
use cli_words::Generation;
use lc_base::{HostError, Resources};
use lc_io::Scratch;

/// The outcome of `load` for these blocks.
pub fn load_outcome<S: Scratch>(
    resources: Resources,
    scratch: &mut S,
    generation: &Generation,
) -> Result<Outcome, OutcomeStop>
    requires { IsCount generation.now.blocks }
    // Holds if it is known which bytes the scratch device holds.
    ensures outcome { is_known (S.state scratch.old) ≡ true → IfOk result (λ outcome. outcome ≡ load_outcome compiled_in generation.now) }
    // Holds in either case.
    ensures ending { IfOk result (λ outcome. outcome.ending ≡ Ending.Done) }
    ensures reads { IsErrOf result OutcomeStop.Unreadable → ⊥ }
    ensures disk { IsErrOf result OutcomeStop.DiskFault → ⊥ }
    ensures cause { HasCause (S.scratch_faults scratch.old) (S.scratch_faults scratch.new) (IsErrOf result OutcomeStop.ScratchFault) }
{
    let alloc = resources.alloc;
    match load_chain(resources, scratch, generation.blocks, generation.seed) {
        Ok(load) => Ok(Outcome::from_line(alloc, load_line(alloc, &load)?, Ending::Done)?),
        Err(HostError::Fault) => Err(OutcomeStop::ScratchFault),
        Err(HostError::Memory) => Err(OutcomeStop::Memory),
    }
}
