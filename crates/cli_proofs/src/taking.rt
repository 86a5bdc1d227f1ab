//! Taking the frames that follow a light file: each is a proof, and its lines are printed before
//! the next one is read.

ghost use Rattle.std.{
  specs.Prelude.{◌≡◌, refl},
  proofs.Common.{◌∙◌},
};
ghost use Rattle.cli_proofs.specs.Checking.{ChecksProof, after_proof};

use crate::judging::{Judged, judge};
use chain_input::{FrameTaker, Turn};
use cli_output::{LightFile, RunStop, tell_all};
use lc_base::Memory;
use lc_io::{Failed, Wire};
use std::alloc::Global;

/// What is kept from one proof to the next.
#[derive(Drop)]
pub struct Checks {
    /// The light file.
    pub file: LightFile,
    /// How many proofs were checked.
    pub count: u32,
    /// Whether one of them was rejected.
    pub rejected: bool,
}

/// What is kept after one more proof.
fn after_proof(checks: Checks, rejected: bool) -> Checks
    ensures { result ≡ after_proof checks rejected }
{
    Checks {
        file: checks.file,
        count: checks.count.saturating_add(1),
        rejected: checks.rejected || rejected,
    }
}

/// Checks a proof, and prints its lines.
fn check_proof<M: Wire>(
    alloc: Global,
    machine: &mut M,
    checks: Checks,
    proof: &[u8],
) -> Result<Turn<Checks>, RunStop>
    ensures { ChecksProof M.now M.disk M.told M.disk_faults M.wire_faults machine.old checks
        proof.now machine.new result }
{
    match judge(alloc, &checks.file, checks.count, proof) {
        Ok(Judged { lines, rejected }) => match tell_all(machine, lines.as_slice()) {
            Ok(()) => Ok(Turn::Taken(after_proof(checks, rejected))),
            Err(Failed) => Err(RunStop::Untold),
        },
        Err(Memory) => Err(RunStop::Memory),
    }
}

/// The machine on which the lines are printed, lent to take frames.
#[derive(Drop)]
pub struct Checker<'a, M: Wire> {
    pub machine: &'a mut M,
}

impl<'a, M: Wire> FrameTaker for Checker<'a, M> {
    type Chain = Checks;

    type Stop = RunStop;

    ghost ready = { λ _ _. Unit {0} };

    // The field is still the reference that it was made with, so whoever lent it has it back.
    ghost same = { λ s t. t.machine.ghost_name ≡ s.machine.ghost_name };

    ghost turn = { λ s checks proof t result. ChecksProof M.now M.disk M.told M.disk_faults
        M.wire_faults s.machine.now checks proof t.machine.now result };

    fn take(&mut self, alloc: Global, chain: Checks, frame: &[u8]) -> Result<Turn<Checks>, RunStop>
        ensures same { self.new.machine.ghost_name ≡ self.old.machine.ghost_name }
        ensures turn { ChecksProof M.now M.disk M.told M.disk_faults M.wire_faults
            self.old.machine.now chain frame.now self.new.machine.now result }
    {
        check_proof(alloc, self.machine, chain, frame)
    }

    ghost same_refl = { λ s. refl };

    ghost same_trans = { λ s t u p q. q ∙ p };

    ghost turn_ready = { λ s chain frame t longer turn. tt };
}
