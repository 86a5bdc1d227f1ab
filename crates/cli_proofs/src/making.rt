//! The command `light make`: the light file of the log, printed piece by piece, so that only one
//! piece is held.

ghost use Rattle.std.specs.Prelude.{[], ◌∷◌, is_ok, IsErrOf};
ghost use Rattle.lc_base.specs.Faults.{HasCause};
ghost use Rattle.disk_model.specs.Leaving.{LeavesDisk};
ghost use Rattle.block_log.specs.Standing.{NextBlock};
ghost use Rattle.cli_output.specs.{
  cli_promises.Promises.{plain, Telling},
  light_client.Making.{piece_bytes},
  cli_lines.Outcome.{outcome_with},
  Lights.{light_pieces},
  Telling.{OnlyTells, Says},
};

use cli_output::{BLOCKS_PER_PIECE, Ending, RunStop, block_count, head, piece};
use lc_base::Memory;
use lc_io::{Failed, Wire};
use merkle_dag::Lineage;
use std::alloc::Global;

/// Prints one piece.
fn tell_piece<M: Wire>(machine: &mut M, piece: &[u8]) -> Result<(), RunStop>
    ensures lines { (next : NextBlock) → Telling next M.now M.disk M.told machine.old machine.new
        (plain piece.now ∷ []) (is_ok result) }
    ensures only { OnlyTells result }
    ensures disk { LeavesDisk M.now M.disk M.disk_faults machine.old machine.new }
    ensures cause { HasCause (M.wire_faults machine.old) (M.wire_faults machine.new)
        (IsErrOf result RunStop.Untold) }
{
    match machine.tell(piece) {
        Ok(()) => Ok(()),
        Err(Failed) => Err(RunStop::Untold),
    }
}

/// Prints the piece of the blocks from `from` on.
fn tell_blocks<M: Wire>(
    alloc: Global,
    lineage: &Lineage,
    from: u32,
    machine: &mut M,
) -> Result<(), RunStop>
    ensures lines { (next : NextBlock) → Telling next M.now M.disk M.told machine.old machine.new
        (plain (piece_bytes lineage.now.rows lineage.now.digests from) ∷ []) (is_ok result) }
    ensures only { OnlyTells result }
    ensures disk { LeavesDisk M.now M.disk M.disk_faults machine.old machine.new }
    ensures cause { HasCause (M.wire_faults machine.old) (M.wire_faults machine.new)
        (IsErrOf result RunStop.Untold) }
{
    match piece(alloc, lineage, from) {
        Ok(bytes) => tell_piece(machine, bytes.as_bytes()),
        Err(Memory) => Err(RunStop::Memory),
    }
}

/// Prints the light file of a lineage: its head, and then its blocks, piece by piece.
pub fn make_light<M: Wire>(
    alloc: Global,
    lineage: &Lineage,
    machine: &mut M,
) -> Result<Ending, RunStop>
    ensures says { (next : NextBlock) → Says next M.now M.disk M.told machine.old machine.new
        (outcome_with (light_pieces lineage.now.rows lineage.now.digests) Ending.Done) result }
    ensures only { OnlyTells result }
    ensures disk { LeavesDisk M.now M.disk M.disk_faults machine.old machine.new }
    ensures cause { HasCause (M.wire_faults machine.old) (M.wire_faults machine.new)
        (IsErrOf result RunStop.Untold) }
{
    let count = block_count(lineage);
    match tell_piece(machine, &head(count)) {
        Ok(()) => {}
        Err(stop) => return Err(stop),
    }
    for index in 0..count.div_ceil(BLOCKS_PER_PIECE) {
        match tell_blocks(alloc, lineage, index * BLOCKS_PER_PIECE, machine) {
            Ok(()) => {}
            Err(stop) => return Err(stop),
        }
    }
    Ok(Ending::Done)
}
