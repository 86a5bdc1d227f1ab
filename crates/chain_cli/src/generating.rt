//! The command `gen`: each block is printed as soon as it is made, so only one is held.

ghost use Rattle.std.specs.Prelude.{◌≡◌, [], ◌∷◌, map, is_ok, IfOk, IsErrOf};
ghost use Rattle.lc_base.specs.Faults.{HasCause};
ghost use Rattle.disk_model.specs.Leaving.{LeavesDisk};
ghost use Rattle.block_log.specs.Standing.{NextBlock};
ghost use Rattle.chain_pack.specs.Generator.{blocks_of_seed};
ghost use Rattle.cli_append.specs.cli_promises.Promises.{plain, Telling};
ghost use Rattle.cli_output.specs.{Blocks.{frame}, Telling.{OnlyTells}};

use crate::packing::frame;
use block_codec::{NO_PARENT, block_digest};
use chain_pack::Gen;
use cli_append::RunStop;
use cli_lines::Ending;
use cli_words::Generation;
use lc_base::Memory;
use lc_io::{Failed, Wire};
use std::alloc::Global;

/// Prints the frame of a block.
fn tell_frame<M: Wire>(alloc: Global, machine: &mut M, block: &[u8]) -> Result<(), RunStop>
    ensures lines { (next : NextBlock) → Telling next M.now M.disk M.told machine.old machine.new (plain (frame block.now) ∷ []) (is_ok result) }
    ensures only { OnlyTells result }
    ensures disk { LeavesDisk M.now M.disk M.disk_faults machine.old machine.new }
    ensures cause { HasCause (M.wire_faults machine.old) (M.wire_faults machine.new) (IsErrOf result RunStop.Untold) }
{
    match frame(alloc, block) {
        Ok(frame) => match machine.tell(frame.as_bytes()) {
            Ok(()) => Ok(()),
            Err(Failed) => Err(RunStop::Untold),
        },
        Err(Memory) => Err(RunStop::Memory),
    }
}

/// Prints the frame of each block, one after another, as it is made.
pub fn generate<M: Wire>(
    alloc: Global,
    machine: &mut M,
    generation: &Generation,
) -> Result<Ending, RunStop>
    ensures lines { (next : NextBlock) → Telling next M.now M.disk M.told machine.old machine.new (map plain (map frame (blocks_of_seed generation.now.blocks generation.now.seed))) (is_ok result) }
    ensures ending { IfOk result (λ ending. ending ≡ Ending.Done) }
    ensures only { OnlyTells result }
    ensures disk { LeavesDisk M.now M.disk M.disk_faults machine.old machine.new }
    ensures cause { HasCause (M.wire_faults machine.old) (M.wire_faults machine.new) (IsErrOf result RunStop.Untold) }
{
    let mut generator = Gen::new(generation.blocks, generation.seed);
    let mut parent = NO_PARENT;
    'turns: loop {
        match generator.next(alloc, parent) {
            Err(Memory) => return Err(RunStop::Memory),
            Ok(None) => return Ok(Ending::Done),
            Ok(Some((block, more))) => {
                match tell_frame(alloc, machine, block.as_bytes()) {
                    Ok(()) => {}
                    Err(stop) => return Err(stop),
                }
                parent = block_digest(block.as_bytes());
                generator = more;
            }
        }
    }
}
