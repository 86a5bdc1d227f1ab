//! The turns of a delivery: the line of a turn is printed only after the follower has made it.

ghost use Rattle.std.specs.Prelude.{◌≡◌};
ghost use Rattle.chain_exec.specs.Compiled.{compiled_in};
ghost use Rattle.cli_promises.specs.{
  recovery.Node.{IsReady, stored_placement},
  Following.{after_all, after_step, nothing_done},
};
ghost use Rattle.follower_steps.specs.Steps.{first_turn};
ghost use Rattle.cli_append.specs.{
  Steps.{TellsLine},
  FollowSteps.{turn_text, Delivers, Makes, stop_of},
};

use crate::follow_lines::turn_line;
use crate::telling::tell_frame;
use cli_promises::RunStop;
use disk_model::Disk;
use follow_core::{FollowFault, Follower, Turn};
use lc_base::{Bytes, Memory};
use lc_io::{Scratch, Wire};
use std::alloc::Global;

/// Why the command stops, by why the follower was discarded.
fn stop_of(fault: FollowFault) -> RunStop
    ensures { result ≡ stop_of fault }
{
    match fault {
        FollowFault::DiskFault => RunStop::DiskFault,
        FollowFault::ScratchFault => RunStop::ScratchFault,
        FollowFault::Memory => RunStop::Memory,
    }
}

/// Prints the line of a turn that a follower made.
fn tell_turn<M: Disk + Wire>(alloc: Global, machine: &mut M, turn: &Turn) -> Result<(), RunStop>
    ensures { TellsLine M.now M.disk M.told M.disk_faults M.wire_faults machine.old machine.new
        (turn_text turn.now) result }
{
    let is_known = matches!(turn, Turn::Known { .. });
    match turn_line(alloc, turn) {
        Ok(line) => tell_frame(machine, line.as_bytes(), is_known),
        Err(Memory) => Err(RunStop::Memory),
    }
}

/// The first turn of the delivery of the frame `index`, and its line.
fn first_turn<M: Disk + Wire, S: Scratch>(
    alloc: Global,
    machine: &mut M,
    scratch: &mut S,
    follower: Follower,
    index: u32,
    bytes: Bytes,
) -> Result<Follower, RunStop>
    requires ready { IsReady follower.node (M.disk machine.old (M.now machine.old))
        (S.state scratch.old) }
    ensures { Makes M.now M.disk M.told M.disk_faults M.wire_faults S.state S.scratch_faults
        (machine.old, scratch.old) follower (λ state. after_step compiled_in (nothing_done state)
        (first_turn stored_placement state index bytes)) (machine.new, scratch.new) result }
{
    match follower.deliver(alloc, machine, scratch, index, bytes) {
        Ok((next, turn)) => match tell_turn(alloc, machine, &turn) {
            Ok(()) => Ok(next),
            Err(stop) => {
                next.give_up();
                Err(stop)
            }
        },
        Err(fault) => Err(stop_of(fault)),
    }
}

/// All further turns of a delivery, and their lines.
fn further_turns<M: Disk + Wire, S: Scratch>(
    alloc: Global,
    machine: &mut M,
    scratch: &mut S,
    follower: Follower,
) -> Result<Follower, RunStop>
    requires ready { IsReady follower.node (M.disk machine.old (M.now machine.old))
        (S.state scratch.old) }
    ensures { Makes M.now M.disk M.told M.disk_faults M.wire_faults S.state S.scratch_faults
        (machine.old, scratch.old) follower (λ state. after_all compiled_in stored_placement
        (nothing_done state)) (machine.new, scratch.new) result }
{
    let mut follower = follower;
    'turns: loop {
        match follower.drain(alloc, machine, scratch) {
            Ok((next, made)) => match made {
                None => return Ok(next),
                Some(turn) => match tell_turn(alloc, machine, &turn) {
                    Ok(()) => follower = next,
                    Err(stop) => {
                        next.give_up();
                        return Err(stop);
                    }
                },
            },
            Err(fault) => return Err(stop_of(fault)),
        }
    }
}

/// Delivers a frame: the first turn and all further ones, and a line for each.
pub fn deliver<M: Disk + Wire, S: Scratch>(
    alloc: Global,
    machine: &mut M,
    scratch: &mut S,
    follower: Follower,
    index: u32,
    frame: &[u8],
) -> Result<Follower, RunStop>
    requires ready { IsReady follower.node (M.disk machine.old (M.now machine.old))
        (S.state scratch.old) }
    ensures { Delivers M.now M.disk M.told M.disk_faults M.wire_faults S.state
        S.scratch_faults (machine.old, scratch.old) follower index frame.now
        (machine.new, scratch.new) result }
{
    match Vec::from_slice(alloc, frame) {
        Ok(copy) => {
            let bytes = Bytes::from_vec(copy);
            match first_turn(alloc, machine, scratch, follower, index, bytes) {
                Ok(next) => {
                    // If no block is due there is no further turn, and to find that out `drain`
                    // would be given the node, and hand it back.
                    if next.has_due() {
                        return further_turns(alloc, machine, scratch, next);
                    }
                    Ok(next)
                }
                Err(stop) => Err(stop),
            }
        }
        Err(_) => {
            follower.give_up();
            Err(RunStop::Memory)
        }
    }
}
