//! The command `/simulate`: a member, its controller and a hostile net are run by a script.
ghost use Rattle.w32tm_cmd.specs.Seen.{FaultsHaveCauses};
ghost use Rattle.w32tm_cmd.specs.Simulate.{RunsSimulate};
ghost use Rattle.w32tm_cmd.specs.Touching.{SimulateTouches};

use crate::{Outside, Status, Tells};
use edge_io::{Clock, Entropy, Link, Sink, Source, Wire};
use slot_disk::Disk;
use sntp_world::{SimEnd, simulate};
use std::alloc::Global;

/// Runs so many operations of the seed in a new world: the member's events are recorded, and the summary is printed.
pub(crate) fn simulate_world<S: Source, O: Sink, L: Link, C: Clock, D: Disk, E: Entropy, W: Wire>(
    alloc: Global,
    seed: u32,
    operations: u32,
    outside: &mut Outside<S, O, L, C, D, E, W>,
) -> Status
    ensures simulate { let seen = ⟦<Outside<S, O, L, C, D, E, W> as Tells>⟧.seen in
        RunsSimulate seed operations (seen outside.old) (seen outside.new) result }
    ensures touches { SimulateTouches outside.old outside.new }
    ensures causes { let seen = ⟦<Outside<S, O, L, C, D, E, W> as Tells>⟧.seen in
        FaultsHaveCauses (seen outside.old) (seen outside.new) result }
{
    let out = &mut outside.out;
    match simulate(alloc, seed, operations, out, &mut outside.capture_out) {
        SimEnd::Done => Status::Done,
        SimEnd::WriteFault => Status::WriteFault,
        SimEnd::NoMemory => Status::NoMemory,
    }
}
