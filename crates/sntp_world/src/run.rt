//! The world, run by a script.
ghost use Rattle.std.specs.Prelude.{◌≡◌, ◌+◌, ◌<◌, ◌≤◌, ◌^◌, [], length, reverse, IfOk, IfErr, OnOk};
ghost use Rattle.std.specs.List.{AllByRecursion};
ghost use Rattle.edge_traits.specs.Sink.{PutCounts, Writes};
ghost use Rattle.sntp_world.specs.State.{State};
ghost use Rattle.sntp_world.specs.Standing.{Keeps, StandsForOps};
ghost use Rattle.sntp_world.specs.Running.{BreaksBy, CarriesOn, CarriesOut, FitsDue, IsCountedOnce, IsFitReached, OpFits, StopsBy, end_of, record_due};
ghost use Rattle.sntp_world.specs.Simulation.{Simulates, sinks};

use crate::due::Due;
use crate::totals::{Totals, print_summary};
use crate::{Op, Script, World, script};
use capture_fmt::write_event;
use edge_traits::{Put, Sink};
use std::alloc::Global;

/// How a run ended.
#[derive(Clone, Copy, Debug, PartialEq, Eq)]
pub enum SimEnd {
    /// All operations were carried out, and the summary was written.
    Done,
    /// A write failed.
    WriteFault,
    /// There was no memory.
    NoMemory,
}

/// Runs the first `n` operations of a seed in a new world. It writes the records of the member's events to the capture,
/// and to `out` the three lines of the summary.
///
/// After a failed write it makes no other. What was written then is a front of what a whole run writes, as it is where
/// there is no memory; and then nothing was written to `out`.
pub fn simulate<O: Sink>(alloc: Global, seed: u32, n: u32, out: &mut O, capture: &mut O) -> SimEnd
    ensures simulates { Simulates seed n result
        (sinks (O.written out.old) (O.faults out.old) (O.written capture.old) (O.faults capture.old))
        (sinks (O.written out.new) (O.faults out.new) (O.written capture.new) (O.faults capture.new)) }
    ensures out_count { O.faults out.old ≤ O.faults out.new }
    ensures capture_count { O.faults capture.old ≤ O.faults capture.new }
{
    let Ok(script) = script(alloc, seed, n) else {
        return SimEnd::NoMemory;
    };
    let Ok(mut world) = World::new(alloc) else {
        return SimEnd::NoMemory;
    };
    match carry_all_out(&script, &mut world, capture) {
        Ok(totals) => end_of(print_summary(&totals, world.slack(), out)),
        Err(end) => end,
    }
}

/// Carries the operations out one after the other in a new world, and counts what came of them. The record of each event
/// is written before the member takes it, the first Life's before all.
fn carry_all_out<O: Sink>(
    script: &Script,
    world: &mut World,
    capture: &mut O,
) -> Result<Totals, SimEnd>
    requires new { StandsForOps world.old [] }
    requires few { length script.now < 2 ^ 32 }
    requires fit { AllByRecursion OpFits script.now }
    ensures carried { IfOk result (λ totals. CarriesOut (reverse script.now) totals world.new
        (O.written capture.old) (O.written capture.new)) }
    ensures no_fault { OnOk result (O.faults capture.new ≡ O.faults capture.old) }
    ensures stops { IfErr result (λ end. StopsBy script.now (O.written capture.old) (O.written capture.new)
        (O.faults capture.old) (O.faults capture.new) end) }
{
    let mut totals = Totals::NOTHING;
    if let Put::Failed = write_event(&World::first_event(), capture) {
        return Err(SimEnd::WriteFault);
    }
    for i in 0..script.len() {
        if let Err(end) = carry_out(script.at(i), world, &mut totals, capture) {
            return Err(end);
        }
    }
    Ok(totals)
}

/// Carries one operation out, and counts it.
fn carry_out<O: Sink>(
    op: &Op,
    world: &mut World,
    totals: &mut Totals,
    capture: &mut O,
) -> Result<(), SimEnd>
    requires reached { IsFitReached world.old }
    requires fits { OpFits op.now }
    requires room { totals.old.ops + 1 < 2 ^ 32 }
    requires once { IsCountedOnce totals.old }
    ensures carries { OnOk result ((w : State) → Keeps world.old w
        → CarriesOn op.now w totals.old totals.new world.new (O.written capture.old) (O.written capture.new)) }
    ensures no_fault { OnOk result (O.faults capture.new ≡ O.faults capture.old) }
    ensures breaks { IfErr result (λ end. (w : State) → Keeps world.old w
        → BreaksBy op.now w (O.written capture.old) (O.written capture.new)
        (O.faults capture.old) (O.faults capture.new) end) }
{
    let due = world.due(op);
    if let Put::Failed = record(&due, capture) {
        return Err(SimEnd::WriteFault);
    }
    let Ok(effect) = world.carry_out(due) else {
        return Err(SimEnd::NoMemory);
    };
    totals.count(&effect);
    Ok(())
}

/// Writes the record of the event that is due, where one is.
fn record<O: Sink>(due: &Due, capture: &mut O) -> Put
    requires { FitsDue due.now }
    ensures bytes { Writes result (record_due due.now) (O.written capture.old) (O.written capture.new) }
    ensures cause { PutCounts result (O.faults capture.old) (O.faults capture.new) }
{
    match due {
        Due::Take(event) => write_event(event, capture),
        Due::Nothing | Due::Time(_) | Due::Answer(_) => Put::Done,
    }
}

/// How a run ended whose summary was written, or not.
fn end_of(put: Put) -> SimEnd
    ensures { result ≡ end_of put }
{
    match put {
        Put::Done => SimEnd::Done,
        Put::Failed => SimEnd::WriteFault,
    }
}
