//! Calls of a run that is going, and a run whose clock is stepped.
ghost use Rattle.std.specs.Prelude.{◌≡◌, All, IfOk, Ok, OnOk};
ghost use Rattle.base_specs.specs.Time.{IsReading};
ghost use Rattle.edge_io.specs.LinkScript.{IsNoFailure};
ghost use Rattle.slot_disk.specs.Memory.{memory_tells};
ghost use Rattle.member_run.specs.Running.{IsGoing};

use crate::asserts::same;
use crate::lives::{
    FIRST, Failing, Object, Objects, R0, REPLY, Ran, TURN, conf_of, failure_of, objects_of,
    readings_among, take_turns,
};
use edge_io::{Datagram, Move, Receipt};
use member_run::{Running, Why};
use std::alloc::{AllocError, Global};
use std::process::Abort;
use std::test::Fail;

/// The readings of three calls: one for the Life, one a call, and one behind the last.
fn call_readings(alloc: Global) -> Result<Vec<i64>, AllocError>
    ensures { IfOk result (λ readings. All IsReading readings.items) }
{
    let mut readings = Vec::new(alloc);
    readings.push(R0)?;
    readings.push(R0)?;
    readings.push(R0 + TURN)?;
    readings.push(R0 + 2 * TURN)?;
    readings.push(R0 + 2 * TURN + 2_010_000)?;
    Ok(readings)
}

/// Nothing, and the reply.
fn call_receipts(alloc: Global) -> Result<Vec<Receipt>, AllocError>
    ensures { IfOk result (λ receipts. All IsNoFailure receipts.items) }
{
    let mut receipts = Vec::new(alloc);
    receipts.push(Receipt::Quiet)?;
    receipts.push(Receipt::Got(FIRST, Datagram::from_slice(&REPLY)))?;
    Ok(receipts)
}

/// What a call of a run answers, which is no error.
fn answered<T: Drop>(answer: Result<T, Why>) -> Result<T, Fail>
    ensures { IfOk result (λ value. answer ≡ Ok value) }
{
    match answer {
        Ok(value) => Ok(value),
        Err(_) => Err(Fail::new("a call of the run failed")),
    }
}

/// The start of a run.
pub(crate) fn start(alloc: Global, objects: &mut Objects) -> Result<Running, Fail>
    ensures { IfOk result (λ run. IsGoing (memory_tells objects.new.disk) run) }
{
    let conf = conf_of(alloc)?;
    answered(Running::start(
        conf,
        &mut objects.clock,
        &mut objects.disk,
        &mut objects.out,
        &mut objects.capture,
    ))
}

/// What a call with these words answers.
pub(crate) fn answer_of(
    run: &mut Running,
    wait: u32,
    flags: u32,
    objects: &mut Objects,
) -> Result<u32, Why>
    requires { IsGoing (memory_tells objects.old.disk) run.old }
    ensures { OnOk result (IsGoing (memory_tells objects.new.disk) run.new) }
{
    run.resync(
        wait,
        flags,
        &mut objects.link,
        &mut objects.clock,
        &mut objects.disk,
        &mut objects.entropy,
        &mut objects.out,
        &mut objects.capture,
    )
}

/// A call that asks for the result of its round.
pub(crate) fn resync(run: &mut Running, wait: u32, objects: &mut Objects) -> Result<u32, Fail>
    requires { IsGoing (memory_tells objects.old.disk) run.old }
    ensures { OnOk result (IsGoing (memory_tells objects.new.disk) run.new) }
{
    answered(answer_of(run, wait, 2, objects))
}

/// The objects of three calls, with these failing calls.
fn call_objects(alloc: Global, fails: Failing) -> Result<Objects, Fail> {
    let receipts = call_receipts(alloc)?;
    let readings = call_readings(alloc)?;
    objects_of(alloc, receipts, readings, fails)
}

// A request alone, a round in which nothing comes, and one whose reply is accepted.
fn expect_calls(rt: &impl Abort, run: &mut Running, objects: &mut Objects) -> Result<(), Fail>
    requires { IsGoing (memory_tells objects.old.disk) run.old }
{
    let alone = resync(run, 0, objects)?;
    let quiet = resync(run, 1, objects)?;
    let moved = resync(run, 1, objects)?;
    same(rt, &(alone, quiet, moved), &(0, 1, 0), &());
    same(rt, &(run.source(), run.totals().sent), &(Some(0), 3), &());
    let moves = [Move::Slew(29_000_000)];
    same(rt, &objects.clock.moves(), &moves.as_slice(), &());
    Ok(())
}

#[test]
fn calls_of_a_run(rt: HostRuntime) -> Result<(), Fail> {
    let mut objects = call_objects(rt.alloc(), Failing::default())?;
    let mut run = start(rt.alloc(), &mut objects)?;
    expect_calls(&rt, &mut run, &mut objects)
}

// A call whose line can't be written ends there: its request was sent, and nothing was received.
fn expect_line_fault(rt: &impl Abort, run: &mut Running, objects: &mut Objects)
    requires { IsGoing (memory_tells objects.old.disk) run.old }
{
    let answer = answer_of(run, 1, 2, objects);
    same(rt, &answer, &Err(Why::SinkFault), &());
    let sends = objects.link.sends().len();
    same(rt, &(sends, objects.link.calls().len()), &(1, 1), &());
}

#[test]
fn a_call_whose_line_fails(rt: HostRuntime) -> Result<(), Fail> {
    let mut objects = call_objects(rt.alloc(), failure_of(Object::Out, 2))?;
    let mut run = start(rt.alloc(), &mut objects)?;
    expect_line_fault(&rt, &mut run, &mut objects);
    Ok(())
}

// The replies to the first and to the second request, by a clock that is an hour, and then a second ahead, made as `REPLY`.
const AN_HOUR: [u8; 68] = *b"\x1C\x01\x0A\xE9\0\0\0\0\0\0\0\0LOCL\xE1\xB6\x6D\x90\0\0\0\0\
\0\0\0\x01\0\0\0\x01\xE1\xB6\x6D\x90\0\0\0\0\xE1\xB6\x6D\x90\0\x41\x89\x38\x4F\x04\0\0\
\x83\xCB\x11\x0D\x9A\x3D\x7E\x07\xE3\x83\xB2\xC5\x06\xC5\x2A\xB4";

const A_SECOND: [u8; 68] = *b"\x1C\x01\x0A\xE9\0\0\0\0\0\0\0\0LOCL\xE1\xB6\x63\x81\0\0\0\0\
\0\0\0\x02\0\0\0\x02\xE1\xB6\x63\x81\0\0\0\0\xE1\xB6\x63\x81\0\x41\x89\x38\x4F\x04\0\0\
\x88\xC7\xB9\xE2\x12\x7A\xC0\x06\xA3\x67\x6D\x19\xF0\x92\x27\x95";

const STEP_TIMES: &[i64] = &[R0, R0, R0 + 2_010_000, R0 + TURN, R0 + TURN + 2_010_000];

/// Both replies.
fn step_receipts(alloc: Global) -> Result<Vec<Receipt>, AllocError>
    ensures { IfOk result (λ receipts. All IsNoFailure receipts.items) }
{
    let mut receipts = Vec::new(alloc);
    receipts.push(Receipt::Got(FIRST, Datagram::from_slice(&AN_HOUR)))?;
    receipts.push(Receipt::Got(FIRST, Datagram::from_slice(&A_SECOND)))?;
    Ok(receipts)
}

/// A run of two turns, with these replies.
fn run_stepped(alloc: Global) -> Result<Ran, Fail> {
    let readings = readings_among(alloc, STEP_TIMES)?;
    let receipts = step_receipts(alloc)?;
    let conf = conf_of(alloc)?;
    let objects = objects_of(alloc, receipts, readings, Failing::default())?;
    Ok(take_turns(conf, 2, objects))
}

// The second Tick is before the moment to which the step moved the clock, and sends at once.
#[test]
fn a_step_and_the_next_tick(rt: HostRuntime) -> Result<(), Fail> {
    let ran = run_stepped(rt.alloc())?;
    same(&rt, &(ran.end.why, ran.end.sent), &(Why::Done, 2), &());
    let moves = [Move::Step(35_999_000_000), Move::Slew(9_000_000)];
    same(&rt, &ran.objects.clock.moves(), &moves.as_slice(), &());
    Ok(())
}
