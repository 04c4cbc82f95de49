//! How near to the true time a member brings its clock, and when.
ghost use Rattle.std.specs.Prelude.{◌≡◌, IfOk, Ok, OnOk};
ghost use Rattle.slot_disk.specs.Memory.{memory_tells};
ghost use Rattle.member_run.specs.Running.{IsGoing};

use crate::world::{ACCOUNT, Controller, Counted, Machine, PARTNER, World};
use edge_io::{Clock, NullSink, Reading, RealClock};
use member_run::{Running, Why};
use ms_auth::Kind;
use phase_rule::Limits;
use slot_disk::MemoryDisk;
use sntp_core::{Conf, Partners};
use std::alloc::{AllocError, Global};
use std::process::Abort;
use std::test::Fail;

const TURNS: u32 = 3_000;

/// From one turn to the next: a second more than the shortest interval, which is 1,024 seconds by the member's clock.
const TURN: i64 = 10_250_000_000;

/// How far a sum by hand may be from what is seen: a slew that is going on moves the clock by 10 ticks between the two
/// readings of one request, and each quotient is rounded.
const ROUNDING: u64 = 20;

/// The greatest poll exponent with which each turn asks, and the one that a member has by default.
const EACH_TURN: u8 = 10;

const DEFAULT: u8 = 15;

/// The devices behind a run.
#[derive(Drop)]
struct Devices<'a> {
    link: Controller<'a>,
    clock: RealClock<Machine<'a>>,
    disk: MemoryDisk,
    entropy: Counted,
    out: NullSink,
    capture: NullSink,
}

fn devices_of(alloc: Global, world: &World) -> Result<Devices<'_>, Fail> {
    let disk = MemoryDisk::new(alloc, [0; 256], Vec::new(alloc), 1_000)?;
    Ok(Devices {
        link: Controller::new(world),
        clock: RealClock::new(Machine { world }),
        disk,
        entropy: Counted { last: 0 },
        out: NullSink,
        capture: NullSink,
    })
}

/// A member with the limits that it has by default, but for this poll exponent.
fn conf_of(alloc: Global, max_poll: u8) -> Result<Conf, AllocError> {
    let limits = Limits {
        max_pos: 172_800,
        max_neg: 172_800,
        max_allowed: 300,
        min_poll: 10,
        max_poll: max_poll.clamp(10, 17),
    };
    let partners = [PARTNER].to_vec(alloc)?;
    Ok(Conf {
        kind: Kind::Short,
        account: ACCOUNT,
        limits,
        partners: Partners::new(partners),
    })
}

/// What a call of a run answers, which is no error.
fn answered<T: Drop>(answer: Result<T, Why>) -> Result<T, Fail>
    ensures { IfOk result (λ value. answer ≡ Ok value) }
{
    match answer {
        Ok(value) => Ok(value),
        Err(_) => Err(Fail::new("a call of the run failed")),
    }
}

fn start(alloc: Global, max_poll: u8, devices: &mut Devices) -> Result<Running, Fail>
    ensures { IfOk result (λ run. IsGoing (memory_tells devices.new.disk) run) }
{
    let conf = conf_of(alloc, max_poll)?;
    answered(Running::start(
        conf,
        &mut devices.clock,
        &mut devices.disk,
        &mut devices.out,
        &mut devices.capture,
    ))
}

fn turn(run: &mut Running, devices: &mut Devices) -> Result<(), Fail>
    requires { IsGoing (memory_tells devices.old.disk) run.old }
    ensures { OnOk result (IsGoing (memory_tells devices.new.disk) run.new) }
{
    answered(run.turn(
        &mut devices.link,
        &mut devices.clock,
        &mut devices.disk,
        &mut devices.entropy,
        &mut devices.out,
        &mut devices.capture,
    ))
}

/// How far a clock is behind the true time.
fn error_of(clock: &mut impl Clock, world: &World) -> Result<i64, Fail> {
    match clock.now() {
        Reading::At(moment) => Ok(world.now().saturating_sub(moment)),
        Reading::Failed => Err(Fail::new("a reading failed")),
    }
}

/// The errors of a clock before each turn, positive where it is behind: the first, the greatest after the first correction,
/// and the last; and from which turn on they were within the drift of a poll.
#[derive(Clone, Copy)]
struct Errors {
    first: i64,
    greatest: i64,
    last: i64,
    settled: u32,
}

impl Errors {
    /// With the error before a turn.
    fn with(self, turn: u32, error: i64, drift: i64) -> Errors {
        let mut errors = self;
        errors.last = error;
        if turn == 0 {
            errors.first = error;
        } else if error.unsigned_abs() > errors.greatest.unsigned_abs() {
            errors.greatest = error;
        }
        if error.unsigned_abs() > drift.unsigned_abs().saturating_add(ROUNDING) {
            errors.settled = turn.saturating_add(1);
        }
        errors
    }
}

/// All turns, one after the other.
fn turns(
    run: &mut Running,
    devices: &mut Devices,
    world: &World,
    drift: i64,
) -> Result<Errors, Fail>
    requires { IsGoing (memory_tells devices.old.disk) run.old }
{
    let mut errors = Errors {
        first: 0,
        greatest: 0,
        last: 0,
        settled: 0,
    };
    for at in 0..TURNS {
        world.set(i64::from(at) * TURN);
        let error = error_of(&mut devices.clock, world)?;
        errors = errors.with(at, error, drift);
        turn(run, devices)?;
    }
    Ok(errors)
}

/// In microseconds: by how much a clock is behind, and what it gains a second; the drift in the longest time between two
/// corrections; the greatest error after the first correction, and the last one. Then the turn from which on no error is past
/// that drift, and how many replies were accepted.
type Row = (i64, i64, i64, i64, i64, u32, u32);

// A turn of 1,025 seconds works off 512,500 microseconds of a slew, one in 2,000.
//
// - 10 ms are worked off in 20 seconds.
// - Of a second 487,500 are left after one turn, and nothing after two.
// - 299 seconds take 583.4 turns.
// - An hour is a step.
const EVEN: &[Row] = &[
    (10_000, 0, 0, 0, 0, 1, 3_000),
    (1_000_000, 0, 0, 487_500, 0, 2, 3_000),
    (-299_000_000, 0, 0, -298_487_500, 0, 584, 3_000),
    (3_600_000_000, 0, 0, 0, 0, 1, 3_000),
];

// A clock that loses or gains 50 microseconds a second drifts by 51,250 a turn. Meanwhile 26 fewer or more are worked off of
// a slew, since the machine's clock counts them.
//
// - Of a second, to which the drift adds, 538,724 are left after one turn, 77,449 after two, and then the drift of a turn.
// - Of 299 seconds a turn takes off 461,224, so that they take 648.2 turns.
const DRIFTING: &[Row] = &[
    (10_000, -50, 51_250, 51_250, 51_250, 0, 3_000),
    (-1_000_000, 50, 51_250, -538_724, -51_250, 3, 3_000),
    (299_000_000, -50, 51_250, 298_538_776, 51_250, 649, 3_000),
    (-3_600_000_000, -50, 51_250, 51_250, 51_250, 1, 3_000),
];

// By default the poll exponent rises with each offset of at most 100 ms, so that 2, 4, 8, 16 and 32 turns lie between two
// requests, and falls back to its least with a greater one.
//
// - An even clock that is a second off asks in the turns 0, 1, 2, 4, 8, 16 and 32, and from 64 on in each 32nd, 92 times.
// - At 50 millionths two turns without a correction are 102.5 ms, and the next interval is one turn again: it asks in the
//   turn 0, in the turns 2 and 3, 5 and 6, and so on, at last in the last one.
// - At one millionth 32 turns are 32.8 ms. It asks in the turns 0, 2, 6, 14 and 30, and from 62 on in each 32nd, 92 times,
//   at last 25 turns before the last one.
const BY_DEFAULT: &[Row] = &[
    (1_000_000, 0, 0, 487_500, 0, 2, 99),
    (10_000, -50, 102_500, 102_500, 102_500, 0, 2_000),
    (10_000, -1, 32_800, 32_800, 25_625, 0, 97),
];

/// A run over such a machine: the errors of its clock, and how many replies were accepted.
fn run(alloc: Global, max_poll: u8, row: &Row) -> Result<(Errors, u32), Fail> {
    let (behind, gains, drift, ..) = *row;
    let world = World::new(ticks(behind), ticks(gains));
    let mut devices = devices_of(alloc, &world)?;
    let mut running = start(alloc, max_poll, &mut devices)?;
    let errors = turns(&mut running, &mut devices, &world, ticks(drift))?;
    Ok((errors, running.totals().moved))
}

/// So many microseconds, in ticks.
fn ticks(micros: i64) -> i64 {
    micros.saturating_mul(10)
}

/// Whether an error is so many microseconds, but for rounding.
fn is_near(error: i64, micros: i64) -> bool {
    error.abs_diff(ticks(micros)) <= ROUNDING
}

fn expect(rt: &impl Abort, row: &Row, errors: Errors, moved: u32) {
    let (behind, gains, _, greatest, last, settled, accepted) = *row;
    assert_eq!(rt;
        (errors.first, errors.settled, moved),
        (ticks(behind), settled, accepted),
        "{behind} and {gains}"
    );
    assert!(rt;
        is_near(errors.greatest, greatest),
        "{behind} and {gains}: {}",
        errors.greatest
    );
    assert!(rt;
        is_near(errors.last, last),
        "{behind} and {gains}: {}",
        errors.last
    );
}

fn expect_rows(rt: &impl Abort, alloc: Global, max_poll: u8, rows: &[Row]) -> Result<(), Fail> {
    for row in rows {
        let (errors, moved) = run(alloc, max_poll, row)?;
        expect(rt, row, errors, moved);
    }
    Ok(())
}

#[test]
fn even_clocks_settle(rt: HostRuntime) -> Result<(), Fail> {
    expect_rows(&rt, rt.alloc(), EACH_TURN, EVEN)
}

#[test]
fn drifting_clocks_settle(rt: HostRuntime) -> Result<(), Fail> {
    expect_rows(&rt, rt.alloc(), EACH_TURN, DRIFTING)
}

#[test]
fn clocks_settle_by_default(rt: HostRuntime) -> Result<(), Fail> {
    expect_rows(&rt, rt.alloc(), DEFAULT, BY_DEFAULT)
}
