//! A member that runs over its devices, whose calls fail or don't.
ghost use Rattle.std.specs.Prelude.{◌≤◌, ◌≤ℤ◌, All, IfOk, pos};
ghost use Rattle.base_specs.specs.Time.{IsReading};
ghost use Rattle.edge_io.specs.LinkScript.{IsNoFailure};

use crate::asserts::same;
use edge_io::{Addr, Datagram, Move, Receipt, ScriptClock, ScriptEntropy, ScriptLink, ScriptSink};
use key_book::Account;
use member_run::{LifeEnd, Why, live};
use ms_auth::Kind;
use phase_rule::Limits;
use slot_disk::MemoryDisk;
use sntp_core::{Conf, Partners};
use std::alloc::{AllocError, Global};
use std::process::Abort;
use std::test::Fail;

/// 1 January 2020, in ticks.
pub(crate) const R0: i64 = 132_223_104_000_000_000;

/// From one turn to the next: 1,024 seconds.
pub(crate) const TURN: i64 = 10_240_000_000;

const TURNS: u32 = 20;

/// The address of the first partner in rank.
pub(crate) const FIRST: Addr = Addr {
    ip: 0x0A00_0002,
    port: 123,
};

/// The addresses of all partners, in rank.
const PARTNERS: [Addr; 3] = [
    FIRST,
    Addr {
        ip: 0x0A00_0001,
        port: 123,
    },
    Addr {
        ip: 0x0A00_0003,
        port: 123,
    },
];

// The reply to the request with the count 3 and the word 3, received 3 seconds later by the server's clock and sent a
// millisecond after that. With the header in the file `header` and the key 00 01 .. 0F the checksum is
// (echo KEY | xxd -r -p; cat header) | openssl md5
pub(crate) const REPLY: [u8; 68] = *b"\x1C\x01\x0A\xE9\0\0\0\0\0\0\0\0LOCL\xE1\xB6\x67\x83\0\0\0\0\
\0\0\0\x03\0\0\0\x03\xE1\xB6\x67\x83\0\0\0\0\xE1\xB6\x67\x83\0\x41\x89\x38\x4F\x04\0\0\
\x69\x29\xC1\xA1\x01\xDF\xD5\xB3\x37\xC5\xC4\x2A\x71\x15\xA1\x7E";

const REPORT: &[u8] = b"life mark=0\n\
send n=1 to=10.0.0.2:123\n\
send n=2 to=10.0.0.2:123\n\
refused reason=BadLength\n\
send n=3 to=10.0.0.2:123\n\
moved n=3 offset=29000000 by=slew\n\
send n=4 to=10.0.0.2:123\n\
send n=5 to=10.0.0.2:123\n\
send n=6 to=10.0.0.2:123\n\
send n=7 to=10.0.0.2:123\n\
send n=8 to=10.0.0.2:123\n\
send n=9 to=10.0.0.2:123\n\
send n=10 to=10.0.0.2:123\n\
send n=11 to=10.0.0.2:123\n\
send n=12 to=10.0.0.1:123\n\
send n=13 to=10.0.0.1:123\n\
send n=14 to=10.0.0.1:123\n\
send n=15 to=10.0.0.1:123\n\
send n=16 to=10.0.0.1:123\n\
send n=17 to=10.0.0.1:123\n\
send n=18 to=10.0.0.1:123\n\
send n=19 to=10.0.0.1:123\n\
total sent=19 moved=1 refused=1\n\
link quiet=18 lost=0\n";

/// The number of the call that fails, of each object. The call 0 is none.
#[derive(Clone, Copy, Default)]
pub(crate) struct Failing {
    link: u64,
    clock: u64,
    disk: u64,
    entropy: u64,
    out: u64,
    capture: u64,
}

/// The objects behind a run.
#[derive(Drop)]
pub(crate) struct Objects {
    pub link: ScriptLink,
    pub clock: ScriptClock,
    pub disk: MemoryDisk,
    pub entropy: ScriptEntropy,
    pub out: ScriptSink,
    pub capture: ScriptSink,
}

/// How a run ended, and the objects behind it.
#[derive(Drop)]
pub(crate) struct Ran {
    pub end: LifeEnd,
    pub objects: Objects,
}

/// The member WS1, whose ranked partners are 10.0.0.2, 10.0.0.1 and 10.0.0.3, with the limits that it has by default.
pub(crate) fn conf_of(alloc: Global) -> Result<Conf, AllocError> {
    let account = Account {
        rid: 1103,
        current: [0, 1, 2, 3, 4, 5, 6, 7, 8, 9, 10, 11, 12, 13, 14, 15],
        previous: None,
    };
    let limits = Limits {
        max_pos: 172_800,
        max_neg: 172_800,
        max_allowed: 300,
        min_poll: 10,
        max_poll: 15,
    };
    let list = PARTNERS.to_vec(alloc)?;
    Ok(Conf {
        kind: Kind::Short,
        account,
        limits,
        partners: Partners::new(list),
    })
}

/// When a turn starts, counted from 1.
fn start_of(turn: u32) -> i64
    requires { turn ≤ 20 }
    // between R0 less a turn and R0 with twenty of them
    ensures first { pos 132223093760000000 ≤ℤ result }
    ensures last { result ≤ℤ pos 132223308800000000 }
{
    R0 + i64::from(turn) * TURN - TURN
}

/// The times of the realistic run: one for the Life, one a turn, and in the turns 2 and 3 one behind it.
fn times_of(alloc: Global) -> Result<Vec<i64>, AllocError> {
    let mut times = Vec::new(alloc);
    times.push(R0)?;
    for turn in 1..21u32 {
        let now = start_of(turn);
        times.push(now)?;
        if turn == 2 {
            times.push(now + 10_000)?;
        }
        if turn == 3 {
            times.push(now + 2_010_000)?;
        }
    }
    Ok(times)
}

/// The numbers among these that are readings.
pub(crate) fn readings_among(alloc: Global, numbers: &[i64]) -> Result<Vec<i64>, AllocError>
    ensures { IfOk result (λ readings. All IsReading readings.items) }
{
    numbers
        .iter()
        .copied()
        .filter(|number| *number >= 0 && *number <= 4_000_000_000_000_000_000)
        .collect(alloc)
}

/// The readings of the realistic run.
pub(crate) fn readings_of(alloc: Global) -> Result<Vec<i64>, AllocError>
    ensures { IfOk result (λ readings. All IsReading readings.items) }
{
    let times = times_of(alloc)?;
    readings_among(alloc, &times)
}

/// Nothing, ten zero bytes, and the reply.
pub(crate) fn receipts_of(alloc: Global) -> Result<Vec<Receipt>, AllocError>
    ensures { IfOk result (λ receipts. All IsNoFailure receipts.items) }
{
    let mut receipts = Vec::new(alloc);
    receipts.push(Receipt::Quiet)?;
    receipts.push(Receipt::Got(FIRST, Datagram::from_slice(&[0; 10])))?;
    receipts.push(Receipt::Got(FIRST, Datagram::from_slice(&REPLY)))?;
    Ok(receipts)
}

/// A link over which these come, of which this call fails.
fn link_of(alloc: Global, receipts: Vec<Receipt>, call: u64) -> Result<ScriptLink, Fail>
    requires { All IsNoFailure receipts.items }
{
    let link = ScriptLink::new(alloc, receipts, [call].to_vec(alloc)?, 80)?;
    Ok(link)
}

/// A clock that gives these readings, of which this call fails.
fn clock_of(alloc: Global, readings: Vec<i64>, call: u64) -> Result<ScriptClock, Fail>
    requires { All IsReading readings.items }
{
    let clock = ScriptClock::new(alloc, readings, [call].to_vec(alloc)?, 32)?;
    Ok(clock)
}

/// An empty disk, of which this call fails.
fn disk_of(alloc: Global, call: u64) -> Result<MemoryDisk, Fail> {
    let disk = MemoryDisk::new(alloc, [0; 256], [call].to_vec(alloc)?, 64)?;
    Ok(disk)
}

/// An entropy that draws 1 to 71, of which this call fails.
fn entropy_of(alloc: Global, call: u64) -> Result<ScriptEntropy, Fail> {
    let mut words = Vec::new(alloc);
    for word in 1..72 {
        words.push(word)?;
    }
    let entropy = ScriptEntropy::new(alloc, words, [call].to_vec(alloc)?, 0)?;
    Ok(entropy)
}

fn sink_of(alloc: Global, call: u64) -> Result<ScriptSink, Fail> {
    let sink = ScriptSink::new(alloc, [call].to_vec(alloc)?, 8_000)?;
    Ok(sink)
}

/// Objects that give these receipts and readings, with these failing calls.
pub(crate) fn objects_of(
    alloc: Global,
    receipts: Vec<Receipt>,
    readings: Vec<i64>,
    fails: Failing,
) -> Result<Objects, Fail>
    requires receipts { All IsNoFailure receipts.items }
    requires readings { All IsReading readings.items }
{
    let link = link_of(alloc, receipts, fails.link)?;
    let clock = clock_of(alloc, readings, fails.clock)?;
    let disk = disk_of(alloc, fails.disk)?;
    let entropy = entropy_of(alloc, fails.entropy)?;
    let out = sink_of(alloc, fails.out)?;
    let capture = sink_of(alloc, fails.capture)?;
    Ok(Objects {
        link,
        clock,
        disk,
        entropy,
        out,
        capture,
    })
}

/// So many turns of this member over the objects.
pub(crate) fn take_turns(conf: Conf, turns: u32, mut objects: Objects) -> Ran {
    let end = live(
        conf,
        turns,
        &mut objects.link,
        &mut objects.clock,
        &mut objects.disk,
        &mut objects.entropy,
        &mut objects.out,
        &mut objects.capture,
    );
    Ran { end, objects }
}

/// So many turns over these receipts, with these failing calls.
fn run_over(alloc: Global, receipts: Vec<Receipt>, turns: u32, fails: Failing) -> Result<Ran, Fail>
    requires { All IsNoFailure receipts.items }
{
    let conf = conf_of(alloc)?;
    let readings = readings_of(alloc)?;
    let objects = objects_of(alloc, receipts, readings, fails)?;
    Ok(take_turns(conf, turns, objects))
}

/// The realistic run, with these failing calls.
fn run(alloc: Global, fails: Failing) -> Result<Ran, Fail> {
    let receipts = receipts_of(alloc)?;
    run_over(alloc, receipts, TURNS, fails)
}

/// Five turns in which nothing comes.
fn run_quiet(alloc: Global, fails: Failing) -> Result<Ran, Fail> {
    run_over(alloc, Vec::new(alloc), 5, fails)
}

fn add(bytes: &mut Vec<u8>, kind: u8, now: i64) -> Result<(), AllocError> {
    bytes.push(kind)?;
    if kind == 1 {
        bytes.extend_from_slice(b"W32T")?;
    }
    bytes.extend_from_slice(&now.to_be_bytes())
}

fn add_tick(bytes: &mut Vec<u8>, now: i64, word: u32) -> Result<(), AllocError> {
    add(bytes, 2, now)?;
    bytes.extend_from_slice(&word.to_be_bytes())
}

fn add_arrive(bytes: &mut Vec<u8>, now: i64, len: u8, datagram: &[u8]) -> Result<(), AllocError> {
    add(bytes, 4, now)?;
    bytes.extend_from_slice(&[0x0A, 0, 0, 2, 0, 123, 0, len])?;
    bytes.extend_from_slice(datagram)
}

/// The capture of the realistic run, record by record.
fn capture_of(alloc: Global) -> Result<Vec<u8>, AllocError> {
    let mut bytes = Vec::new(alloc);
    add(&mut bytes, 1, R0)?;
    bytes.extend_from_slice(&[0; 4])?;
    for turn in 1..21u32 {
        let now = start_of(turn);
        add_tick(&mut bytes, now, turn)?;
        if turn == 2 {
            add_arrive(&mut bytes, now + 10_000, 10, &[0; 10])?;
        }
        if turn == 3 {
            add_arrive(&mut bytes, now + 2_010_000, 68, &REPLY)?;
        }
    }
    Ok(bytes)
}

/// How the realistic run ends.
const ALL_TAKEN: LifeEnd = LifeEnd {
    sent: 19,
    moved: 1,
    refused: 1,
    quiet: 18,
    lost: 0,
    turns: 20,
    why: Why::Done,
};

// The lines, the capture, the correction, the sends and what the disk holds.
fn expect_realistic(rt: &impl Abort, capture: &[u8], ran: &Ran) {
    same(rt, &ran.end, &ALL_TAKEN, &());
    let objects = &ran.objects;
    same(rt, &objects.out.bytes(), &REPORT, &());
    same(rt, &objects.capture.bytes(), &capture, &());
    let moves = [Move::Slew(29_000_000)];
    same(rt, &objects.clock.moves(), &moves.as_slice(), &());
    same(rt, &objects.link.sends().len(), &19, &());
    let front = &objects.disk.content()[..8];
    same(rt, &front, &b"\xA5\x01\0\0\0\0\0\x40".as_slice(), &());
}

#[test]
fn realistic_run(rt: HostRuntime) -> Result<(), Fail> {
    let capture = capture_of(rt.alloc())?;
    same(&rt, &capture.len(), &389, &());
    let ran = run(rt.alloc(), Failing::default())?;
    expect_realistic(&rt, &capture, &ran);
    Ok(())
}

/// Which reading fails, how many turns were taken before, and how many bytes of the capture were written.
type FirstFault = (u64, u32, usize);

const FIRST_FAULTS: &[FirstFault] = &[(4, 2, 43), (3, 1, 30)];

fn expect_first_fault(rt: &impl Abort, fault: &FirstFault, capture: &[u8], ran: &Ran) {
    let (call, turns, len) = *fault;
    let got = (ran.end.why, ran.end.turns);
    same(rt, &got, &(Why::ClockFault, turns), &call);
    let written = Some(ran.objects.capture.bytes());
    same(rt, &written, &capture.get(..len), &call);
}

// Quiet receipts, and a clock whose third or fourth reading fails.
#[test]
fn bad_words_and_first_faults(rt: HostRuntime) -> Result<(), Fail> {
    let capture = capture_of(rt.alloc())?;
    for fault in FIRST_FAULTS {
        let ran = run_quiet(rt.alloc(), failure_of(Object::Clock, fault.0))?;
        expect_first_fault(&rt, fault, &capture, &ran);
    }
    Ok(())
}

/// An object of a run.
#[derive(Clone, Copy)]
pub(crate) enum Object {
    Link,
    Clock,
    Disk,
    Entropy,
    Out,
    Capture,
}

pub(crate) fn failure_of(object: Object, call: u64) -> Failing {
    let mut fails = Failing::default();
    match object {
        Object::Link => fails.link = call,
        Object::Clock => fails.clock = call,
        Object::Disk => fails.disk = call,
        Object::Entropy => fails.entropy = call,
        Object::Out => fails.out = call,
        Object::Capture => fails.capture = call,
    }
    fails
}

/// Which call fails, why the run ends, and how many bytes of the capture, moves and Ticks are those of the events taken.
type Row = (Object, u64, Why, usize, usize, u32);

const FAULTS: &[Row] = &[
    (Object::Link, 1, Why::Done, 389, 1, 20),
    (Object::Clock, 1, Why::ClockFault, 0, 0, 0),
    (Object::Clock, 4, Why::ClockFault, 43, 0, 2),
    (Object::Clock, 6, Why::ClockFault, 83, 0, 3),
    (Object::Disk, 1, Why::DiskFault, 0, 0, 0),
    (Object::Disk, 2, Why::DiskFault, 0, 0, 0),
    (Object::Disk, 3, Why::DiskFault, 17, 0, 0),
    (Object::Disk, 6, Why::DiskFault, 17, 0, 0),
    (Object::Disk, 7, Why::Done, 389, 1, 20),
    (Object::Entropy, 1, Why::EntropyFault, 17, 0, 0),
    (Object::Entropy, 3, Why::EntropyFault, 70, 0, 2),
    (Object::Capture, 1, Why::SinkFault, 0, 0, 0),
    (Object::Capture, 4, Why::SinkFault, 43, 0, 2),
    (Object::Capture, 6, Why::SinkFault, 83, 0, 3),
    (Object::Out, 1, Why::SinkFault, 17, 0, 0),
    (Object::Out, 6, Why::SinkFault, 168, 1, 3),
    (Object::Out, 23, Why::SinkFault, 389, 1, 20),
    (Object::Out, 24, Why::SinkFault, 389, 1, 20),
];

fn expect_row(rt: &impl Abort, whole: &[u8], row: &Row, ran: &Ran) {
    let (_, call, why, len, moves, turns) = *row;
    let got = (ran.end.why, ran.end.turns, ran.objects.clock.moves().len());
    same(rt, &got, &(why, turns, moves), &call);
    let written = Some(ran.objects.capture.bytes());
    same(rt, &written, &whole.get(..len), &call);
}

#[test]
fn each_device_fails(rt: HostRuntime) -> Result<(), Fail> {
    let whole = capture_of(rt.alloc())?;
    for row in FAULTS {
        let (object, call, ..) = *row;
        let ran = run(rt.alloc(), failure_of(object, call))?;
        expect_row(&rt, &whole, row, &ran);
    }
    Ok(())
}
