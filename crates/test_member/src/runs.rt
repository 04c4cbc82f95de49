//! Runs of `/member`.
use crate::asserts::{holds, same};
use edge_io::{Addr, Move, Put, Tried};
use std::alloc::Global;
use std::process::Abort;
use std::test::Fail;
use test_scripts::{
    Came, Device, INTERVAL, NEW_YEAR, REALISTIC, Ran, SETTINGS, STEADY, Script, THIRD,
    realistic_capture, run,
};
use w32tm_cmd::Status;

const WORDS: &[&str] = &["/member:20", "/config:c", "/keeper:k"];

pub(crate) const FIRST: Addr = Addr {
    ip: 0x0A00_0002,
    port: 123,
};

pub(crate) const SECOND: Addr = Addr {
    ip: 0x0A00_0001,
    port: 123,
};

/// One for the Life and one a turn. The second and the third turn get a datagram, and with it a second reading.
const READINGS: [i64; 23] = [
    NEW_YEAR,
    NEW_YEAR,
    NEW_YEAR + INTERVAL,
    NEW_YEAR + INTERVAL + 10_000,
    NEW_YEAR + 2 * INTERVAL,
    NEW_YEAR + 2 * INTERVAL + 2_010_000,
    NEW_YEAR + 3 * INTERVAL,
    NEW_YEAR + 4 * INTERVAL,
    NEW_YEAR + 5 * INTERVAL,
    NEW_YEAR + 6 * INTERVAL,
    NEW_YEAR + 7 * INTERVAL,
    NEW_YEAR + 8 * INTERVAL,
    NEW_YEAR + 9 * INTERVAL,
    NEW_YEAR + 10 * INTERVAL,
    NEW_YEAR + 11 * INTERVAL,
    NEW_YEAR + 12 * INTERVAL,
    NEW_YEAR + 13 * INTERVAL,
    NEW_YEAR + 14 * INTERVAL,
    NEW_YEAR + 15 * INTERVAL,
    NEW_YEAR + 16 * INTERVAL,
    NEW_YEAR + 17 * INTERVAL,
    NEW_YEAR + 18 * INTERVAL,
    NEW_YEAR + 19 * INTERVAL,
];

const RANDOM: [u32; 20] = [
    1, 2, 3, 4, 5, 6, 7, 8, 9, 10, 11, 12, 13, 14, 15, 16, 17, 18, 19, 20,
];

/// Twenty turns: nothing, ten bytes, the reply to the third request, and nothing more.
pub(crate) const TWENTY: Script<'static> = Script {
    settings: SETTINGS,
    came: &[
        Came::Nothing,
        Came::From(FIRST, &[0; 10]),
        Came::From(FIRST, &THIRD),
    ],
    readings: &READINGS,
    random: &RANDOM,
    ..STEADY
};

/// The same, where nothing comes.
const QUIET: Script<'static> = Script {
    came: &[],
    ..TWENTY
};

/// The report of the whole run, with its closing lines.
fn report_of(alloc: Global) -> Result<Vec<u8>, Fail> {
    let mut text = REALISTIC.to_vec(alloc)?;
    text.extend_from_slice(b"link quiet=18 lost=0\n")?;
    Ok(text)
}

/// What the keeper holds after a first block of counts was reserved.
fn reserved_once() -> [u8; 256] {
    let mut image = [0; 256];
    image[0] = 0xA5;
    image[1] = 1;
    image[7] = 64;
    image
}

/// The count that a request carries: the seconds of its transmit timestamp.
fn count_of(tried: &Tried) -> Option<u32> {
    let bytes = tried.bytes.as_slice().get(40..44)?;
    let bytes: [u8; 4] = bytes.try_into().ok()?;
    Some(u32::from_be_bytes(bytes))
}

/// The send of this number is a short request with that count, to the partner that is asked then.
fn expect_send(rt: &impl Abort, count: u32, tried: &Tried) {
    let to = if count < 12 { FIRST } else { SECOND };
    let len = tried.bytes.as_slice().len();
    same(
        rt,
        &(tried.to, tried.put, len, count_of(tried)),
        &(to, Put::Done, 68, Some(count)),
        &count,
    );
}

/// The sends have the counts from 1 on.
fn expect_sends(rt: &impl Abort, ran: &Ran) {
    let mut count = 0u32;
    for tried in ran.sends() {
        count = count.saturating_add(1);
        expect_send(rt, count, tried);
    }
}

/// The capture replays to the same lines, but for the link's.
fn expect_replayed(rt: &impl Abort, alloc: Global, ran: &Ran) -> Result<(), Fail> {
    let replayed = run(alloc, &["/replay", "/config:c"], ran.capture(), &TWENTY)?;
    same(rt, &replayed.status, &Status::Done, &());
    same(rt, &replayed.written(), &REALISTIC, &());
    Ok(())
}

// The lines, the capture, the correction and what the keeper holds.
fn expect_realistic(rt: &impl Abort, report: &[u8], capture: &[u8], ran: &Ran) {
    same(rt, &ran.status, &Status::Done, &());
    same(rt, &ran.written(), &report, &());
    same(
        rt,
        &(ran.capture().len(), ran.capture()),
        &(389, capture),
        &(),
    );
    same(rt, ran.image(), &reserved_once(), &());
    same(rt, &ran.moves(), &[Move::Slew(29_000_000)].as_slice(), &());
    let counts = (ran.sends().len(), ran.config_left, ran.left);
    same(rt, &counts, &(19, 0, 5), &());
}

#[test]
fn realistic_run(rt: HostRuntime) -> Result<(), Fail> {
    let alloc = rt.alloc();
    let report = report_of(alloc)?;
    let capture = realistic_capture(alloc)?;
    let ran = run(alloc, WORDS, b"input", &TWENTY)?;
    expect_realistic(&rt, &report, &capture, &ran);
    expect_sends(&rt, &ran);
    expect_replayed(&rt, alloc, &ran)
}

/// How many lines, bytes of the capture, sends and moves there are of so many events: of the Life, and in each turn of a
/// Tick, which sends but for the fourth, and in the second and third turn of an arrival.
const DUE: [(usize, usize, usize, usize); 24] = [
    (0, 0, 0, 0),
    (1, 17, 0, 0),
    (2, 30, 1, 0),
    (3, 43, 2, 0),
    (4, 70, 2, 0),
    (5, 83, 3, 0),
    (6, 168, 3, 1),
    (6, 181, 3, 1),
    (7, 194, 4, 1),
    (8, 207, 5, 1),
    (9, 220, 6, 1),
    (10, 233, 7, 1),
    (11, 246, 8, 1),
    (12, 259, 9, 1),
    (13, 272, 10, 1),
    (14, 285, 11, 1),
    (15, 298, 12, 1),
    (16, 311, 13, 1),
    (17, 324, 14, 1),
    (18, 337, 15, 1),
    (19, 350, 16, 1),
    (20, 363, 17, 1),
    (21, 376, 18, 1),
    (22, 389, 19, 1),
];

/// How a run ends of which this call fails, and how many events it took. The keeper is loaded by two calls of the disk, and
/// four more reserve the one block of counts.
fn end_of(device: Device, call: usize) -> (Status, usize) {
    match (device, call) {
        (Device::Config, 1..=3) => (Status::ReadFault, 0),
        (Device::Disk, 1..=2) => (Status::DiskFault, 0),
        (Device::Disk, 3..=6) => (Status::DiskFault, 1),
        (Device::Clock, 1..=23) => (Status::ClockFault, call - 1),
        (Device::Entropy, 1..=2) => (Status::EntropyFault, call),
        (Device::Entropy, 3) => (Status::EntropyFault, 4),
        (Device::Entropy, 4..=20) => (Status::EntropyFault, call + 2),
        (Device::Capture, 1..=23) => (Status::WriteFault, call - 1),
        (Device::Out, 1..=6) => (Status::WriteFault, call),
        (Device::Out, 7..=22) => (Status::WriteFault, call + 1),
        (Device::Out, 23..=24) => (Status::WriteFault, 23),
        _ => (Status::Done, 23),
    }
}

/// How many lines such a run printed, where there are so many of its events: not the one whose write failed.
fn lines_of(device: Device, call: usize, of_events: usize) -> usize {
    match (device, end_of(device, call)) {
        (_, (Status::Done, _)) => 24,
        (Device::Out, (Status::WriteFault, _)) if call > 0 => call - 1,
        _ => of_events,
    }
}

// Each call of each device but the link, and one call more than are made.
const CALLS: [(Device, u64); 7] = [
    (Device::Config, 4),
    (Device::Input, 1),
    (Device::Disk, 7),
    (Device::Clock, 24),
    (Device::Entropy, 21),
    (Device::Capture, 24),
    (Device::Out, 25),
];

fn run_failing(alloc: Global, device: Device, call: u64) -> Result<Ran, Fail> {
    let failing = [(device, call)];
    let script = Script {
        failing: &failing,
        ..TWENTY
    };
    run(alloc, WORDS, b"", &script)
}

/// The status, and how many bytes of the capture, sends and moves there are.
pub(crate) fn made_by(ran: &Ran) -> (Status, usize, usize, usize) {
    (
        ran.status,
        ran.capture().len(),
        ran.sends().len(),
        ran.moves().len(),
    )
}

/// How many lines were printed.
fn printed(text: &[u8]) -> usize {
    text.iter().filter(|byte| **byte == b'\n').count()
}

// Capture, sends, moves and lines are those of the events that were taken.
fn expect_events(rt: &impl Abort, device: Device, call: usize, ran: &Ran) {
    let (status, events) = end_of(device, call);
    let (lines, len, sends, moves) = DUE[events.min(23)];
    let case = (device, call);
    same(rt, &made_by(ran), &(status, len, sends, moves), &case);
    let want = lines_of(device, call, lines);
    same(rt, &printed(ran.written()), &want, &case);
}

fn expect_fronts(rt: &impl Abort, report: &[u8], capture: &[u8], ran: &Ran) {
    holds(rt, report.starts_with(ran.written()), &());
    holds(rt, capture.starts_with(ran.capture()), &());
}

#[test]
fn each_call_fails(rt: HostRuntime) -> Result<(), Fail> {
    let report = report_of(rt.alloc())?;
    let capture = realistic_capture(rt.alloc())?;
    for (device, last) in CALLS {
        for call in 1..=last {
            let ran = run_failing(rt.alloc(), device, call)?;
            expect_events(&rt, device, call as usize, &ran);
            expect_fronts(&rt, &report, &capture, &ran);
        }
    }
    Ok(())
}

/// What the closing lines say where this call of the link fails. A turn has a send, but for the fourth, and a receipt.
///
/// A receipt that fails in the first three turns is there for the next turn, so a datagram comes a turn too late, and the
/// reply is none to a request that is open.
fn totals_of(call: u64) -> &'static str {
    match call {
        2 | 4 | 6 => "total sent=19 moved=0 refused=2\nlink quiet=17 lost=1\n",
        1 | 3 | 5 => "total sent=19 moved=1 refused=1\nlink quiet=18 lost=1\n",
        40 => "total sent=19 moved=1 refused=1\nlink quiet=18 lost=0\n",
        _ if call == 7 || call % 2 == 1 =>
            "total sent=19 moved=1 refused=1\nlink quiet=17 lost=1\n",
        _ => "total sent=19 moved=1 refused=1\nlink quiet=18 lost=1\n",
    }
}

fn expect_link(rt: &impl Abort, call: u64, ran: &Ran) {
    let moves = if call == 2 || call == 4 || call == 6 {
        0
    } else {
        1
    };
    same(rt, &made_by(ran), &(Status::Done, 389, 19, moves), &call);
    let totals = totals_of(call).as_bytes();
    holds(rt, ran.written().ends_with(totals), &call);
}

// A failed send or receive is counted and ends nothing.
#[test]
fn failed_calls_of_the_link(rt: HostRuntime) -> Result<(), Fail> {
    for call in 1..=40 {
        let ran = run_failing(rt.alloc(), Device::Link, call)?;
        expect_link(&rt, call, &ran);
    }
    Ok(())
}

/// A call of a device that fails; then the exit code, and how many bytes of the capture were written.
type FirstFault = (Device, u64, u8, usize);

// Calls of settings and clock.
const FIRST_FAULTS: &[FirstFault] = &[
    (Device::Config, 1, 4, 0),
    (Device::Clock, 3, 9, 30),
    (Device::Clock, 4, 9, 43),
];

fn run_quiet(alloc: Global, device: Device, call: u64) -> Result<Ran, Fail> {
    let failing = [(device, call)];
    let script = Script {
        failing: &failing,
        ..QUIET
    };
    run(
        alloc,
        &["/member:5", "/config:c", "/keeper:k"],
        b"",
        &script,
    )
}

/// Words that spell no command read no settings.
fn expect_bad_words(rt: &impl Abort, alloc: Global) -> Result<(), Fail> {
    let words = ["/member:0", "/config:c", "/keeper:k"];
    let ran = run(alloc, &words, b"", &QUIET)?;
    same(rt, &ran.status, &Status::BadWords, &());
    let code = ran.status.code();
    same(rt, &(code, ran.config_left > 0), &(1, true), &());
    Ok(())
}

fn expect_first_fault(rt: &impl Abort, fault: FirstFault, capture: &[u8], ran: &Ran) {
    let (device, call, code, len) = fault;
    let case = (device, call);
    same(rt, &ran.status.code(), &code, &case);
    same(rt, &Some(ran.capture()), &capture.get(..len), &case);
}

#[test]
fn bad_words_and_first_faults(rt: HostRuntime) -> Result<(), Fail> {
    expect_bad_words(&rt, rt.alloc())?;
    // A Life and Ticks, which are those of the realistic run up to its first arrival.
    let capture = realistic_capture(rt.alloc())?;
    for fault in FIRST_FAULTS {
        let ran = run_quiet(rt.alloc(), fault.0, fault.1)?;
        expect_first_fault(&rt, *fault, &capture, &ran);
    }
    Ok(())
}

/// A keeper whose first slot is open, with this version and this mark.
fn kept(version: u8, mark: u32) -> [u8; 256] {
    let mut image = [0; 256];
    image[0] = 0xA5;
    image[1] = version;
    image[4..8].copy_from_slice(&mark.to_be_bytes());
    image
}

/// The version and the mark of the keeper; then the exit code, what was printed, and the length of the capture.
type Kept = (u8, u32, u8, &'static [u8], usize);

// Another version is refused before anything is taken. Past the last mark a Life is taken, and no turn. The last block
// of counts lasts for a run.
const KEEPERS: &[Kept] = &[
    (9, 64, 7, b"", 0),
    (9, 4_294_967_295, 7, b"", 0),
    (1, 4_294_967_232, 8, b"life mark=4294967232\n", 17),
    (
        1,
        4_294_967_231,
        0,
        b"life mark=4294967231\nsend n=4294967232 to=10.0.0.2:123\n\
total sent=1 moved=0 refused=0\nlink quiet=1 lost=0\n",
        30,
    ),
];

fn run_kept(alloc: Global, image: [u8; 256]) -> Result<Ran, Fail> {
    let script = Script { image, ..QUIET };
    run(
        alloc,
        &["/member:1", "/config:c", "/keeper:k"],
        b"",
        &script,
    )
}

/// The exit code, the lines, the length of the capture, and whether the keeper holds this still.
fn made_of<'a>(ran: &'a Ran, image: &[u8; 256]) -> (u8, &'a [u8], usize, bool) {
    let same_image = ran.image() == image;
    (
        ran.status.code(),
        ran.written(),
        ran.capture().len(),
        same_image,
    )
}

#[test]
fn keeper_at_its_last_mark(rt: HostRuntime) -> Result<(), Fail> {
    for (version, mark, code, lines, len) in KEEPERS {
        let image = kept(*version, *mark);
        let ran = run_kept(rt.alloc(), image)?;
        let (got, case) = (made_of(&ran, &image), (*version, *mark));
        same(&rt, &got, &(*code, *lines, *len, *code != 0), &case);
    }
    Ok(())
}

/// The run sent 18 requests, whose counts stand behind this mark.
fn expect_counts(rt: &impl Abort, ran: &Ran, life: &[u8], mark: u32) {
    holds(rt, ran.written().starts_with(life), &mark);
    let ended = (ran.status, ran.sends().len());
    same(rt, &ended, &(Status::Done, 18), &mark);
    let mut count: u32 = mark;
    for tried in ran.sends() {
        count = count.saturating_add(1);
        same(rt, &count_of(tried), &Some(count), &mark);
    }
}

/// A run over a keeper that holds this, in which nothing comes: its first line, and the mark before its counts. It gives
/// what the keeper holds after it.
fn expect_quiet(
    rt: &impl Abort,
    alloc: Global,
    image: [u8; 256],
    life: &[u8],
    mark: u32,
) -> Result<[u8; 256], Fail> {
    let script = Script { image, ..QUIET };
    let ran = run(alloc, WORDS, b"", &script)?;
    expect_counts(rt, &ran, life, mark);
    Ok(*ran.image())
}

// The second run on a disk begins behind all counts that the first may have sent. Two of the twenty readings come within an
// interval of a request, so two turns send nothing.
#[test]
fn two_runs_on_one_disk(rt: HostRuntime) -> Result<(), Fail> {
    let image = expect_quiet(&rt, rt.alloc(), [0; 256], b"life mark=0\n", 0)?;
    let _ = expect_quiet(&rt, rt.alloc(), image, b"life mark=64\n", 64)?;
    Ok(())
}
