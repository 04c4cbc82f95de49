//! Requests that are asked for, each with its round: what is answered, and what was received meanwhile.
ghost use Rattle.std.specs.Prelude.{◌≡◌, All, IfOk, OnOk};
ghost use Rattle.base_specs.specs.Time.{IsReading};
ghost use Rattle.edge_io.specs.LinkScript.{IsNoFailure};
ghost use Rattle.slot_disk.specs.Memory.{memory_tells};
ghost use Rattle.member_run.specs.Running.{IsGoing};

use crate::asserts::same;
use crate::calls::{answer_of, resync, start};
use crate::hostile::{REPLY, add_times as add_lines};
use crate::lives::{FIRST, Object, Objects, R0, failure_of, objects_of, readings_among};
use edge_io::{Datagram, Move, Receipt, ScriptLink};
use member_run::{LifeEnd, Running, Why};
use std::alloc::{AllocError, Global};
use std::process::Abort;
use std::test::Fail;

// Replies to requests that were sent at `R0`. With the header, all but the last 20 bytes, in the file `header` and the key
// 00 01 .. 0F the checksum is (echo KEY | xxd -r -p; cat header) | openssl md5

// To the first request, whose word is 1, by a clock that is three days ahead.
const THREE_DAYS: &[u8] = b"\x1C\x01\x0A\xE9\0\0\0\0\0\0\0\0LOCL\xE1\xBA\x54\x00\0\0\0\0\
\0\0\0\x01\0\0\0\x01\xE1\xBA\x54\x00\0\0\0\0\xE1\xBA\x54\x00\0\x41\x89\x38\x4F\x04\0\0\
\x5D\x27\x5C\x53\xC5\xEE\x97\x8E\x5C\x31\xDB\x6A\xD0\xEE\x29\x28";

// To the tenth one, whose word is 10, at the times of `REPLY`.
const TO_TENTH: &[u8] = b"\x1C\x01\x0A\xE9\0\0\0\0\0\0\0\0LOCL\xE1\xB6\x5F\x83\0\0\0\0\
\0\0\0\x0A\0\0\0\x0A\xE1\xB6\x5F\x83\0\0\0\0\xE1\xB6\x5F\x83\0\x41\x89\x38\x4F\x04\0\0\
\x04\x29\xD0\x47\xFE\xE2\x67\xCD\x76\x6E\xE6\x03\xB3\xF3\xBD\x5F";

/// What a receive gives, but for one that fails.
#[derive(Clone, Copy)]
enum Given {
    Nothing,
    /// A datagram from the first partner.
    Datagram(&'static [u8]),
}

const BIG: Given = Given::Datagram(THREE_DAYS);

const GOOD: Given = Given::Datagram(&REPLY);

const TENTH: Given = Given::Datagram(TO_TENTH);

const SHORT: Given = Given::Datagram(b"ten bytes.");

const SEND: &str = "send n=1 to=10.0.0.2:123\n";

const TOO_BIG: &str = "refused reason=TooBig\n";

const BAD_LENGTH: &str = "refused reason=BadLength\n";

const MOVED: &str = "moved n=1 offset=29000000 by=slew\n";

/// A call of a run, and what comes of it.
struct Row {
    case: &'static str,
    /// How many requests were asked for before, without a round.
    before: u32,
    wait: u32,
    flags: u32,
    /// What the link gives, each so many times. After it nothing comes.
    given: &'static [(u32, Given)],
    /// The first call of the link that fails, and the first one after it that doesn't.
    failing: (u64, u64),
    /// Which call of which other object fails.
    fault: (Object, u64),
    answer: Result<u32, Why>,
    /// How many receipts were taken.
    taken: usize,
    /// Requests, corrections, refused datagrams, quiet receipts, and failed sends and receives.
    counts: [u32; 5],
    /// The lines after that of the Life, each with how often it comes.
    lines: &'static [(u32, &'static str)],
}

/// A round in which nothing comes.
const QUIET: Row = Row {
    case: "nothing comes",
    before: 0,
    wait: 1,
    flags: 2,
    given: &[],
    failing: (0, 0),
    fault: (Object::Link, 0),
    answer: Ok(1),
    taken: 1,
    counts: [1, 0, 0, 1, 0],
    lines: &[(1, SEND)],
};

const ROWS: &[Row] = &[
    QUIET,
    Row {
        case: "a request alone",
        wait: 0,
        given: &[(1, GOOD)],
        answer: Ok(0),
        taken: 0,
        counts: [1, 0, 0, 0, 0],
        ..QUIET
    },
    Row {
        case: "a quiet receipt ends the round",
        given: &[(1, Given::Nothing), (1, GOOD)],
        ..QUIET
    },
    Row {
        case: "accepted, which ends the round",
        given: &[(2, GOOD)],
        answer: Ok(0),
        counts: [1, 1, 0, 0, 0],
        lines: &[(1, SEND), (1, MOVED)],
        ..QUIET
    },
    Row {
        case: "too big",
        wait: 4_294_967_295,
        given: &[(1, BIG)],
        answer: Ok(3),
        taken: 2,
        counts: [1, 0, 1, 1, 0],
        lines: &[(1, SEND), (1, TOO_BIG)],
        ..QUIET
    },
    Row {
        case: "too big, and then accepted",
        given: &[(1, BIG), (1, GOOD)],
        answer: Ok(0),
        taken: 2,
        counts: [1, 1, 1, 0, 0],
        lines: &[(1, SEND), (1, TOO_BIG), (1, MOVED)],
        ..QUIET
    },
    Row {
        case: "too big, and then a bad datagram",
        given: &[(1, BIG), (1, SHORT)],
        answer: Ok(3),
        taken: 3,
        counts: [1, 0, 2, 1, 0],
        lines: &[(1, SEND), (1, TOO_BIG), (1, BAD_LENGTH)],
        ..QUIET
    },
    Row {
        case: "16 failed receipts",
        given: &[(1, GOOD)],
        failing: (2, 18),
        taken: 16,
        counts: [1, 0, 0, 0, 16],
        ..QUIET
    },
    Row {
        case: "15 failed receipts, and accepted",
        given: &[(1, GOOD)],
        failing: (2, 17),
        answer: Ok(0),
        taken: 16,
        counts: [1, 1, 0, 0, 15],
        lines: &[(1, SEND), (1, MOVED)],
        ..QUIET
    },
    Row {
        case: "too big, and 15 failed receipts",
        given: &[(1, BIG), (1, GOOD)],
        failing: (3, 18),
        answer: Ok(3),
        taken: 16,
        counts: [1, 0, 1, 0, 15],
        lines: &[(1, SEND), (1, TOO_BIG)],
        ..QUIET
    },
    Row {
        case: "16 refused datagrams",
        given: &[(16, SHORT), (1, GOOD)],
        taken: 16,
        counts: [1, 0, 16, 0, 0],
        lines: &[(1, SEND), (16, BAD_LENGTH)],
        ..QUIET
    },
    Row {
        case: "a failed send, and accepted",
        given: &[(1, GOOD)],
        failing: (1, 2),
        answer: Ok(0),
        counts: [1, 1, 0, 0, 1],
        lines: &[(1, SEND), (1, MOVED)],
        ..QUIET
    },
    Row {
        case: "without flag 2, nothing",
        flags: 0,
        answer: Ok(0),
        ..QUIET
    },
    Row {
        case: "without flag 2, too big",
        flags: 0,
        given: &[(1, BIG)],
        answer: Ok(0),
        taken: 2,
        counts: [1, 0, 1, 1, 0],
        lines: &[(1, SEND), (1, TOO_BIG)],
        ..QUIET
    },
];

/// The lines of nine requests: after eight without an answer the next partner is asked.
const NINE: &str = "send n=1 to=10.0.0.2:123\nsend n=2 to=10.0.0.2:123\n\
send n=3 to=10.0.0.2:123\nsend n=4 to=10.0.0.2:123\n\
send n=5 to=10.0.0.2:123\nsend n=6 to=10.0.0.2:123\n\
send n=7 to=10.0.0.2:123\nsend n=8 to=10.0.0.2:123\n\
send n=9 to=10.0.0.1:123\n";

const SECOND: &str = "send n=2 to=10.0.0.2:123\n";

// A flag 4 asks the first partner again, and closes the requests before.
const REDISCOVERIES: &[Row] = &[
    Row {
        case: "the first partner is asked again",
        before: 9,
        flags: 6,
        given: &[(1, TENTH)],
        answer: Ok(0),
        counts: [10, 1, 0, 0, 0],
        lines: &[
            (1, NINE),
            (1, "send n=10 to=10.0.0.2:123\n"),
            (1, "moved n=10 offset=29000000 by=slew\n"),
        ],
        ..QUIET
    },
    Row {
        case: "the second partner is still asked",
        before: 9,
        given: &[(1, TENTH)],
        taken: 2,
        counts: [10, 0, 1, 1, 0],
        lines: &[
            (1, NINE),
            (1, "send n=10 to=10.0.0.1:123\n"),
            (1, "refused reason=BadSource\n"),
        ],
        ..QUIET
    },
    Row {
        case: "the request before is closed",
        before: 1,
        flags: 6,
        given: &[(1, GOOD)],
        taken: 2,
        counts: [2, 0, 1, 1, 0],
        lines: &[(1, SEND), (1, SECOND), (1, "refused reason=NoRequest\n")],
        ..QUIET
    },
    Row {
        case: "the request before is still open",
        before: 1,
        given: &[(1, GOOD)],
        answer: Ok(0),
        counts: [2, 1, 0, 0, 0],
        lines: &[(1, SEND), (1, SECOND), (1, MOVED)],
        ..QUIET
    },
];

// The clock is read for the Life, the request and each arrival. So is the capture written, and the report, where nothing is
// idle.
const FAULTS: &[Row] = &[
    Row {
        case: "no reading of the second arrival",
        given: &[(1, BIG), (1, GOOD)],
        fault: (Object::Clock, 4),
        answer: Err(Why::ClockFault),
        taken: 2,
        counts: [1, 0, 1, 0, 0],
        lines: &[(1, SEND), (1, TOO_BIG)],
        ..QUIET
    },
    Row {
        case: "no reading of the arrival, without flag 2",
        flags: 0,
        given: &[(1, GOOD)],
        fault: (Object::Clock, 3),
        answer: Err(Why::ClockFault),
        counts: [1, 0, 0, 0, 0],
        ..QUIET
    },
    Row {
        case: "no record of the arrival",
        given: &[(1, GOOD)],
        fault: (Object::Capture, 3),
        answer: Err(Why::SinkFault),
        counts: [1, 0, 0, 0, 0],
        ..QUIET
    },
    Row {
        case: "no line of the refused arrival",
        given: &[(1, SHORT), (1, GOOD)],
        fault: (Object::Out, 3),
        answer: Err(Why::SinkFault),
        counts: [1, 0, 1, 0, 0],
        ..QUIET
    },
    Row {
        case: "no line of the accepted arrival",
        given: &[(1, GOOD)],
        fault: (Object::Out, 3),
        answer: Err(Why::SinkFault),
        counts: [1, 1, 0, 0, 0],
        ..QUIET
    },
];

fn receipt_of(given: Given) -> Receipt
    ensures { IsNoFailure result }
{
    match given {
        Given::Nothing => Receipt::Quiet,
        Given::Datagram(bytes) => Receipt::Got(FIRST, Datagram::from_slice(bytes)),
    }
}

fn add_times(receipts: &mut Vec<Receipt>, times: u32, given: Given) -> Result<(), AllocError>
    requires { All IsNoFailure receipts.old.items }
    ensures { OnOk result (All IsNoFailure receipts.new.items) }
{
    for _ in 0..times {
        receipts.push(receipt_of(given))?;
    }
    Ok(())
}

fn receipts_of(alloc: Global, given: &[(u32, Given)]) -> Result<Vec<Receipt>, AllocError>
    ensures { IfOk result (λ receipts. All IsNoFailure receipts.items) }
{
    let mut receipts = Vec::new(alloc);
    for row in given {
        let (times, one) = *row;
        add_times(&mut receipts, times, one)?;
    }
    Ok(receipts)
}

/// One reading for the Life and one a request, at `R0`; then, 0.201 seconds later, all the others.
fn readings_of(alloc: Global, before: u32) -> Result<Vec<i64>, AllocError>
    ensures { IfOk result (λ readings. All IsReading readings.items) }
{
    let mut times = Vec::new(alloc);
    for _ in 0..before {
        times.push(R0)?;
    }
    times.extend_from_slice(&[R0, R0])?;
    times.extend_from_slice(&[R0 + 2_010_000; 17])?;
    readings_among(alloc, &times)
}

fn link_of(alloc: Global, row: &Row) -> Result<ScriptLink, Fail> {
    let (first, next) = row.failing;
    let receipts = receipts_of(alloc, row.given)?;
    let fails = (first..next).collect(alloc)?;
    let link = ScriptLink::new(alloc, receipts, fails, 32)?;
    Ok(link)
}

fn devices_of(alloc: Global, row: &Row) -> Result<Objects, Fail> {
    let (object, call) = row.fault;
    let readings = readings_of(alloc, row.before)?;
    let mut objects = objects_of(alloc, Vec::new(alloc), readings, failure_of(object, call))?;
    objects.link = link_of(alloc, row)?;
    Ok(objects)
}

/// So many requests without a round.
fn ask(times: u32, run: &mut Running, objects: &mut Objects) -> Result<(), Fail>
    requires { IsGoing (memory_tells objects.old.disk) run.old }
    ensures { OnOk result (IsGoing (memory_tells objects.new.disk) run.new) }
{
    for _ in 0..times {
        resync(run, 0, objects)?;
    }
    Ok(())
}

/// What a run came to between two calls.
fn totals_of(counts: [u32; 5]) -> LifeEnd {
    let [sent, moved, refused, quiet, lost] = counts;
    LifeEnd {
        sent,
        moved,
        refused,
        quiet,
        lost,
        turns: 0,
        why: Why::Done,
    }
}

fn moves_of(counts: [u32; 5]) -> &'static [Move] {
    if counts[1] == 0 {
        &[]
    } else {
        &[Move::Slew(29_000_000)]
    }
}

fn report_of(alloc: Global, lines: &[(u32, &'static str)]) -> Result<Vec<u8>, AllocError> {
    let mut text = Vec::new(alloc);
    text.extend_from_slice(b"life mark=0\n")?;
    for (times, line) in lines {
        add_lines(&mut text, *times, line)?;
    }
    Ok(text)
}

/// What the call of a row answered, what the run came to, and the objects behind it.
#[derive(Drop)]
struct Called {
    answer: Result<u32, Why>,
    totals: LifeEnd,
    objects: Objects,
}

fn call(alloc: Global, row: &Row) -> Result<Called, Fail> {
    let mut objects = devices_of(alloc, row)?;
    let mut run = start(alloc, &mut objects)?;
    ask(row.before, &mut run, &mut objects)?;
    let answer = answer_of(&mut run, row.wait, row.flags, &mut objects);
    Ok(Called {
        answer,
        totals: run.totals(),
        objects,
    })
}

fn expect_answer(rt: &impl Abort, row: &Row, called: &Called) {
    same(rt, &called.answer, &row.answer, &row.case);
    same(rt, &called.totals, &totals_of(row.counts), &row.case);
}

fn expect_devices(rt: &impl Abort, row: &Row, report: &[u8], objects: &Objects) {
    let sends = objects.link.sends().len();
    let taken = objects.link.calls().len().saturating_sub(sends);
    same(rt, &taken, &row.taken, &row.case);
    same(rt, &objects.clock.moves(), &moves_of(row.counts), &row.case);
    same(rt, &objects.out.bytes(), &report, &row.case);
}

fn expect_row(rt: &impl Abort, alloc: Global, row: &Row) -> Result<(), Fail> {
    let report = report_of(alloc, row.lines)?;
    let called = call(alloc, row)?;
    expect_answer(rt, row, &called);
    expect_devices(rt, row, &report, &called.objects);
    Ok(())
}

fn expect_rows(rt: &impl Abort, alloc: Global, rows: &[Row]) -> Result<(), Fail> {
    for row in rows {
        expect_row(rt, alloc, row)?;
    }
    Ok(())
}

#[test]
fn results_of_rounds(rt: HostRuntime) -> Result<(), Fail> {
    expect_rows(&rt, rt.alloc(), ROWS)
}

#[test]
fn rediscoveries_ask_the_first_partner(rt: HostRuntime) -> Result<(), Fail> {
    expect_rows(&rt, rt.alloc(), REDISCOVERIES)
}

#[test]
fn faults_in_a_round(rt: HostRuntime) -> Result<(), Fail> {
    expect_rows(&rt, rt.alloc(), FAULTS)
}
