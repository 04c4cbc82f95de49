//! The clocks of a directory's computers.
ghost use Rattle.std.specs.Prelude.{◌≤◌, length, All, IfOk};
ghost use Rattle.base_specs.specs.Time.{IsReading};
ghost use Rattle.edge_io.specs.LinkScript.{IsNoFailure};

use crate::asserts::{holds, same};
use edge_io::{
    Addr, Datagram, Link, Receipt, ScriptClock, ScriptEntropy, ScriptLink, ScriptSink, Tried,
};
use monitor_run::{MonitorWhy, monitor};
use partner_pick::parse_directory;
use std::alloc::{AllocError, Global};
use std::process::Abort;
use std::test::Fail;

// The first moment of 2020, in ticks: the first reading of every run.
const R0: i64 = 132_223_104_000_000_000;

const TWO: &[u8] = b"computer DC1 10.0.0.1:123 S--E\ncomputer DC2 10.0.0.2:1123 -R--\n";

const DC1: Addr = Addr {
    ip: 0x0A00_0001,
    port: 123,
};

const DC2: Addr = Addr {
    ip: 0x0A00_0002,
    port: 1_123,
};

// The request whose words are 1 and 7: 48 bytes.
const REQUEST: [u8; 48] =
    *b"\xDB\x00\x00\xE9\0\0\0\0\0\0\0\0\0\0\0\0\0\0\0\0\0\0\0\0\0\0\0\0\0\0\0\0\0\0\0\0\0\0\0\0\0\0\0\x01\0\0\0\x07";

// The answer to it: received three seconds after R0 by the clock of DC1, and sent a millisecond later.
const REPLY: [u8; 48] =
    *b"\x1C\x01\x00\xE9\0\0\0\0\0\0\0\0LOCL\xE1\xB6\x5F\x83\0\0\0\0\0\0\0\x01\0\0\0\x07\xE1\xB6\x5F\x83\0\0\0\0\xE1\xB6\x5F\x83\x00\x41\x89\x38";

const LINES: &[u8; 92] =
    b"DC1 offset=29000000 delay=2000000 stratum=1\nDC2 error=NoAnswer\ntotal computers=2 answered=1\n";

const FIRST_LINE: &[u8] = b"DC1 offset=29000000 delay=2000000 stratum=1\n";

const BOTH_LINES: &[u8] = b"DC1 offset=29000000 delay=2000000 stratum=1\nDC2 error=NoAnswer\n";

/// The numbers of the calls that fail, of each device; 0 is no call.
#[derive(Clone, Copy)]
struct Fails {
    clock: u64,
    entropy: u64,
    link: u64,
    out: u64,
}

const NONE: Fails = Fails {
    clock: 0,
    entropy: 0,
    link: 0,
    out: 0,
};

/// What a run came to.
#[derive(Drop)]
struct Ran {
    why: MonitorWhy,
    link: ScriptLink,
    out: ScriptSink,
}

/// R0, 201 milliseconds later, and R0 again.
fn readings(alloc: Global) -> Result<Vec<i64>, AllocError>
    ensures { IfOk result (λ readings. All IsReading readings.items) }
{
    let mut readings = Vec::new(alloc);
    readings.push(R0)?;
    readings.push(R0 + 2_010_000)?;
    readings.push(R0)?;
    Ok(readings)
}

/// One datagram, or none where it is empty.
fn receipts(alloc: Global, from: Addr, bytes: &[u8]) -> Result<Vec<Receipt>, AllocError>
    ensures { IfOk result (λ receipts. All IsNoFailure receipts.items) }
{
    let mut receipts = Vec::new(alloc);
    if !bytes.is_empty() {
        receipts.push(Receipt::Got(from, Datagram::from_slice(bytes)))?;
    }
    Ok(receipts)
}

/// A link that gives this datagram first and nothing after it.
fn link_of(alloc: Global, from: Addr, bytes: &[u8], fails: u64) -> Result<ScriptLink, Fail> {
    let receipts = receipts(alloc, from, bytes)?;
    let fails = [fails].to_vec(alloc)?;
    Ok(ScriptLink::new(alloc, receipts, fails, 8)?)
}

fn clock_of(alloc: Global, fails: u64) -> Result<ScriptClock, Fail> {
    let readings = readings(alloc)?;
    let fails = [fails].to_vec(alloc)?;
    Ok(ScriptClock::new(alloc, readings, fails, 8)?)
}

fn entropy_of(alloc: Global, fails: u64) -> Result<ScriptEntropy, Fail> {
    let words = [1, 7, 2, 8].to_vec(alloc)?;
    let fails = [fails].to_vec(alloc)?;
    Ok(ScriptEntropy::new(alloc, words, fails, 8)?)
}

fn sink_of(alloc: Global, fails: u64) -> Result<ScriptSink, Fail> {
    let fails = [fails].to_vec(alloc)?;
    Ok(ScriptSink::new(alloc, fails, 256)?)
}

/// Asks the computers of a directory, where this datagram comes first and nothing behind it.
fn run(alloc: Global, text: &[u8], from: Addr, bytes: &[u8], fails: Fails) -> Result<Ran, Fail>
    requires { length text.now ≤ 100 }
{
    let directory = parse_directory(alloc, text).ok().ok_or("a directory")?;
    let mut link = link_of(alloc, from, bytes, fails.link)?;
    let mut clock = clock_of(alloc, fails.clock)?;
    let mut entropy = entropy_of(alloc, fails.entropy)?;
    let mut out = sink_of(alloc, fails.out)?;
    let why = monitor(&directory, &mut link, &mut clock, &mut entropy, &mut out);
    Ok(Ran { why, link, out })
}

/// The send went to this address, with this request.
fn expect_send(rt: &impl Abort, tried: &Tried, to: Addr, bytes: &[u8]) {
    same(rt, &tried.to, &to, &());
    same(rt, &tried.bytes.as_slice(), &bytes, &to);
}

/// The run ended so, with these lines and so many requests.
fn expect_end(rt: &impl Abort, ran: &Ran, why: MonitorWhy, lines: &[u8], sent: usize) {
    let ended = (ran.why, ran.link.sends().len());
    same(rt, &ended, &(why, sent), &());
    same(rt, &ran.out.bytes(), &lines, &());
}

/// Both computers were asked, each with its own words.
fn expect_both_asked(rt: &impl Abort, ran: &Ran) {
    let mut second = REQUEST;
    second[43] = 2;
    second[47] = 8;
    for (tried, (to, bytes)) in ran.link.sends().iter().zip([(DC1, REQUEST), (DC2, second)]) {
        expect_send(rt, tried, to, &bytes);
    }
}

// DC1 answers with known times, and DC2 doesn't.
#[test]
fn monitor_of_two(rt: HostRuntime) -> Result<(), Fail> {
    let ran = run(rt.alloc(), TWO, DC1, &REPLY, NONE)?;
    expect_end(&rt, &ran, MonitorWhy::Done, LINES, 2);
    expect_both_asked(&rt, &ran);
    Ok(())
}

#[test]
fn monitor_of_none(rt: HostRuntime) -> Result<(), Fail> {
    let ran = run(rt.alloc(), b"", DC1, &REPLY, NONE)?;
    expect_end(
        &rt,
        &ran,
        MonitorWhy::Done,
        b"total computers=0 answered=0\n",
        0,
    );
    Ok(())
}

/// The answer with the faults from one to before another: its length, its sender, its mode, its stratum, the timestamp
/// of the request, its times.
fn spoilt(first: usize, end: usize) -> (Addr, [u8; 49], usize)
    ensures { result.2 ≤ 49 }
{
    let mut bytes = [0; 49];
    bytes[..48].copy_from_slice(&REPLY);
    let has = |fault: usize| first <= fault && fault < end;
    let len = if has(0) { 49 } else { 48 };
    let from = if has(1) { DC2 } else { DC1 };
    if has(2) {
        bytes[0] = 0x1B;
    }
    if has(3) {
        bytes[1] = 16;
    }
    if has(4) {
        bytes[31] = 8;
    }
    if has(5) {
        bytes[43] = 0x82;
    }
    (from, bytes, len)
}

/// The line of DC1 is this one.
fn expect_line(rt: &impl Abort, ran: &Ran, line: &str) {
    same(rt, &ran.why, &MonitorWhy::Done, &line);
    holds(rt, ran.out.bytes().starts_with(line.as_bytes()), &line);
}

const WORDS: [&str; 6] = [
    "DC1 error=BadLength\n",
    "DC1 error=BadSource\n",
    "DC1 error=BadMode\n",
    "DC1 error=BadStratum\n",
    "DC1 error=NoRequest\n",
    "DC1 error=BadTimes\n",
];

/// The answer with the faults from one to before another has this word.
fn expect_word(
    rt: &impl Abort,
    alloc: Global,
    first: usize,
    end: usize,
    word: &str,
) -> Result<(), Fail> {
    let (from, bytes, len) = spoilt(first, end);
    let ran = run(alloc, TWO, from, &bytes[..len], NONE)?;
    expect_line(rt, &ran, word);
    Ok(())
}

// Each fault by itself, and with all those behind it.
#[test]
fn first_word_that_applies(rt: HostRuntime) -> Result<(), Fail> {
    for (first, word) in WORDS.iter().enumerate() {
        expect_word(&rt, rt.alloc(), first, first + 1, word)?;
        expect_word(&rt, rt.alloc(), first, 6, word)?;
    }
    Ok(())
}

const OTHER_PORT: Addr = Addr {
    ip: DC1.ip,
    port: 124,
};

/// Who answers, a byte of the answer and what stands there, and the line.
type Edge = (Addr, usize, u8, &'static str);

const EDGES: &[Edge] = &[
    (DC1, 0, 0xDC, "DC1 error=BadStratum\n"),
    (DC1, 1, 0, "DC1 error=BadStratum\n"),
    (DC1, 1, 15, "DC1 offset=29000000 delay=2000000 stratum=15\n"),
    (DC1, 2, 6, "DC1 offset=29000000 delay=2000000 stratum=1\n"),
    (DC1, 43, 0x84, "DC1 error=BadTimes\n"),
    (OTHER_PORT, 1, 1, "DC1 error=BadSource\n"),
];

/// The answer with another byte at a place.
fn with_byte(place: usize, byte: u8) -> [u8; 48] {
    let mut bytes = REPLY;
    if let Some(changed) = bytes.get_mut(place) {
        *changed = byte;
    }
    bytes
}

// A leap indicator of 3 and a stratum of 0 are those of a clock that isn't synchronized, and 15 is the last stratum. The
// poll exponent isn't looked at. An answer that stayed at the computer for 1,001 milliseconds can't be back after 201.
// Another port is another source.
#[test]
fn edges_of_words(rt: HostRuntime) -> Result<(), Fail> {
    for (from, place, byte, line) in EDGES {
        let ran = run(rt.alloc(), TWO, *from, &with_byte(*place, *byte), NONE)?;
        expect_line(&rt, &ran, line);
    }
    Ok(())
}

// The calls of the link: a send and a receive for each entry. A failed send is no end and no word; a failed receive is
// no answer, and the datagram is taken for the next entry.
const LINK_CALLS: &[(u64, &[u8])] = &[
    (1, LINES),
    (
        2,
        b"DC1 error=NoAnswer\nDC2 error=BadSource\ntotal computers=2 answered=0\n",
    ),
    (4, LINES),
];

#[test]
fn failed_calls_of_the_link(rt: HostRuntime) -> Result<(), Fail> {
    for (link, lines) in LINK_CALLS {
        let fails = Fails {
            link: *link,
            ..NONE
        };
        let ran = run(rt.alloc(), TWO, DC1, &REPLY, fails)?;
        expect_end(&rt, &ran, MonitorWhy::Done, lines, 2);
    }
    Ok(())
}

// Each call of clock, entropy and sink fails in turn: what was written, and how many requests were sent.
const FAULTS: &[(Fails, MonitorWhy, &[u8], usize)] = &[
    (Fails { clock: 1, ..NONE }, MonitorWhy::ClockFault, b"", 0),
    (Fails { clock: 2, ..NONE }, MonitorWhy::ClockFault, b"", 1),
    (
        Fails { clock: 3, ..NONE },
        MonitorWhy::ClockFault,
        FIRST_LINE,
        1,
    ),
    (
        Fails { entropy: 1, ..NONE },
        MonitorWhy::EntropyFault,
        b"",
        0,
    ),
    (
        Fails { entropy: 2, ..NONE },
        MonitorWhy::EntropyFault,
        b"",
        0,
    ),
    (
        Fails { entropy: 3, ..NONE },
        MonitorWhy::EntropyFault,
        FIRST_LINE,
        1,
    ),
    (
        Fails { entropy: 4, ..NONE },
        MonitorWhy::EntropyFault,
        FIRST_LINE,
        1,
    ),
    (Fails { out: 1, ..NONE }, MonitorWhy::WriteFault, b"", 1),
    (
        Fails { out: 2, ..NONE },
        MonitorWhy::WriteFault,
        FIRST_LINE,
        2,
    ),
    (
        Fails { out: 3, ..NONE },
        MonitorWhy::WriteFault,
        BOTH_LINES,
        2,
    ),
];

#[test]
fn faults_of_a_monitor(rt: HostRuntime) -> Result<(), Fail> {
    for (fails, why, lines, sent) in FAULTS {
        let ran = run(rt.alloc(), TWO, DC1, &REPLY, *fails)?;
        expect_end(&rt, &ran, *why, lines, *sent);
    }
    Ok(())
}
