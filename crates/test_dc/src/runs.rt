//! Runs of `/dc`.
use edge_io::{Addr, Drawn, Link, Put, Reading, Tried};
use std::alloc::Global;
use std::process::Abort;
use std::test::Fail;
use test_scripts::{Came, Device, LATER, NEW_YEAR, REQUEST, Ran, STEADY, Script, run};
use w32tm_cmd::Status;

const WORDS: &[&str] = &["/dc:3", "/config:c"];

const SETTINGS: &[u8] = b"Name=DC1\nRole=Controller\nRid=1103\n\
    account 1103 000102030405060708090a0b0c0d0e0f\n";

// 10.0.0.50:40000
const CLIENT: Addr = Addr {
    ip: 0x0A00_0032,
    port: 40_000,
};

// The request's header, a plain request.
const PLAIN: [u8; 48] =
    *b"\xDB\x00\x0A\xE9\0\0\0\0\0\0\0\0\0\0\0\0\0\0\0\0\0\0\0\0\0\0\0\0\0\0\0\0\0\0\0\0\0\0\0\0\0\0\0\x01\
       \0\0\0\x07";

// The request under a RID that no account has.
const UNKNOWN: [u8; 68] =
    *b"\xDB\x00\x0A\xE9\0\0\0\0\0\0\0\0\0\0\0\0\0\0\0\0\0\0\0\0\0\0\0\0\0\0\0\0\0\0\0\0\0\0\0\0\0\0\0\x01\
       \0\0\0\x07\x50\x04\0\0\0\0\0\0\0\0\0\0\0\0\0\0\0\0\0\0";

// The reply to the request. Its checksum is the MD5 of the key and the 48 bytes of the header, as OpenSSL computes it
// from their digits: `echo KEY HEADER | xxd -r -p | openssl md5`.
const REPLY: [u8; 68] =
    *b"\x1C\x01\x0A\xE9\0\0\0\0\0\0\0\0LOCL\xE1\xB6\x5F\x80\0\0\0\0\0\0\0\x01\0\0\0\x07\
       \xE1\xB6\x5F\x80\0\0\0\0\xE1\xB6\x5F\x80\x00\x41\x89\x38\x4F\x04\0\0\
       \xA6\xA6\x51\x56\x7A\x39\x3D\x0D\x68\x05\xC3\x2B\xFE\x3F\x3B\xF4";

const READINGS: [i64; 4] = [NEW_YEAR, LATER, NEW_YEAR, LATER];

// A request, the same under an unknown RID, nothing, and one that three turns leave.
const CONTROLLER: Script<'static> = Script {
    settings: SETTINGS,
    came: &[
        Came::From(CLIENT, &REQUEST),
        Came::From(CLIENT, &UNKNOWN),
        Came::Nothing,
        Came::From(CLIENT, b"left"),
    ],
    readings: &READINGS,
    random: &[7],
    ..STEADY
};

/// The send went to this address, with these bytes and this answer.
fn expect_send(rt: &impl Abort, tried: &Tried, to: Addr, bytes: &[u8], put: Put) {
    assert_eq!(rt;
        (tried.to, tried.bytes.as_slice(), tried.put),
        (to, bytes, put)
    );
}

// The three lines, the one reply, and what is left.
fn expect_run(rt: &impl Abort, ran: &Ran) {
    assert_eq!(rt;
        ran.written(),
        b"signed=1 plain=0\n\
refused BadLength=0 BadVersion=0 BadMode=0 UnknownAccount=1 NoOldKey=0\n\
link quiet=1 lost=0 unsent=0\n"
            .as_slice()
    );
    match ran.sends() {
        [tried] => expect_send(rt, tried, CLIENT, &REPLY, Put::Done),
        _ => assert!(rt; false),
    }
    assert_eq!(rt;
        (ran.config_left, ran.left, ran.next, ran.drawn, ran.waits),
        (0, 5, Reading::Failed, Drawn::Word(7), Some(4))
    );
}

#[test]
fn controller_run(rt: HostRuntime) -> Result<(), Fail> {
    let ran = run(rt.alloc(), WORDS, b"input", &CONTROLLER)?;
    assert_eq!(rt; ran.status, Status::Done);
    expect_run(&rt, &ran);
    Ok(())
}

// A signed reply, a plain one, and a turn without a datagram: the link's calls are a receive, a send, a receive, a send
// and a receive.
const BOTH: Script<'static> = Script {
    came: &[Came::From(CLIENT, &REQUEST), Came::From(CLIENT, &PLAIN)],
    ..CONTROLLER
};

const LINES: &[u8] = b"signed=1 plain=1\n\
refused BadLength=0 BadVersion=0 BadMode=0 UnknownAccount=0 NoOldKey=0\n\
link quiet=1 lost=0 unsent=0\n";

/// The device and the number of its call that fails; then the status, how many sends were tried, how many bytes of the
/// lines were written, and the length of the datagram that the link gives next.
type Row = (Device, u64, Status, usize, usize, Option<usize>);

// The settings come as 30 bytes, 50 bytes and the end. A fifth reading and a fourth write aren't asked for, and neither
// are the input and the entropy.
const FAULTS: &[Row] = &[
    (Device::Config, 1, Status::ReadFault, 0, 0, Some(68)),
    (Device::Config, 2, Status::ReadFault, 0, 0, Some(68)),
    (Device::Config, 3, Status::ReadFault, 0, 0, Some(68)),
    (Device::Clock, 1, Status::ClockFault, 0, 0, Some(48)),
    (Device::Clock, 2, Status::ClockFault, 0, 0, Some(48)),
    (Device::Clock, 3, Status::ClockFault, 1, 0, None),
    (Device::Clock, 4, Status::ClockFault, 1, 0, None),
    (Device::Clock, 5, Status::Done, 2, 117, None),
    (Device::Out, 1, Status::WriteFault, 2, 0, None),
    (Device::Out, 2, Status::WriteFault, 2, 17, None),
    (Device::Out, 3, Status::WriteFault, 2, 88, None),
    (Device::Out, 4, Status::Done, 2, 117, None),
    (Device::Input, 1, Status::Done, 2, 117, None),
    (Device::Entropy, 1, Status::Done, 2, 117, None),
];

/// The run of both, where this call fails.
fn run_failing(alloc: Global, device: Device, call: u64) -> Result<Ran, Fail> {
    let failing = [(device, call)];
    let script = Script {
        failing: &failing,
        ..BOTH
    };
    run(alloc, WORDS, b"input", &script)
}

fn expect_row(rt: &impl Abort, row: &Row, ran: &Ran) {
    let (device, call, status, sends, len, waits) = *row;
    assert_eq!(rt;
        (
            ran.status,
            ran.sends().len(),
            Some(ran.written()),
            ran.waits
        ),
        (status, sends, LINES.get(..len), waits),
        "{device:?} {call}"
    );
}

#[test]
fn faults_of_a_controller(rt: HostRuntime) -> Result<(), Fail> {
    for row in FAULTS {
        let (device, call, ..) = *row;
        let ran = run_failing(rt.alloc(), device, call)?;
        expect_row(&rt, row, &ran);
    }
    Ok(())
}

/// The last line where this call of the link fails.
const LINK_LINES: &[(u64, &str)] = &[
    (1, "link quiet=0 lost=1 unsent=0\n"),
    (2, "link quiet=1 lost=0 unsent=1\n"),
    (3, "link quiet=0 lost=1 unsent=0\n"),
    (4, "link quiet=1 lost=0 unsent=1\n"),
    (5, "link quiet=0 lost=1 unsent=0\n"),
    (6, "link quiet=1 lost=0 unsent=0\n"),
];

// Both sends are tried, and the first two lines are those of a run without a failure.
fn expect_link_line(rt: &impl Abort, call: u64, line: &str, ran: &Ran) {
    let (first, last) = ran.written().split_at(88.min(ran.written().len()));
    assert_eq!(rt;
        (ran.status, ran.sends().len(), first, last),
        (Status::Done, 2, &LINES[..88], line.as_bytes()),
        "{call}"
    );
}

// A failed send or receive is counted and ends nothing. What a failed receive didn't give comes in the next turn.
#[test]
fn failed_calls_of_the_link(rt: HostRuntime) -> Result<(), Fail> {
    for (call, line) in LINK_LINES {
        let ran = run_failing(rt.alloc(), Device::Link, *call)?;
        expect_link_line(&rt, *call, line, &ran);
    }
    Ok(())
}

/// The three lines where of the three datagrams of a message's length so many were signed, and so on.
type Counts = (u8, u8, u8, u8, u8);

/// What the rules say of a header's first byte, and of a tail without a signature.
fn counts_of(first: u8, is_known: bool) -> Counts {
    let version = first / 8 % 8;
    let mode = first % 8;
    if version == 0 || version > 4 {
        (0, 0, 3, 0, 0)
    } else if mode != 1 && mode != 3 {
        (0, 0, 0, 3, 0)
    } else if is_known {
        (2, 1, 0, 0, 0)
    } else {
        (0, 1, 0, 0, 2)
    }
}

/// The lines of a run over 257 datagrams with this first byte.
fn lines_of(alloc: Global, low: u8, is_known: bool) -> Result<String, Fail> {
    let (signed, plain, bad_version, bad_mode, unknown) = counts_of(low, is_known);
    let lines = format!(in alloc;
        "signed={signed} plain={plain}\n\
refused BadLength=254 BadVersion={bad_version} BadMode={bad_mode} UnknownAccount={unknown} NoOldKey=0\n\
link quiet=0 lost=0 unsent=0\n"
    )?;
    Ok(lines)
}

/// The front of these bytes of each length.
fn fronts_of<'a>(alloc: Global, bytes: &'a [u8; 256]) -> Result<Vec<Came<'a>>, Fail> {
    let mut came = Vec::new(alloc);
    for len in 0..257 {
        came.push(Came::From(CLIENT, &bytes[..len]))?;
    }
    Ok(came)
}

// A reading when a datagram comes, and one when it is answered, for each of 257.
const STILL: &[i64] = &[NEW_YEAR; 514];

fn run_came<'a>(alloc: Global, came: &'a [Came<'a>]) -> Result<Ran, Fail> {
    let script = Script {
        came,
        readings: STILL,
        ..CONTROLLER
    };
    run(alloc, &["/dc:257", "/config:c"], b"", &script)
}

fn run_fronts(alloc: Global, low: u8, rid: u8) -> Result<Ran, Fail> {
    let mut bytes = [0; 256];
    bytes[0] = 0xC0 | low;
    bytes[48] = rid;
    bytes[49] = 4;
    let came = fronts_of(alloc, &bytes)?;
    run_came(alloc, &came)
}

fn expect_counts(rt: &impl Abort, low: u8, is_known: bool, lines: &str, ran: &Ran) {
    let (signed, plain, ..) = counts_of(low, is_known);
    assert_eq!(rt;
        (ran.status, ran.written(), ran.sends().len()),
        (
            Status::Done,
            lines.as_bytes(),
            usize::from(signed) + usize::from(plain)
        ),
        "{low}"
    );
}

// Datagrams of each length, version and mode, with zeros in place of a checksum. The controller doesn't look at a
// request's checksum, so it answers those that name its account, and no others but the plain ones.
#[test]
fn any_datagram(rt: HostRuntime) -> Result<(), Fail> {
    for (rid, is_known) in [(0x4F, true), (0x50, false)] {
        for low in 0..64 {
            let lines = lines_of(rt.alloc(), low, is_known)?;
            let ran = run_fronts(rt.alloc(), low, rid)?;
            expect_counts(&rt, low, is_known, &lines, &ran);
        }
    }
    Ok(())
}
