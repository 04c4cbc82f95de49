//! Runs of `/replay`.
use edge_io::{Addr, Drawn, Link, Reading};
use std::alloc::Global;
use std::process::Abort;
use std::test::Fail;
use test_scripts::{
    Came, Device, NEW_YEAR, REALISTIC, REQUEST, Ran, SETTINGS, STEADY, Script, realistic_capture,
    run,
};
use w32tm_cmd::Status;

const WORDS: &[&str] = &["/replay", "/config:c"];

/// Two lives, of which the first sends a request. The reply to it comes in the second.
///
/// The checksum is the MD5 of the key 00..0F and the 48 bytes of the header before it, as OpenSSL computes it from
/// their hexadecimal digits: `echo KEY HEADER | xxd -r -p | openssl md5`.
const LIVES: [u8; 132] = *b"\x01W32T\x01\xD5\xC0\x36\x69\x05\x00\x00\x00\x00\x00\x00\
\x02\x01\xD5\xC0\x36\x69\x05\x00\x00\x00\x00\x00\x07\
\x01W32T\x01\xD5\xC0\x36\x69\x05\x00\x00\x00\x00\x00\x40\
\x04\x01\xD5\xC0\x36\x69\x05\x00\x01\x0A\x00\x00\x02\x00\x7B\x00\x44\
\x1C\x01\x0A\xE9\x00\x00\x00\x00\x00\x00\x00\x00LOCL\xE1\xB6\x5F\x83\x00\x00\x00\x00\
\x00\x00\x00\x01\x00\x00\x00\x07\xE1\xB6\x5F\x83\x00\x00\x00\x00\xE1\xB6\x5F\x83\x00\x41\x89\x38\
\x4F\x04\x00\x00\xED\xAB\xC4\xE7\x83\x55\x15\x8A\x22\xA4\x6F\x1F\x40\x74\x5B\x27";

/// Their report: lines of 12, 25, 13, 25 and 31 bytes.
const LINES: &[u8] = b"life mark=0\n\
send n=1 to=10.0.0.2:123\n\
life mark=64\n\
refused reason=NoRequest\n\
total sent=1 moved=0 refused=1\n";

const PEER: Addr = Addr {
    ip: 0x0A00_0002,
    port: 123,
};

const MEMBER: Script<'static> = Script {
    settings: SETTINGS,
    came: &[Came::From(PEER, &REQUEST)],
    random: &[1, 2],
    ..STEADY
};

/// The run touched neither link nor clock nor entropy.
fn expect_untouched(rt: &impl Abort, ran: &Ran) {
    assert_eq!(rt;
        (ran.sends().len(), ran.waits, ran.next, ran.drawn),
        (0, Some(68), Reading::At(NEW_YEAR), Drawn::Word(1))
    );
}

/// The run ended so, with this text, and touched no more.
fn expect_end(rt: &impl Abort, ran: &Ran, status: Status, text: &[u8]) {
    assert_eq!(rt; (ran.status, ran.written()), (status, text));
    expect_untouched(rt, ran);
}

/// The lives, where the second has a mark that falls.
fn falling() -> [u8; 132] {
    let mut falling = LIVES;
    falling[46] = 0;
    falling
}

fn expect_replay(
    rt: &impl Abort,
    alloc: Global,
    capture: &[u8],
    status: Status,
    text: &[u8],
) -> Result<(), Fail> {
    let ran = run(alloc, WORDS, capture, &MEMBER)?;
    expect_end(rt, &ran, status, text);
    Ok(())
}

// A reply to a request of an earlier life is refused. A life with a falling mark is no record that may follow, and
// neither is a torn one. An empty capture has a total line.
#[test]
fn earlier_life_is_no_request(rt: HostRuntime) -> Result<(), Fail> {
    let alloc = rt.alloc();
    let lines = LINES;
    let falling = falling();
    expect_replay(&rt, alloc, &LIVES, Status::Done, lines)?;
    expect_replay(
        &rt,
        alloc,
        &falling,
        Status::BadCapture { at: 30 },
        &lines[..37],
    )?;
    expect_replay(
        &rt,
        alloc,
        &LIVES[..29],
        Status::BadCapture { at: 17 },
        &lines[..12],
    )?;
    expect_replay(&rt, alloc, &LIVES[17..], Status::BadCapture { at: 0 }, b"")?;
    expect_replay(
        &rt,
        alloc,
        b"",
        Status::Done,
        b"total sent=0 moved=0 refused=0\n",
    )
}

/// Where the records of the capture end, how many bytes their lines have, and the total line of the records up to there.
const ENDS: &[(usize, usize, &[u8])] = &[
    (0, 0, b"total sent=0 moved=0 refused=0\n"),
    (17, 12, b"total sent=0 moved=0 refused=0\n"),
    (30, 37, b"total sent=1 moved=0 refused=0\n"),
    (47, 50, b"total sent=1 moved=0 refused=0\n"),
    (132, 75, b"total sent=1 moved=0 refused=1\n"),
];

// The capture is bad where it ends inside a record, and the report has the records before that one.
fn expect_cut(rt: &impl Abort, cut: usize, ran: &Ran) {
    let mut last: (usize, usize, &[u8]) = (0, 0, b"");
    for end in ENDS {
        if end.0 <= cut {
            last = *end;
        }
    }
    let (at, len, total) = last;
    let lines = LINES.get(..len).unwrap_or(b"");
    if at == cut {
        assert_eq!(rt;
            (
                ran.status,
                ran.written().get(..len),
                ran.written().get(len..)
            ),
            (Status::Done, Some(lines), Some(total)),
            "{cut}"
        );
        expect_untouched(rt, ran);
    } else {
        expect_end(rt, ran, Status::BadCapture { at: at as u64 }, lines);
    }
}

// Each cut of the capture.
#[test]
fn cut_captures(rt: HostRuntime) -> Result<(), Fail> {
    for cut in 0..132 {
        let ran = run(rt.alloc(), WORDS, &LIVES[..cut], &MEMBER)?;
        expect_cut(&rt, cut, &ran);
    }
    Ok(())
}

#[test]
fn realistic_run(rt: HostRuntime) -> Result<(), Fail> {
    let capture = realistic_capture(rt.alloc())?;
    let ran = run(rt.alloc(), WORDS, &capture, &MEMBER)?;
    expect_end(&rt, &ran, Status::Done, REALISTIC);
    assert_eq!(rt; (capture.len(), ran.config_left, ran.left), (389, 0, 0));
    Ok(())
}

/// The device and the number of its call that fails; then the status, how many bytes of the lines were written, and how
/// many of the capture are left.
type Row = (Device, u64, Status, usize, usize);

// The settings have 176 bytes and the capture 132, each in a piece of 30 and one of the rest. The capture's first piece has
// two records, which are judged before the second is read. Each line is one write.
const FAULTS: &[Row] = &[
    (Device::Config, 1, Status::ReadFault, 0, 132),
    (Device::Config, 2, Status::ReadFault, 0, 132),
    (Device::Config, 3, Status::ReadFault, 0, 132),
    (Device::Input, 1, Status::ReadFault, 0, 132),
    (Device::Input, 2, Status::ReadFault, 37, 102),
    (Device::Input, 3, Status::ReadFault, 75, 0),
    (Device::Out, 1, Status::WriteFault, 0, 102),
    (Device::Out, 2, Status::WriteFault, 12, 102),
    (Device::Out, 3, Status::WriteFault, 37, 0),
    (Device::Out, 4, Status::WriteFault, 50, 0),
    (Device::Out, 5, Status::WriteFault, 75, 0),
    (Device::Out, 6, Status::Done, 106, 0),
    (Device::Link, 2, Status::Done, 106, 0),
    (Device::Clock, 2, Status::Done, 106, 0),
    (Device::Entropy, 2, Status::Done, 106, 0),
];

fn run_failing(alloc: Global, device: Device, call: u64) -> Result<Ran, Fail> {
    let failing = [(device, call)];
    let script = Script {
        failing: &failing,
        ..MEMBER
    };
    run(alloc, WORDS, &LIVES, &script)
}

fn expect_row(rt: &impl Abort, row: &Row, ran: &Ran) {
    let (device, call, status, len, left) = *row;
    assert_eq!(rt;
        (ran.status, Some(ran.written()), ran.left),
        (status, LINES.get(..len), left),
        "{device:?} {call}"
    );
    expect_untouched(rt, ran);
}

#[test]
fn faults_of_a_replay(rt: HostRuntime) -> Result<(), Fail> {
    for row in FAULTS {
        let (device, call, ..) = *row;
        let ran = run_failing(rt.alloc(), device, call)?;
        expect_row(&rt, row, &ran);
    }
    Ok(())
}

/// So many lives have one byte more than a reader has room for.
const MANY: usize = 241;

/// The capture of these lives, each of which begins at the first moment and has the mark 0.
fn many_lives() -> [u8; 17 * MANY] {
    let mut capture = [0; 17 * MANY];
    for life in 0..MANY {
        capture[17 * life..17 * life + 5].copy_from_slice(b"\x01W32T");
    }
    capture
}

/// How many bytes of that capture come, in one piece; the number of the read that fails; then the status, and how many
/// bytes of lines were written.
type Long = (usize, u64, Status, usize);

// Each life has a line of 12 bytes, and the total line has 31. A read for each 4,096 bytes is made, and one that finds the
// end, so there is no tenth.
const LONG: &[Long] = &[
    (4096, 0, Status::BadCapture { at: 4080 }, 2880),
    (4097, 10, Status::Done, 2923),
    (4097, 3, Status::ReadFault, 2892),
    (4097, 2, Status::ReadFault, 2880),
];

fn run_long(alloc: Global, row: &Long) -> Result<Ran, Fail> {
    let failing = [(Device::Input, row.1)];
    let script = Script {
        pieces: &[5000],
        failing: &failing,
        room: 3000,
        ..MEMBER
    };
    let capture = many_lives();
    run(alloc, WORDS, capture.get(..row.0).unwrap_or(b""), &script)
}

fn expect_long(rt: &impl Abort, row: &Long, ran: &Ran) {
    let (len, call, status, written) = *row;
    assert_eq!(rt;
        (ran.status, ran.written().len()),
        (status, written),
        "{len} {call}"
    );
    expect_untouched(rt, ran);
}

#[test]
fn record_across_two_reads(rt: HostRuntime) -> Result<(), Fail> {
    for row in LONG {
        let ran = run_long(rt.alloc(), row)?;
        expect_long(&rt, row, &ran);
    }
    Ok(())
}
