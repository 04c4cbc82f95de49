//! Runs of `/monitor`.
use edge_io::{Addr, Drawn, Link, Put, Reading, Tried};
use std::alloc::Global;
use std::process::Abort;
use std::test::Fail;
use test_scripts::{Came, Device, NEW_YEAR, Ran, STEADY, Script, run};
use w32tm_cmd::Status;

const WORDS: &[&str] = &["/monitor", "/config:c"];

const SETTINGS: &[u8] = b"Name=DC1\nRole=Controller\nRid=1103\n\
    account 1103 000102030405060708090a0b0c0d0e0f\n\
    computer DC1 10.0.0.1:123 S--E\ncomputer DC2 10.0.0.2:123 -R--\n";

const DC1: Addr = Addr {
    ip: 0x0A00_0001,
    port: 123,
};

const DC2: Addr = Addr {
    ip: 0x0A00_0002,
    port: 123,
};

// The request whose words are 1 and 7: 48 bytes.
const REQUEST: [u8; 48] =
    *b"\xDB\x00\x00\xE9\0\0\0\0\0\0\0\0\0\0\0\0\0\0\0\0\0\0\0\0\0\0\0\0\0\0\0\0\0\0\0\0\0\0\0\0\0\0\0\x01\
       \0\0\0\x07";

// The answer to it: received three seconds after the first reading by the clock of DC1, and sent a millisecond later.
const REPLY: [u8; 48] =
    *b"\x1C\x01\x00\xE9\0\0\0\0\0\0\0\0LOCL\xE1\xB6\x5F\x83\0\0\0\0\0\0\0\x01\0\0\0\x07\
       \xE1\xB6\x5F\x83\0\0\0\0\xE1\xB6\x5F\x83\x00\x41\x89\x38";

const LINES: &[u8] = b"DC1 offset=29000000 delay=2000000 stratum=1\n\
DC2 error=NoAnswer\n\
total computers=2 answered=1\n";

// The answer of DC1 comes 201 milliseconds after the request, and DC2 doesn't answer.
const TWO: Script<'static> = Script {
    settings: SETTINGS,
    came: &[
        Came::From(DC1, &REPLY),
        Came::Nothing,
        Came::From(DC2, b"left"),
    ],
    readings: &[NEW_YEAR, NEW_YEAR + 2_010_000, NEW_YEAR, NEW_YEAR],
    random: &[1, 7, 2, 8, 3],
    ..STEADY
};

/// The send went to this address, with these bytes and this answer.
fn expect_send(rt: &impl Abort, tried: &Tried, to: Addr, bytes: &[u8], put: Put) {
    assert_eq!(rt;
        (tried.to, tried.bytes.as_slice(), tried.put),
        (to, bytes, put)
    );
}

// Each computer gets a request of its own.
fn expect_requests(rt: &impl Abort, ran: &Ran) {
    let mut second = REQUEST;
    second[43] = 2;
    second[47] = 8;
    match ran.sends() {
        [one, other] => {
            expect_send(rt, one, DC1, &REQUEST, Put::Done);
            expect_send(rt, other, DC2, &second, Put::Done);
        }
        _ => assert!(rt; false),
    }
}

#[test]
fn monitor_of_two(rt: HostRuntime) -> Result<(), Fail> {
    let ran = run(rt.alloc(), WORDS, b"input", &TWO)?;
    assert_eq!(rt; (ran.status, ran.written()), (Status::Done, LINES));
    expect_requests(&rt, &ran);
    assert_eq!(rt;
        (ran.config_left, ran.left, ran.next, ran.drawn, ran.waits),
        (0, 5, Reading::At(NEW_YEAR), Drawn::Word(3), Some(4))
    );
    Ok(())
}

// The settings name no computer.
#[test]
fn monitor_of_none(rt: HostRuntime) -> Result<(), Fail> {
    let script = Script {
        settings: &SETTINGS[..80],
        ..TWO
    };
    let ran = run(rt.alloc(), WORDS, b"input", &script)?;
    assert_eq!(rt;
        (ran.status, ran.written()),
        (Status::Done, b"total computers=0 answered=0\n".as_slice())
    );
    assert_eq!(rt;
        (ran.sends().len(), ran.next, ran.drawn, ran.waits),
        (0, Reading::At(NEW_YEAR), Drawn::Word(1), Some(48))
    );
    Ok(())
}

/// The device and the number of its call that fails; then the status, how many requests were sent, how many bytes of the
/// lines were written, and what the entropy gives next.
type Row = (Device, u64, Status, usize, usize, Drawn);

// A fourth reading, a fifth word and a fourth write aren't asked for, and neither is the input.
const FAULTS: &[Row] = &[
    (Device::Config, 1, Status::ReadFault, 0, 0, Drawn::Word(1)),
    (Device::Config, 2, Status::ReadFault, 0, 0, Drawn::Word(1)),
    (Device::Config, 3, Status::ReadFault, 0, 0, Drawn::Word(1)),
    (Device::Clock, 1, Status::ClockFault, 0, 0, Drawn::Word(1)),
    (Device::Clock, 2, Status::ClockFault, 1, 0, Drawn::Word(2)),
    (Device::Clock, 3, Status::ClockFault, 1, 44, Drawn::Word(2)),
    (Device::Clock, 4, Status::Done, 2, 92, Drawn::Word(3)),
    (
        Device::Entropy,
        1,
        Status::EntropyFault,
        0,
        0,
        Drawn::Word(1),
    ),
    (
        Device::Entropy,
        2,
        Status::EntropyFault,
        0,
        0,
        Drawn::Word(7),
    ),
    (
        Device::Entropy,
        3,
        Status::EntropyFault,
        1,
        44,
        Drawn::Word(2),
    ),
    (
        Device::Entropy,
        4,
        Status::EntropyFault,
        1,
        44,
        Drawn::Word(8),
    ),
    (Device::Entropy, 5, Status::Done, 2, 92, Drawn::Failed),
    (Device::Out, 1, Status::WriteFault, 1, 0, Drawn::Word(2)),
    (Device::Out, 2, Status::WriteFault, 2, 44, Drawn::Word(3)),
    (Device::Out, 3, Status::WriteFault, 2, 63, Drawn::Word(3)),
    (Device::Out, 4, Status::Done, 2, 92, Drawn::Word(3)),
    (Device::Input, 1, Status::Done, 2, 92, Drawn::Word(3)),
];

/// The run over two computers, where this call fails.
fn run_failing(alloc: Global, device: Device, call: u64) -> Result<Ran, Fail> {
    let failing = [(device, call)];
    let script = Script {
        failing: &failing,
        ..TWO
    };
    run(alloc, WORDS, b"input", &script)
}

fn expect_row(rt: &impl Abort, row: &Row, ran: &Ran) {
    let (device, call, status, sends, len, drawn) = *row;
    assert_eq!(rt;
        (
            ran.status,
            ran.sends().len(),
            Some(ran.written()),
            ran.drawn
        ),
        (status, sends, LINES.get(..len), drawn),
        "{device:?} {call}"
    );
}

#[test]
fn faults_of_a_monitor(rt: HostRuntime) -> Result<(), Fail> {
    for row in FAULTS {
        let (device, call, ..) = *row;
        let ran = run_failing(rt.alloc(), device, call)?;
        expect_row(&rt, row, &ran);
    }
    Ok(())
}

/// The lines where this call of the link fails.
const LINK_LINES: &[(u64, &[u8])] = &[
    (1, LINES),
    (
        2,
        b"DC1 error=NoAnswer\nDC2 error=BadSource\ntotal computers=2 answered=0\n",
    ),
    (3, LINES),
    (4, LINES),
    (5, LINES),
];

fn expect_link_lines(rt: &impl Abort, call: u64, lines: &[u8], ran: &Ran) {
    assert_eq!(rt;
        (ran.status, ran.sends().len(), ran.written()),
        (Status::Done, 2, lines),
        "{call}"
    );
}

// The link's calls are a send and a receive for each computer. A failed send is no end and no word; a failed receive is
// no answer, and the datagram comes for the next computer.
#[test]
fn failed_calls_of_the_link(rt: HostRuntime) -> Result<(), Fail> {
    for (call, lines) in LINK_LINES {
        let ran = run_failing(rt.alloc(), Device::Link, *call)?;
        expect_link_lines(&rt, *call, lines, &ran);
    }
    Ok(())
}
