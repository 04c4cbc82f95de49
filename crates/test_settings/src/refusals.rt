//! Settings that are refused, by each command that reads some.
use edge_io::{Addr, Drawn, Link, Reading};
use std::alloc::Global;
use std::process::Abort;
use std::test::Fail;
use test_scripts::{Came, Device, NEW_YEAR, REQUEST, Ran, STEADY, Script, run};
use w32tm_cmd::Status;

const DC: &[&str] = &["/dc:1", "/config:c"];

const MONITOR: &[&str] = &["/monitor", "/config:c", "/port:123"];

const REPLAY: &[&str] = &["/replay", "/capture:p", "/config:c"];

const MEMBER: &[&str] = &["/member:1", "/keeper:k", "/config:c"];

// The commands that read settings.
const COMMANDS: [&[&str]; 4] = [DC, MONITOR, REPLAY, MEMBER];

const PEER: Addr = Addr {
    ip: 0x0A00_0032,
    port: 40_000,
};

const DEVICES: Script<'static> = Script {
    came: &[Came::From(PEER, &REQUEST)],
    random: &[1, 2],
    ..STEADY
};

/// No device but the settings was touched.
fn expect_untouched(rt: &impl Abort, ran: &Ran) {
    assert_eq!(rt;
        (ran.written().len(), ran.capture().len(), ran.sends().len()),
        (0, 0, 0)
    );
    assert!(rt; *ran.image() == [0; 256]);
    assert_eq!(rt;
        (ran.left, ran.next, ran.drawn, ran.waits),
        (68, Reading::At(NEW_YEAR), Drawn::Word(1), Some(68))
    );
}

/// Settings, the calls that fail, the status, its code, and how many bytes of the settings are left.
type Row = (&'static [u8], &'static [(Device, u64)], Status, u8, usize);

const REFUSED: &[Row] = &[
    (
        b"Name=WS1\nRole=Chief\n",
        &[],
        Status::BadConfig { line: 2 },
        2,
        0,
    ),
    (
        b"Name=WS1\nRole=Member\n",
        &[],
        Status::BadConfig { line: 3 },
        2,
        0,
    ),
    (b"", &[], Status::BadConfig { line: 1 }, 2, 0),
    (
        b"Name=WS1\nRole=Chief\n",
        &[(Device::Config, 1)],
        Status::ReadFault,
        4,
        20,
    ),
    // The text is read to its end before a line is judged.
    (
        b"Name=WS1\nRole=Chief\n",
        &[(Device::Config, 2)],
        Status::ReadFault,
        4,
        0,
    ),
    (b"", &[(Device::Config, 1)], Status::ReadFault, 4, 0),
];

fn run_row(alloc: Global, words: &[&str], row: &Row) -> Result<Ran, Fail> {
    let (settings, failing, ..) = *row;
    let script = Script {
        settings,
        failing,
        ..DEVICES
    };
    run(alloc, words, &REQUEST, &script)
}

fn expect_row(rt: &impl Abort, words: &[&str], row: &Row, ran: &Ran) {
    let (_, _, status, code, left) = *row;
    assert_eq!(rt;
        (ran.status, ran.status.code(), ran.config_left),
        (status, code, left),
        "{words:?}"
    );
}

#[test]
fn settings_refused(rt: HostRuntime) -> Result<(), Fail> {
    for words in COMMANDS {
        for row in REFUSED {
            let ran = run_row(rt.alloc(), words, row)?;
            expect_row(&rt, words, row, &ran);
            expect_untouched(&rt, &ran);
        }
    }
    Ok(())
}

// The emulator's own entry is no partner of it. The controller's commands need none.
const ALONE: &[u8] = b"Name=DC1\nRole=Pdc\nRid=1103\n\
    account 1103 000102030405060708090a0b0c0d0e0f\n\
    computer DC1 10.0.0.1:123 S--E\n";

fn run_alone(alloc: Global, words: &[&str]) -> Result<Ran, Fail> {
    let script = Script {
        settings: ALONE,
        ..DEVICES
    };
    run(alloc, words, &REQUEST, &script)
}

fn expect_no_partner(rt: &impl Abort, ran: &Ran) {
    assert_eq!(rt;
        (ran.status, ran.status.code(), ran.config_left),
        (Status::NoPartner, 11, 0)
    );
    expect_untouched(rt, ran);
}

#[test]
fn settings_without_a_partner(rt: HostRuntime) -> Result<(), Fail> {
    for words in [REPLAY, MEMBER] {
        let ran = run_alone(rt.alloc(), words)?;
        expect_no_partner(&rt, &ran);
    }
    for words in [DC, MONITOR] {
        let ran = run_alone(rt.alloc(), words)?;
        assert_eq!(rt; ran.status, Status::Done);
    }
    Ok(())
}
