//! Runs of `/simulate`.
use md5::{Digest, Md5};
use std::alloc::{AllocError, Global};
use std::process::Abort;
use std::test::Fail;
use test_scripts::{Device, Ran, STEADY, Script, run};
use w32tm_cmd::Status;

/// Devices with room for the longest capture and its report.
const ROOMY: Script<'static> = Script {
    room: 3_000_000,
    ..STEADY
};

const ONE_TWO: &[&str] = &["/simulate:1:2", "/capture:c"];

/// The first Life, and a Tick that sends.
const EVENTS: &[u8] = b"\x01W32T\x01\xD5\xC0\x36\x69\x05\x00\x00\x00\x00\x00\x00\
\x02\x01\xD5\xC0\x36\x69\x05\x00\x00\x5E\x88\x81\x16";

const SUMMARY: &[u8] = b"ops=2 skipped=0\nsent=1 moved=0 refused=0\nslack=none\n";

#[test]
fn simulate_one_two(rt: HostRuntime) -> Result<(), Fail> {
    let ran = run(rt.alloc(), ONE_TWO, b"input", &STEADY)?;
    assert_eq!(rt;
        (ran.status, ran.written(), ran.capture()),
        (Status::Done, SUMMARY, EVENTS)
    );
    assert_eq!(rt;
        (
            ran.config_left,
            ran.left,
            ran.moves().len(),
            ran.sends().len()
        ),
        (0, 5, 0, 0)
    );
    Ok(())
}

/// Words, the summary, and the length and the MD5 checksum of the capture.
type Row = (&'static [&'static str], &'static [u8], usize, u128);

const ROWS: &[Row] = &[
    (
        &["/simulate:0:1"],
        b"ops=1 skipped=0\nsent=0 moved=0 refused=1\nslack=none\n",
        102,
        0x24D17DAC_130CE6FF_A4E05657_677A20B0,
    ),
    (
        &["/simulate:4294967295:1", "/capture:c"],
        b"ops=1 skipped=0\nsent=0 moved=0 refused=0\nslack=none\n",
        17,
        0xFEF6E7EB_9EA92082_63E96885_86CEAA60,
    ),
    (
        &["/simulate:0:1000", "/capture:c"],
        b"ops=1000 skipped=7\nsent=120 moved=3 refused=255\nslack=1\n",
        24_523,
        0xDB563622_090495DE_4FE5CF20_DB15BF51,
    ),
    (
        &["/simulate:1103:2000"],
        b"ops=2000 skipped=5\nsent=233 moved=8 refused=462\nslack=1\n",
        44_905,
        0x2E084AEC_B0C6F66A_F37CBF9E_93F1D6EC,
    ),
];

fn sum_of(bytes: &[u8]) -> u128 {
    let mut hasher = Md5::new();
    hasher.update(bytes);
    u128::from_be_bytes(hasher.finalize())
}

fn expect_row(rt: &impl Abort, row: &Row, ran: &Ran) {
    let (words, summary, len, sum) = *row;
    let capture = ran.capture();
    assert_eq!(rt;
        (ran.status, ran.written(), capture.len(), sum_of(capture)),
        (Status::Done, summary, len, sum),
        "{words:?}"
    );
}

fn run_row(alloc: Global, row: &Row) -> Result<Ran, Fail> {
    run(alloc, row.0, b"input", &ROOMY)
}

#[test]
fn seeds_and_numbers(rt: HostRuntime) -> Result<(), Fail> {
    for row in ROWS {
        let ran = run_row(rt.alloc(), row)?;
        expect_row(&rt, row, &ran);
    }
    Ok(())
}

/// Settings of the account, the partner and the limits of the world.
const SETTINGS: &[u8] = b"Name=WS1\nRole=Member\nRid=1103\n\
MaxPosPhaseCorrection=172800\nMaxNegPhaseCorrection=172800\nMaxAllowedPhaseOffset=300\n\
MinPollInterval=0\nMaxPollInterval=4\n\
account 1103 000102030405060708090a0b0c0d0e0f\ncomputer DC1 10.0.0.1:123 S---\n";

const REPLAY: Script<'static> = Script {
    settings: SETTINGS,
    ..ROOMY
};

const LONGEST: Row = (
    &["/simulate:4294967295:100000", "/capture:c"],
    b"ops=100000 skipped=6\nsent=12540 moved=148 refused=23178\nslack=1\n",
    2_240_870,
    0x4E1A20E1_4913B644_1A144062_A40B3ED5,
);

const TOTAL: &[u8] = b"total sent=12540 moved=148 refused=23178\n";

/// The report of this capture ends with the numbers of the summary.
fn expect_total(rt: &impl Abort, alloc: Global, capture: &[u8]) -> Result<(), Fail> {
    let ran = run(alloc, &["/replay", "/config:c"], capture, &REPLAY)?;
    assert_eq!(rt;
        (ran.status, ran.written().ends_with(TOTAL)),
        (Status::Done, true)
    );
    Ok(())
}

/// The capture of the longest run.
fn longest(rt: &impl Abort, alloc: Global) -> Result<Vec<u8>, Fail> {
    let ran = run_row(alloc, &LONGEST)?;
    expect_row(rt, &LONGEST, &ran);
    Ok(ran.capture().to_vec(alloc)?)
}

/// Words that are no command of it, and that touch nothing.
fn expect_bad_words(rt: &impl Abort, alloc: Global, words: &[&str]) -> Result<(), Fail> {
    let ran = run(alloc, words, b"input", &STEADY)?;
    assert_eq!(rt;
        (ran.status, ran.status.code(), ran.written(), ran.capture()),
        (Status::BadWords, 1, b"".as_slice(), b"".as_slice()),
        "{words:?}"
    );
    Ok(())
}

#[test]
fn world_and_simulate(rt: HostRuntime) -> Result<(), Fail> {
    for words in [["/simulate:1:0"].as_slice(), &["/simulate:1:100001"]] {
        expect_bad_words(&rt, rt.alloc(), words)?;
    }
    // A second run says the same.
    for _ in 0..2 {
        let capture = longest(&rt, rt.alloc())?;
        expect_total(&rt, rt.alloc(), &capture)?;
    }
    Ok(())
}

/// Sizes of pieces, and how many of that size have more bytes than the capture.
const PIECES: &[(usize, usize)] = &[(1, 490_000), (7, 70_000), (4096, 120)];

/// So many pieces of this size.
fn pieces_of(alloc: Global, size: usize, count: usize) -> Result<Vec<usize>, AllocError> {
    let mut pieces = Vec::new(alloc);
    for _ in 0..count {
        pieces.push(size)?;
    }
    Ok(pieces)
}

/// The report on a capture that comes in these pieces, all of which is read.
fn report_in_pieces(
    rt: &impl Abort,
    alloc: Global,
    capture: &[u8],
    pieces: &[usize],
) -> Result<Vec<u8>, Fail> {
    let script = Script { pieces, ..REPLAY };
    let ran = run(alloc, &["/replay", "/config:c"], capture, &script)?;
    assert_eq!(rt; (ran.status, ran.left), (Status::Done, 0));
    Ok(ran.written().to_vec(alloc)?)
}

/// A capture of more than 400,000 bytes.
fn long_capture(rt: &impl Abort, alloc: Global) -> Result<Vec<u8>, Fail> {
    let words = ["/simulate:7:20000", "/capture:c"];
    let ran = run(alloc, &words, b"input", &ROOMY)?;
    let len = ran.capture().len();
    assert!(rt; len > 400_000 && len < 490_000);
    Ok(ran.capture().to_vec(alloc)?)
}

/// The report on a capture in these pieces is this one.
fn expect_report(
    rt: &impl Abort,
    alloc: Global,
    capture: &[u8],
    pieces: &[usize],
    report: &[u8],
) -> Result<(), Fail> {
    let got = report_in_pieces(rt, alloc, capture, pieces)?;
    assert!(rt; got.as_slice() == report);
    Ok(())
}

// However a capture is cut into pieces, its report is the same.
#[test]
fn report_of_pieces(rt: HostRuntime) -> Result<(), Fail> {
    let capture = long_capture(&rt, rt.alloc())?;
    let whole = report_in_pieces(&rt, rt.alloc(), &capture, &[490_000])?;
    for (size, count) in PIECES {
        let pieces = pieces_of(rt.alloc(), *size, *count)?;
        expect_report(&rt, rt.alloc(), &capture, &pieces, &whole)?;
    }
    Ok(())
}

/// The device and the number of its call that fails; then the status, and how many bytes of the capture and of the summary
/// were written.
type Fault = (Device, u64, Status, usize, usize);

// Each record is one write, and each line. The other devices aren't called.
const FAULTS: &[Fault] = &[
    (Device::Capture, 1, Status::WriteFault, 0, 0),
    (Device::Capture, 2, Status::WriteFault, 17, 0),
    (Device::Capture, 3, Status::Done, 30, 52),
    (Device::Out, 1, Status::WriteFault, 30, 0),
    (Device::Out, 2, Status::WriteFault, 30, 16),
    (Device::Out, 3, Status::WriteFault, 30, 41),
    (Device::Out, 4, Status::Done, 30, 52),
    (Device::Config, 1, Status::Done, 30, 52),
    (Device::Input, 1, Status::Done, 30, 52),
    (Device::Link, 1, Status::Done, 30, 52),
    (Device::Clock, 1, Status::Done, 30, 52),
    (Device::Disk, 1, Status::Done, 30, 52),
    (Device::Entropy, 1, Status::Done, 30, 52),
    (Device::Wire, 1, Status::Done, 30, 52),
];

fn run_failing(alloc: Global, device: Device, call: u64) -> Result<Ran, Fail> {
    let failing = [(device, call)];
    let script = Script {
        failing: &failing,
        ..STEADY
    };
    run(alloc, ONE_TWO, b"input", &script)
}

fn expect_fault(rt: &impl Abort, fault: &Fault, ran: &Ran) {
    let (device, call, status, captured, printed) = *fault;
    assert_eq!(rt;
        (ran.status, Some(ran.capture()), Some(ran.written())),
        (status, EVENTS.get(..captured), SUMMARY.get(..printed)),
        "{device:?} {call}"
    );
}

#[test]
fn faults_of_a_simulation(rt: HostRuntime) -> Result<(), Fail> {
    for fault in FAULTS {
        let (device, call, ..) = *fault;
        let ran = run_failing(rt.alloc(), device, call)?;
        expect_fault(&rt, fault, &ran);
    }
    Ok(())
}
