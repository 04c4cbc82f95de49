//! Runs of `/show`.
use crate::asserts::same;
use dc_sign::Refusal;
use edge_io::Reading;
use std::alloc::Global;
use std::process::Abort;
use std::test::Fail;
use test_scripts::{Device, NEW_YEAR, REQUEST, Ran, STEADY, Script, run};
use w32tm_cmd::Status;

// `/show` of the sample request, and its lines.
const SHOW: &str =
    "/show:db000ae90000000000000000000000000000000000000000000000000000000000000000000000000000\
                    0001000000074f04000000000000000000000000000000000000";

const LINES: [&str; 5] = [
    "leap=3 version=3 mode=3 stratum=0 poll=10 precision=-23\n",
    "rootdelay=0 rootdispersion=0 refid=00000000\n",
    "reference=0000000000000000 originate=0000000000000000\n",
    "receive=0000000000000000 transmit=0000000100000007\n",
    "tail=short keyid=0000044f checksum=00000000000000000000000000000000\n",
];

/// The first lines, so many of them.
fn lines_up_to(alloc: Global, count: usize) -> Result<Vec<u8>, Fail> {
    let mut lines = Vec::new(alloc);
    for line in LINES.iter().take(count) {
        lines.extend_from_slice(line.as_bytes())?;
    }
    Ok(lines)
}

/// The run ended so and wrote this, and neither input nor clock was read.
fn expect_end(rt: &impl Abort, status: Status, written: &[u8], ran: &Ran) {
    same(rt, &ran.status, &status, &());
    same(rt, &ran.written(), &written, &status);
    let left = (ran.left, ran.next);
    same(rt, &left, &(68, Reading::At(NEW_YEAR)), &status);
}

#[test]
fn shows_the_sample_request(rt: HostRuntime) -> Result<(), Fail> {
    let lines = lines_up_to(rt.alloc(), 5)?;
    let ran = run(rt.alloc(), &[SHOW], &REQUEST, &STEADY)?;
    expect_end(&rt, Status::Done, &lines, &ran);
    Ok(())
}

/// The line after so many fails.
fn run_failing(alloc: Global, count: usize) -> Result<Ran, Fail> {
    let failing = [(Device::Out, (count as u64).saturating_add(1))];
    let script = Script {
        failing: &failing,
        ..STEADY
    };
    run(alloc, &[SHOW], &REQUEST, &script)
}

/// The output has room for `due` bytes and half a line more.
fn run_short(alloc: Global, due: usize, line: &str) -> Result<Ran, Fail> {
    let script = Script {
        room: due.saturating_add(line.len() / 2),
        ..STEADY
    };
    run(alloc, &[SHOW], &REQUEST, &script)
}

fn expect_lines(rt: &impl Abort, due: &[u8], ran: &Ran) {
    same(rt, &ran.status, &Status::WriteFault, &due.len());
    same(rt, &ran.written(), &due, &due.len());
}

fn expect_failed(rt: &impl Abort, alloc: Global, number: usize, due: &[u8]) -> Result<(), Fail> {
    let ran = run_failing(alloc, number)?;
    expect_lines(rt, due, &ran);
    Ok(())
}

fn expect_short(rt: &impl Abort, alloc: Global, due: &[u8], line: &str) -> Result<(), Fail> {
    let ran = run_short(alloc, due.len(), line)?;
    expect_lines(rt, due, &ran);
    Ok(())
}

// The lines before the one whose write fails stay, also where that one has no room.
#[test]
fn shows_up_to_a_failed_write(rt: HostRuntime) -> Result<(), Fail> {
    for (number, line) in LINES.iter().enumerate() {
        let due = lines_up_to(rt.alloc(), number)?;
        expect_failed(&rt, rt.alloc(), number, &due)?;
        expect_short(&rt, rt.alloc(), &due, line)?;
    }
    Ok(())
}

/// `/show` of so many zero bytes.
fn zeros(alloc: Global, len: u32) -> Result<String, Fail> {
    let mut word = String::from_str(alloc, "/show:")?;
    for _ in 0..len {
        word.push_str("00")?;
    }
    Ok(word)
}

fn run_zeros(alloc: Global, len: u32) -> Result<Ran, Fail> {
    let word = zeros(alloc, len)?;
    run(alloc, &[word.as_str()], &REQUEST, &STEADY)
}

const BAD_LENGTHS: &[u32] = &[0, 1, 47, 49, 67, 69, 72, 119, 121, 256];

#[test]
fn other_lengths_are_bad(rt: HostRuntime) -> Result<(), Fail> {
    let reason = Refusal::BadLength;
    for len in BAD_LENGTHS {
        let ran = run_zeros(rt.alloc(), *len)?;
        same(&rt, &ran.status, &Status::BadRequest { reason }, len);
        expect_end(&rt, Status::BadRequest { reason }, b"", &ran);
    }
    Ok(())
}
