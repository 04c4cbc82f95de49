//! A disk that stops at each of its calls.
use crate::asserts::{holds, same};
use edge_io::Tried;
use std::alloc::Global;
use std::process::Abort;
use std::test::Fail;
use test_scripts::{NEW_YEAR, Ran, STEADY, Script, Stopped, run, run_stopped};
use w32tm_cmd::Status;

/// A member that may ask each second, and one partner.
const EACH_SECOND: &[u8] = b"Name=WS1\nRole=Member\nRid=1103\nMinPollInterval=0\n\
MaxPollInterval=0\naccount 1103 000102030405060708090a0b0c0d0e0f\n\
computer DC1 10.0.0.1:123 S---\n";

/// A second, in ticks.
const SECOND: i64 = 10_000_000;

/// The calls from the first to the last at which the disk stops; then the status, how many requests were sent, and the
/// least and the greatest mark for which an image stands that a crash may leave.
type Row = (u64, u64, Status, u32, u32, u32);

// Two calls in the load, four in the first and in the second reserve, and five in the third. At the sixteenth call the disk
// doesn't stop.
const ROWS: [Row; 8] = [
    (1, 4, Status::DiskFault, 0, 0, 0),
    (5, 6, Status::DiskFault, 0, 0, 64),
    (7, 8, Status::DiskFault, 64, 64, 64),
    (9, 10, Status::DiskFault, 64, 64, 128),
    (11, 12, Status::DiskFault, 128, 128, 128),
    (13, 15, Status::DiskFault, 128, 128, 192),
    (16, 16, Status::Done, 130, 192, 192),
    (17, 17, Status::Done, 130, 192, 192),
];

/// How many images of each disk are looked at.
const IMAGES: u32 = 64;

/// How many of them a second run begins with.
const RESTARTS: u32 = 12;

/// A reading for the Life and one for each of 130 turns, one second apart.
fn readings(alloc: Global) -> Result<Vec<i64>, Fail> {
    let mut readings = Vec::new(alloc);
    let mut now = NEW_YEAR;
    for _ in 0..131u32 {
        readings.push(now)?;
        now = now.saturating_add(SECOND);
    }
    Ok(readings)
}

/// The random words 1 to 130, which each run draws.
fn random(alloc: Global) -> Result<Vec<u32>, Fail> {
    let mut random = Vec::new(alloc);
    for word in 1..131u32 {
        random.push(word)?;
    }
    Ok(random)
}

/// A member's settings with these readings and random words, on this image.
fn script_of<'a>(readings: &'a [i64], random: &'a [u32], image: [u8; 256]) -> Script<'a> {
    Script {
        settings: EACH_SECOND,
        readings,
        random,
        image,
        room: 10_000,
        ..STEADY
    }
}

/// A first run of 130 turns over a zero disk that stops at this call, in which nothing comes.
fn first_run(alloc: Global, stop: u64) -> Result<Stopped, Fail> {
    let (readings, random) = (readings(alloc)?, random(alloc)?);
    let script = script_of(&readings, &random, [0; 256]);
    let words = ["/member:130", "/config:c", "/keeper:k"];
    run_stopped(alloc, &words, &script, stop.saturating_sub(1))
}

/// A second run of three turns on this image, with the same readings and words.
fn second_run(alloc: Global, image: [u8; 256]) -> Result<Ran, Fail> {
    let (readings, random) = (readings(alloc)?, random(alloc)?);
    let script = script_of(&readings, &random, image);
    let words = ["/member:3", "/config:c", "/keeper:k"];
    run(alloc, &words, b"", &script)
}

/// A replay of the two captures, joined.
fn joined(alloc: Global, first: &[u8], second: &[u8]) -> Result<Ran, Fail> {
    let mut capture = first.to_vec(alloc)?;
    capture.extend_from_slice(second)?;
    let script = Script {
        settings: EACH_SECOND,
        room: 10_000,
        ..STEADY
    };
    run(
        alloc,
        &["/replay", "/config:c"],
        capture.as_slice(),
        &script,
    )
}

/// The count that a request carries: the seconds of its transmit timestamp.
fn count_of(tried: &Tried) -> Option<u32> {
    let bytes = tried.bytes.as_slice().get(40..44)?;
    let bytes: [u8; 4] = bytes.try_into().ok()?;
    Some(u32::from_be_bytes(bytes))
}

/// The counts of the first and of the last of these sends, or 0 of none.
fn counts_of(sends: &[Tried]) -> (u32, u32) {
    let first = sends.first().and_then(count_of);
    let last = sends.last().and_then(count_of);
    (first.unwrap_or(0), last.unwrap_or(0))
}

fn mark_at(image: &[u8; 256], at: u8) -> u32 {
    let at = at as usize;
    if at < 200 && image[at] == 0xA5 {
        u32::from_be_bytes([image[at + 4], image[at + 5], image[at + 6], image[at + 7]])
    } else {
        0
    }
}

/// The greatest mark of the open slots.
fn greatest_mark(image: &[u8; 256]) -> u32 {
    mark_at(image, 0)
        .max(mark_at(image, 64))
        .max(mark_at(image, 128))
}

/// The least and the greatest mark for which an image stands that a crash may leave.
fn marks_of(first: &Stopped) -> (u32, u32) {
    let (mut least, mut greatest) = (u32::MAX, 0);
    for n in 0..IMAGES {
        let mark = greatest_mark(&first.pick(n));
        least = least.min(mark);
        greatest = greatest.max(mark);
    }
    (least, greatest)
}

/// It ended as the row says, its counts are those from 1 on, and its images stand for these marks.
fn expect_stopped(rt: &impl Abort, row: &Row, stop: u64, first: &Stopped) {
    let (_, _, status, sends, least, greatest) = *row;
    let made = (first.status, first.sends().len());
    same(rt, &made, &(status, sends as usize), &stop);
    same(rt, &counts_of(first.sends()), &(sends.min(1), sends), &stop);
    same(rt, &marks_of(first), &(least, greatest), &stop);
}

#[test]
fn stopped_at_each_call(rt: HostRuntime) -> Result<(), Fail> {
    for row in ROWS {
        for stop in row.0..=row.1 {
            let first = first_run(rt.alloc(), stop)?;
            expect_stopped(&rt, &row, stop, &first);
        }
    }
    Ok(())
}

/// A second run sent three requests, with counts that stand right behind the mark of its image.
fn expect_restarted(rt: &impl Abort, case: (u64, u32), second: &Ran) {
    let mark = case.1;
    let made = (second.status, second.sends().len());
    same(rt, &made, &(Status::Done, 3), &case);
    let counts = (mark.saturating_add(1), mark.saturating_add(3));
    same(rt, &counts_of(second.sends()), &counts, &case);
}

/// The joined captures are replayed: a line for each Life and each request, and the total line.
fn expect_replayed(rt: &impl Abort, case: (u64, u32), sent: usize, again: &Ran) {
    same(rt, &again.status, &Status::Done, &case);
    let lines = again
        .written()
        .iter()
        .filter(|byte| **byte == b'\n')
        .count();
    // A load that fails takes no Life.
    let other_lines = if case.0 > 2 { 6 } else { 5 };
    same(rt, &lines, &sent.saturating_add(other_lines), &case);
}

/// A second run on this image of the first one's disk sends no count that the first has sent.
fn restart(rt: &impl Abort, alloc: Global, stop: u64, first: &Stopped, n: u32) -> Result<(), Fail> {
    let image = first.pick(n);
    let case = (stop, greatest_mark(&image));
    let sent = first.sends().len();
    holds(rt, sent <= case.1 as usize, &case);
    let second = second_run(alloc, image)?;
    expect_restarted(rt, case, &second);
    let again = joined(alloc, first.capture(), second.capture())?;
    expect_replayed(rt, case, sent, &again);
    Ok(())
}

#[test]
fn restarted_on_each_image(rt: HostRuntime) -> Result<(), Fail> {
    for stop in 1..=16u64 {
        let first = first_run(rt.alloc(), stop)?;
        for n in 0..RESTARTS {
            restart(&rt, rt.alloc(), stop, &first, n)?;
        }
    }
    Ok(())
}
