//! Runs that are compared with the word of their calls.
use std::alloc::{AllocError, Global};
use std::process::Abort;
use std::test::Fail;
use test_scripts::{Device, Ordered, Script, call_at, run_in_order};
use w32tm_cmd::Status;

/// A run: its words, its input and what its devices do; and how it ends where no call fails but sends and receives.
#[derive(Clone, Copy)]
pub(crate) struct Run<'a> {
    pub words: &'a [&'a str],
    pub input: &'a [u8],
    pub script: Script<'a>,
    pub status: Status,
}

/// Whether the sessions of the wire are those of a service, or the one of a client.
#[derive(Clone, Copy, PartialEq, Eq)]
pub(crate) enum Sessions {
    Served,
    Asked,
}

/// Letters, and how often they come, one after the other.
pub(crate) type Part<'a> = (usize, &'a str);

/// A run, and the word of its calls.
pub(crate) type Row = (Run<'static>, &'static [Part<'static>]);

/// The whole word.
pub(crate) fn word_of(alloc: Global, parts: &[Part]) -> Result<Vec<u8>, AllocError> {
    let mut word = Vec::new(alloc);
    for (times, letters) in parts {
        for _ in 0..*times {
            word.extend_from_slice(letters.as_bytes())?;
        }
    }
    Ok(word)
}

fn ordered(alloc: Global, run: &Run) -> Result<Ordered, Fail> {
    run_in_order(alloc, run.words, run.input, &run.script)
}

/// The run ends as it is to, and makes these calls in this order.
pub(crate) fn expect_order(
    rt: &impl Abort,
    alloc: Global,
    run: &Run,
    word: &[u8],
) -> Result<(), Fail> {
    let ran = ordered(alloc, run)?;
    assert_eq!(rt; (ran.status, ran.letters.as_slice()), (run.status, word));
    Ok(())
}

/// Whether a run goes on behind a call of this letter that fails: behind a send or a receive of the link, and in a service
/// behind a read or a write of a session.
fn goes_on(letter: u8, sessions: Sessions) -> bool {
    match letter {
        b's' | b'r' => true,
        b'h' | b'p' => sessions == Sessions::Served,
        _ => false,
    }
}

/// How a run ends of whose devices this one fails at a call of this letter, where that ends it.
fn status_of(device: Device, letter: u8, run: &Run) -> Status {
    match device {
        Device::Config | Device::Input => Status::ReadFault,
        Device::Out | Device::Capture => Status::WriteFault,
        Device::Link => run.status,
        Device::Clock => Status::ClockFault,
        Device::Disk => Status::DiskFault,
        Device::Entropy => Status::EntropyFault,
        Device::Wire if letter == b'p' => Status::WriteFault,
        Device::Wire => Status::ReadFault,
    }
}

/// Where the call at this place fails, the calls before it are the same, and it is the last one, unless the run goes on.
fn expect_fault(
    rt: &impl Abort,
    alloc: Global,
    run: &Run,
    word: &[u8],
    place: usize,
    sessions: Sessions,
) -> Result<(), Fail> {
    let (Some((device, call)), Some(letter)) = (call_at(word, place), word.get(place).copied())
    else {
        return Ok(());
    };
    let mut failing = run.script.failing.to_vec(alloc)?;
    failing.push((device, call))?;
    let script = Script {
        failing: &failing,
        ..run.script
    };
    let ran = ordered(alloc, &Run { script, ..*run })?;
    let end = place.saturating_add(1);
    let front = ran.letters.get(..end);
    let is_last = ran.letters.len() == end;
    let status = if goes_on(letter, sessions) {
        run.status
    } else {
        status_of(device, letter, run)
    };
    assert_eq!(rt;
        (ran.status, front, is_last),
        (status, word.get(..end), !goes_on(letter, sessions)),
        "call {place}"
    );
    Ok(())
}

/// The same of each call of the run.
pub(crate) fn expect_faults(
    rt: &impl Abort,
    alloc: Global,
    run: &Run,
    word: &[u8],
    sessions: Sessions,
) -> Result<(), Fail> {
    for place in 0..word.len() {
        expect_fault(rt, alloc, run, word, place, sessions)?;
    }
    Ok(())
}

/// Each of these runs makes the calls of its word.
pub(crate) fn expect_orders(rt: &impl Abort, alloc: Global, rows: &[Row]) -> Result<(), Fail> {
    for (run, parts) in rows {
        let word = word_of(alloc, parts)?;
        expect_order(rt, alloc, run, &word)?;
    }
    Ok(())
}

/// Each call of these runs fails in its turn, and is the last one, unless the run goes on.
pub(crate) fn expect_all_faults(
    rt: &impl Abort,
    alloc: Global,
    rows: &[Row],
    sessions: Sessions,
) -> Result<(), Fail> {
    for (run, parts) in rows {
        let word = word_of(alloc, parts)?;
        expect_faults(rt, alloc, run, &word, sessions)?;
    }
    Ok(())
}
