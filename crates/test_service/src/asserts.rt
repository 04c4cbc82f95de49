//! Runs of a service, and what is wanted of them. A comparison is a call of a function, so that the proof of a test is short.
use edge_io::Addr;
use std::alloc::{AllocError, Global};
use std::fmt::Debug;
use std::process::Abort;
use std::test::Fail;
use test_scripts::{Came, Device, NEW_YEAR, Ran, STEADY, Script, run};
use w32tm_cmd::Status;

/// What clients send in one session: its PDUs.
pub(crate) type Sent = &'static [&'static [u8]];

/// What is wanted of a run: its status, what each session is answered, what is printed, and how long the capture is.
#[derive(Drop)]
pub(crate) struct Want {
    pub status: Status,
    pub answered: &'static [Sent],
    pub printed: &'static [u8],
    pub captured: usize,
}

/// Where the one partner is asked.
pub(crate) const DC1: Addr = Addr {
    ip: 0x0A00_0001,
    port: 123,
};

pub(crate) const SETTINGS: &[u8] = b"Name=WS1\nRole=Member\nRid=1103\nAnnounceFlags=10\n\
MaxPosPhaseCorrection=172800\naccount 1103 000102030405060708090a0b0c0d0e0f\n\
computer DC1 10.0.0.1:123 S---\n";

/// The Life, a request, and what comes 0.201 seconds after it.
const READINGS: &[i64] = &[NEW_YEAR, NEW_YEAR, NEW_YEAR + 2_010_000];

/// A service of so many sessions at most.
fn words_of(sessions: &str) -> [&str; 4] {
    [sessions, "/config:c", "/keeper:k", "/capture:d"]
}

/// Both values are the same in this case.
pub(crate) fn same<T: PartialEq + Debug, C: Debug>(rt: &impl Abort, got: &T, want: &T, case: &C) {
    assert_eq!(rt; *got, *want, "{case:?}");
}

/// It holds in this case.
pub(crate) fn holds<C: Debug>(rt: &impl Abort, held: bool, case: &C) {
    assert!(rt; held, "{case:?}");
}

/// These PDUs one after the other.
fn joined(alloc: Global, pdus: &[&[u8]]) -> Result<Vec<u8>, AllocError> {
    let mut bytes = Vec::new(alloc);
    for pdu in pdus {
        bytes.extend_from_slice(pdu)?;
    }
    Ok(bytes)
}

/// The bytes of each session.
fn bytes_of(alloc: Global, sent: &[Sent]) -> Result<Vec<Vec<u8>>, AllocError> {
    let mut all = Vec::new(alloc);
    for pdus in sent {
        all.push(joined(alloc, pdus)?)?;
    }
    Ok(all)
}

/// A run of `/service` over sessions that send this, in pieces of this size, with this behind the link. Some calls may fail.
pub(crate) fn ran_of(
    alloc: Global,
    sessions: &str,
    sent: &[Sent],
    came: &[Came],
    size: usize,
    failing: &[(Device, u64)],
) -> Result<Ran, Fail> {
    let bytes = bytes_of(alloc, sent)?;
    let mut all = Vec::new(alloc);
    for session in &bytes {
        all.push(session.as_slice())?;
    }
    let script = Script {
        settings: SETTINGS,
        pieces: &[size],
        came,
        readings: READINGS,
        random: &[1, 2],
        sessions: &all,
        failing,
        ..STEADY
    };
    run(alloc, &words_of(sessions), b"input", &script)
}

/// One session of these bytes.
pub(crate) fn one<'a>(bytes: &'a [u8]) -> [&'a [u8]; 1] {
    [bytes]
}

/// A run of `/service` over sessions of these bytes, in whole pieces, with this behind the link.
pub(crate) fn ran_over<'a>(
    alloc: Global,
    sessions: &str,
    settings: &'a [u8],
    image: [u8; 256],
    came: &'a [Came<'a>],
    bytes: &'a [&'a [u8]],
) -> Result<Ran, Fail> {
    let script = Script {
        settings,
        image,
        pieces: &[500],
        came,
        readings: READINGS,
        random: &[1, 2],
        sessions: bytes,
        ..STEADY
    };
    run(alloc, &words_of(sessions), b"input", &script)
}

/// The run ended as it was to.
pub(crate) fn expect<C: Debug>(rt: &impl Abort, ran: &Ran, want: &Want, case: &C) {
    same(rt, &ran.status, &want.status, case);
    same(rt, &ran.written(), &want.printed, case);
    same(rt, &ran.capture().len(), &want.captured, case);
    same(rt, &ran.devices.wire.opened(), &want.answered.len(), case);
    for (number, answers) in want.answered.iter().enumerate() {
        holds(rt, is_answered(ran, number, answers), case);
    }
}

/// The session of this number was answered so, and not otherwise.
fn is_answered(ran: &Ran, number: usize, answers: &[&[u8]]) -> bool {
    let Some(mut left) = ran.session(number) else {
        return false;
    };
    for answer in answers {
        match left.strip_prefix(*answer) {
            Some(rest) => left = rest,
            None => return false,
        }
    }
    left.is_empty()
}
