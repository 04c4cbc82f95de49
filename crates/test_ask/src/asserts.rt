//! Runs of a client, and what is wanted of them. A comparison is a call of a function, so that the proof of a test is short.
use std::alloc::{AllocError, Global};
use std::fmt::Debug;
use std::process::Abort;
use std::test::Fail;
use test_scripts::{Device, Ran, STEADY, Script, run};
use w32tm_cmd::Status;

/// What is wanted of a run: its status, what is printed, and what is written to the one session in two writes. Where both
/// are empty, no session is opened or nothing is written.
pub(crate) type Want<'a> = (Status, &'a [u8], [&'a [u8]; 2]);

/// Both values are the same in this case.
pub(crate) fn same<T: PartialEq + Debug, C: Debug>(rt: &impl Abort, got: &T, want: &T, case: &C) {
    assert_eq!(rt; *got, *want, "{case:?}");
}

/// It holds in this case.
pub(crate) fn holds<C: Debug>(rt: &impl Abort, held: bool, case: &C) {
    assert!(rt; held, "{case:?}");
}

/// These replies one after the other.
fn joined(alloc: Global, replies: &[&[u8]]) -> Result<Vec<u8>, AllocError> {
    let mut bytes = Vec::new(alloc);
    for reply in replies {
        bytes.extend_from_slice(reply)?;
    }
    Ok(bytes)
}

/// A run with a session of these replies, in pieces of this size, and another session behind it. One of the calls may fail.
pub(crate) fn ran_of(
    alloc: Global,
    words: &[&str],
    replies: &[&[u8]],
    size: usize,
    failing: &[(Device, u64)],
) -> Result<Ran, Fail> {
    let session = joined(alloc, replies)?;
    let sessions = both(session.as_slice(), b"another");
    run_of(alloc, words, &sessions, &[size], failing)
}

/// The bytes of two sessions.
fn both<'a>(session: &'a [u8], another: &'a [u8]) -> [&'a [u8]; 2] {
    [session, another]
}

/// A run with these sessions, in pieces of the first size. One of the calls may fail.
fn run_of<'a>(
    alloc: Global,
    words: &[&str],
    sessions: &'a [&'a [u8]],
    pieces: &'a [usize],
    failing: &'a [(Device, u64)],
) -> Result<Ran, Fail> {
    let script = Script {
        sessions,
        pieces,
        failing,
        ..STEADY
    };
    run(alloc, words, b"input", &script)
}

/// The run ended as it was to.
pub(crate) fn expect<C: Debug>(rt: &impl Abort, ran: &Ran, want: &Want, case: &C) {
    same(rt, &ran.status, &want.0, case);
    same(rt, &ran.written(), &want.1, case);
    holds(rt, is_asked(ran, want.2), case);
}

/// These two pieces and nothing else were written to the one session.
fn is_asked(ran: &Ran, writes: [&[u8]; 2]) -> bool {
    match ran.session(0) {
        Some(asked) => ran.session(1).is_none() && asked.strip_prefix(writes[0]) == Some(writes[1]),
        None => writes[0].is_empty(),
    }
}
