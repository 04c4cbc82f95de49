//! Runs of `/member` of 257 turns, each of which gets a datagram that is refused.
use crate::asserts::{holds, same};
use crate::runs::{FIRST, SECOND, TWENTY, made_by};
use edge_io::Addr;
use std::alloc::Global;
use std::process::Abort;
use std::test::Fail;
use test_scripts::{Came, NEW_YEAR, Ran, SETTINGS, STEADY, Script, run};
use w32tm_cmd::Status;

/// Not the port of a partner.
const STRANGER: Addr = Addr {
    ip: FIRST.ip,
    port: 124,
};

// The bytes of a reply, of a request, and of no message.
const REPLY_BYTES: &[u8; 256] = &[0x1C; 256];

const REQUEST_BYTES: &[u8; 256] = &[0xDB; 256];

const STRANGE_BYTES: &[u8; 256] = &[0xFF; 256];

// Senders, each with the bytes of which it sends fronts.
const HOSTILE: &[(Addr, &[u8; 256])] = &[
    (FIRST, REPLY_BYTES),
    (FIRST, REQUEST_BYTES),
    (FIRST, STRANGE_BYTES),
    (SECOND, REPLY_BYTES),
    (SECOND, REQUEST_BYTES),
    (SECOND, STRANGE_BYTES),
    (STRANGER, REPLY_BYTES),
    (STRANGER, REQUEST_BYTES),
    (STRANGER, STRANGE_BYTES),
];

/// What this sender sends: of these bytes the front of each length.
fn fronts(
    alloc: Global,
    from: Addr,
    bytes: &'static [u8; 256],
) -> Result<Vec<Came<'static>>, Fail> {
    let mut came = Vec::new(alloc);
    for len in 0..257 {
        came.push(Came::From(from, &bytes[..len]))?;
    }
    Ok(came)
}

/// A turn for each front. The clock stands still, so the first turn alone sends a request.
const STILL: Script<'static> = Script {
    settings: SETTINGS,
    readings: &[NEW_YEAR; 515],
    random: &[7; 257],
    room: 50_000,
    ..STEADY
};

fn run_still<'a>(alloc: Global, came: &'a [Came<'a>]) -> Result<Ran, Fail> {
    let script = Script { came, ..STILL };
    run(
        alloc,
        &["/member:257", "/config:c", "/keeper:k"],
        b"",
        &script,
    )
}

fn run_hostile(alloc: Global, from: Addr, bytes: &'static [u8; 256]) -> Result<Ran, Fail> {
    let came = fronts(alloc, from, bytes)?;
    run_still(alloc, &came)
}

// A Life of 17 bytes; in each turn a Tick of 13, and an arrival of 17 and its datagram: 17 + 257 * 30 + 32,896 bytes.
fn expect_refused(rt: &impl Abort, case: (Addr, u8), ran: &Ran) {
    same(rt, &made_by(ran), &(Status::Done, 40_623, 1, 0), &case);
    let totals = b"total sent=1 moved=0 refused=257\nlink quiet=0 lost=0\n";
    holds(rt, ran.written().ends_with(totals), &case);
}

/// The capture replays to the same lines, but for the link's.
fn expect_same_lines(
    rt: &impl Abort,
    alloc: Global,
    case: (Addr, u8),
    ran: &Ran,
) -> Result<(), Fail> {
    let script = Script {
        room: 50_000,
        ..TWENTY
    };
    let replayed = run(alloc, &["/replay", "/config:c"], ran.capture(), &script)?;
    same(rt, &replayed.status, &Status::Done, &case);
    let want = ran.written().strip_suffix(b"link quiet=0 lost=0\n");
    same(rt, &Some(replayed.written()), &want, &case);
    Ok(())
}

// Datagrams of all lengths. None of them moves the clock or ends the run.
#[test]
fn hostile_datagrams(rt: HostRuntime) -> Result<(), Fail> {
    for (from, bytes) in HOSTILE {
        let case = (*from, bytes[0]);
        let ran = run_hostile(rt.alloc(), *from, *bytes)?;
        expect_refused(&rt, case, &ran);
        expect_same_lines(&rt, rt.alloc(), case, &ran)?;
    }
    Ok(())
}
