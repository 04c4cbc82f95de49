//! Each call, over each reply, and with each call on the wire failing.
ghost use Rattle.std.specs.Prelude.{◌<◌, All, IfOk, length};

use crate::asserts::{holds, same};
use crate::bytes::{
    ACK, ACK_2, BIND, BITS, BITS_240, FAULT, NAK, NAME_DC1, NAME_WITH_STATUS, OTHER_CALL,
    REJECTED_ACK, RESULT_0, RESULT_1, RESULT_3, RESULT_OF_BIND, SOURCE, SYNC,
};
use client_run::{AskFault, Call, Given, ask};
use edge_io::ScriptWire;
use std::alloc::{AllocError, Global};
use std::process::Abort;
use std::test::Fail;

/// `/resync` asks so.
const RESYNC: Call = Call::Sync { wait: 1, flags: 2 };

/// What is wanted of a call.
#[derive(Clone, Copy)]
enum Want {
    Synced(u32),
    Bits(u32),
    Name(&'static [u8]),
    Fault(AskFault),
}

/// Whether this is wanted.
fn is_wanted(told: &Result<Given, AskFault>, want: Want) -> bool {
    match (told, want) {
        (Ok(Given::Synced(result)), Want::Synced(wanted)) => *result == wanted,
        (Ok(Given::Bits(bits)), Want::Bits(wanted)) => *bits == wanted,
        (Ok(Given::Source(name)), Want::Name(wanted)) => name.as_slice() == wanted,
        (Err(fault), Want::Fault(wanted)) => *fault == wanted,
        _ => false,
    }
}

/// Adds these bytes in pieces of this size at most.
fn add_pieces(
    alloc: Global,
    pieces: &mut Vec<Vec<u8>>,
    bytes: &[u8],
    size: usize,
) -> Result<(), AllocError>
    requires { All (λ piece. 0 < length piece.items) pieces.old.items }
    ensures { All (λ piece. 0 < length piece.items) pieces.new.items }
{
    let mut rest = bytes;
    while !rest.is_empty() {
        let (piece, behind) = rest.split_at(size.clamp(1, rest.len()));
        pieces.push(piece.to_vec(alloc)?)?;
        rest = behind;
    }
    Ok(())
}

/// One session with these two replies, in pieces of this size at most.
fn one_session(
    alloc: Global,
    replies: [&[u8]; 2],
    size: usize,
) -> Result<Vec<Vec<Vec<u8>>>, AllocError>
    ensures { IfOk result (λ sessions.
        All (λ pieces. All (λ piece. 0 < length piece.items) pieces.items) sessions.items) }
{
    let mut pieces = Vec::new(alloc);
    add_pieces(alloc, &mut pieces, replies[0], size)?;
    add_pieces(alloc, &mut pieces, replies[1], size)?;
    let mut sessions = Vec::new(alloc);
    sessions.push(pieces)?;
    Ok(sessions)
}

/// What was written to the one session is these two pieces.
fn is_written(wire: &ScriptWire, first: &[u8], second: &[u8]) -> bool {
    if wire.opened() != 1 {
        return first.is_empty() && second.is_empty();
    }
    match wire.written(0).strip_prefix(first) {
        Some(rest) => rest == second,
        None => false,
    }
}

/// Makes the call over these replies, in pieces of several sizes, and looks at what is told and written.
fn asks(
    rt: &impl Abort,
    alloc: Global,
    call: Call,
    replies: [&[u8]; 2],
    want: Want,
    second: &[u8],
) -> Result<(), Fail> {
    for size in [1, 7, 1_000] {
        let sessions = one_session(alloc, replies, size)?;
        let mut wire = ScriptWire::new(alloc, sessions, Vec::new(alloc), 200)?;
        let told = ask(call, &mut wire);
        holds(
            rt,
            is_wanted(&told, want),
            &(call, replies[0].len(), replies[1].len(), size),
        );
        holds(
            rt,
            is_written(&wire, BIND, second),
            &(call, replies[0].len(), replies[1].len(), size),
        );
    }
    Ok(())
}

// A reply that is wrong or not whole refuses; bytes behind the reply aren't looked at.
#[test]
fn calls_by_their_replies(rt: HostRuntime) -> Result<(), Fail> {
    let alloc = rt.alloc();
    let refused = Want::Fault(AskFault::Refused);
    for (call, second, replies, want) in [
        (RESYNC, SYNC, [ACK, RESULT_0], Want::Synced(0)),
        (RESYNC, SYNC, [ACK, RESULT_1], Want::Synced(1)),
        (RESYNC, SYNC, [ACK, RESULT_3], Want::Synced(3)),
        (Call::Bits, BITS, [ACK, BITS_240], Want::Bits(0x240)),
        (Call::Source, SOURCE, [ACK, NAME_DC1], Want::Name(b"DC1")),
        (RESYNC, SYNC, [ACK, NAME_DC1], Want::Synced(0x0002_0000)),
        (RESYNC, SYNC, [ACK, FAULT], refused),
        (Call::Bits, BITS, [ACK, FAULT], refused),
        (Call::Source, SOURCE, [ACK, FAULT], refused),
        (RESYNC, SYNC, [ACK, OTHER_CALL], refused),
        (Call::Bits, BITS, [ACK, ACK_2], refused),
        (Call::Source, SOURCE, [ACK, RESULT_0], refused),
        (Call::Source, SOURCE, [ACK, NAME_WITH_STATUS], refused),
        (RESYNC, SYNC, [ACK, &RESULT_0[..27]], refused),
        (RESYNC, SYNC, [ACK, &[]], refused),
        (RESYNC, &[], [NAK, RESULT_0], refused),
        (Call::Bits, &[], [REJECTED_ACK, BITS_240], refused),
        (Call::Source, &[], [RESULT_OF_BIND, NAME_DC1], refused),
        (RESYNC, &[], [ACK_2, RESULT_0], refused),
        (RESYNC, &[], [&ACK[..55], &[]], refused),
        (RESYNC, &[], [&[], &[]], refused),
    ] {
        asks(&rt, alloc, call, replies, want, second)?;
    }
    Ok(())
}

// The calls on the wire are the request, the write of the bind, two reads, the write of the call and two reads. None is
// made after one that failed.
#[test]
fn wires_whose_calls_fail(rt: HostRuntime) -> Result<(), Fail> {
    let alloc = rt.alloc();
    let read = Want::Fault(AskFault::ReadFault);
    let write = Want::Fault(AskFault::WriteFault);
    for (fails, want, first, second) in [
        (1, read, &[][..], &[][..]),
        (2, write, &[], &[]),
        (3, read, BIND, &[]),
        (4, read, BIND, &[]),
        (5, write, BIND, &[]),
        (6, read, BIND, BITS),
        (7, read, BIND, BITS),
        (8, Want::Bits(0x240), BIND, BITS),
    ] {
        let mut numbers = Vec::new(alloc);
        numbers.push(fails)?;
        let sessions = one_session(alloc, [ACK, BITS_240], 1_000)?;
        let mut wire = ScriptWire::new(alloc, sessions, numbers, 200)?;
        let told = ask(Call::Bits, &mut wire);
        holds(&rt, is_wanted(&told, want), &fails);
        holds(&rt, is_written(&wire, first, second), &fails);
        same(&rt, &wire.opened(), &usize::from(fails > 1), &fails);
    }
    Ok(())
}

#[test]
fn no_session_comes(rt: HostRuntime) -> Result<(), Fail> {
    let alloc = rt.alloc();
    let mut wire = ScriptWire::new(alloc, Vec::new(alloc), Vec::new(alloc), 200)?;
    let told = ask(RESYNC, &mut wire);
    holds(
        &rt,
        is_wanted(&told, Want::Fault(AskFault::Refused)),
        &"no session",
    );
    same(&rt, &wire.opened(), &0, &"no session");
    Ok(())
}
