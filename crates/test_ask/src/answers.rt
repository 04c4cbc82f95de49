//! Sessions that are answered, refused, or break off.
use crate::asserts::{Want, expect, ran_of};
use crate::messages::{
    ACK, ACK_2, ASK_BITS, ASK_SOURCE, BIND, BITS, FAULT, FAULT_1, NAK, NO_TIME, OTHER, REJECTING,
    SHORT, SOURCE, SYNC, SYNC_BOTH, SYNC_NOWAIT, SYNC_REDISCOVER, SYNCED, TOO_BIG,
};
use std::alloc::Global;
use std::process::Abort;
use std::test::Fail;
use w32tm_cmd::Status;

/// Words; the replies of the session; and what is wanted.
type Row = (
    &'static [&'static str],
    &'static [&'static [u8]],
    Want<'static>,
);

const DONE: &[u8] = b"The command completed successfully.\n";

const NO_TIME_LINE: &[u8] = b"The computer did not resync because no time data was available.\n";

const TOO_BIG_LINE: &[u8] =
    b"The computer did not resync because the required time change was too big.\n";

const ANSWERED: &[Row] = &[
    (
        &["/resync"],
        &[ACK, SYNCED],
        (Status::Done, DONE, [BIND, SYNC]),
    ),
    (
        &["/resync", "/nowait"],
        &[ACK, SYNCED],
        (Status::Done, DONE, [BIND, SYNC_NOWAIT]),
    ),
    (
        &["/resync", "/rediscover"],
        &[ACK, SYNCED],
        (Status::Done, DONE, [BIND, SYNC_REDISCOVER]),
    ),
    (
        &["/resync", "/rediscover", "/nowait", "/computer:10.0.0.1"],
        &[ACK, SYNCED],
        (Status::Done, DONE, [BIND, SYNC_BOTH]),
    ),
    (
        &["/resync"],
        &[ACK, NO_TIME],
        (
            Status::NotResynced { result: 1 },
            NO_TIME_LINE,
            [BIND, SYNC],
        ),
    ),
    (
        &["/resync"],
        &[ACK, TOO_BIG],
        (
            Status::NotResynced { result: 3 },
            TOO_BIG_LINE,
            [BIND, SYNC],
        ),
    ),
    (
        &["/resync"],
        &[ACK, OTHER],
        (
            Status::NotResynced { result: 7 },
            b"The computer did not resync. Result 7.\n",
            [BIND, SYNC],
        ),
    ),
    (
        &["/query", "/source"],
        &[ACK, SOURCE],
        (Status::Done, b"DC1\n", [BIND, ASK_SOURCE]),
    ),
    (
        &["/query", "/bits"],
        &[ACK, BITS],
        (Status::Done, b"bits=0x00000240\n", [BIND, ASK_BITS]),
    ),
    // A number is a number: a result of another call is printed as bits.
    (
        &["/query", "/bits"],
        &[ACK, TOO_BIG],
        (Status::Done, b"bits=0x00000003\n", [BIND, ASK_BITS]),
    ),
    // What comes behind the reply isn't read.
    (
        &["/query", "/source"],
        &[ACK, SOURCE, NAK],
        (Status::Done, b"DC1\n", [BIND, ASK_SOURCE]),
    ),
];

#[test]
fn answers_in_any_pieces(rt: HostRuntime) -> Result<(), Fail> {
    for row in ANSWERED {
        for size in [1, 7, 500] {
            let ran = ran_of(rt.alloc(), row.0, row.1, size, &[])?;
            expect(&rt, &ran, &row.2, &(row.0, size));
        }
    }
    Ok(())
}

// The bind is refused by a bind_nak, by its result, by a fault, by the reply to another call, or by nothing; the call by a
// fault, by a reply that is too short, by a bind_ack, by the reply to another call, by one that breaks off, or by nothing.
const REFUSALS: &[(&[&[u8]], bool)] = &[
    (&[NAK], false),
    (&[REJECTING, SYNCED], false),
    (&[FAULT_1], false),
    (&[ACK_2], false),
    (&[b"\x05\x00\x0C\x03"], false),
    (&[], false),
    (&[ACK, FAULT], true),
    (&[ACK, SHORT], true),
    (&[ACK, ACK_2], true),
    (&[ACK, FAULT_1], true),
    (
        &[
            ACK,
            b"\x05\x00\x02\x03\x10\0\0\0\x1C\0\0\0\x02\0\0\0\x04\0\0\0",
        ],
        true,
    ),
    (&[ACK, b"HTTP/1.1 400 Bad Request\r\n"], true),
    (&[ACK], true),
];

// Each refuses each command, whose call stands after the bind where that was accepted.
#[test]
fn refusals_of_a_peer(rt: HostRuntime) -> Result<(), Fail> {
    for (replies, is_bound) in REFUSALS {
        for (words, call) in [
            (["/resync"].as_slice(), SYNC),
            (&["/query", "/source"], ASK_SOURCE),
            (&["/query", "/bits"], ASK_BITS),
        ] {
            let call: &[u8] = if *is_bound { call } else { b"" };
            is_refused(&rt, rt.alloc(), words, replies, call)?;
        }
    }
    Ok(())
}

/// These replies refuse, and this is written after the bind.
fn is_refused(
    rt: &impl Abort,
    alloc: Global,
    words: &[&str],
    replies: &[&[u8]],
    call: &[u8],
) -> Result<(), Fail> {
    let ran = ran_of(alloc, words, replies, 500, &[])?;
    expect(
        rt,
        &ran,
        &(Status::PeerRefused, b"", [BIND, call]),
        &replies,
    );
    Ok(())
}
