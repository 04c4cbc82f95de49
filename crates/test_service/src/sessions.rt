//! Whole runs of a service, session by session.
use crate::asserts::{DC1, Sent, Want, expect, ran_of};
use crate::bytes::{
    ACK, BAD, BAD_ANSWER, BIND, BITS, BITS_0, FAR_REPLY, NAME_CLOCK, NAME_DC1, NO_CONTEXT,
    NO_OPERATION, OTHER, REPLY, RESULT_0, RESULT_1, RESULT_3, SOURCE, SYNC, UNBOUND,
};
use std::test::Fail;
use test_scripts::Came;
use w32tm_cmd::Status;

/// A run of up to so many sessions: what each of them sends, what comes over the link, and what is wanted.
type Row = (
    &'static str,
    &'static [Sent],
    &'static [Came<'static>],
    Want,
);

const ROWS: &[Row] = &[
    // A session of all calls: its sync moves the clock, so the source is DC1.
    (
        "/service:1",
        &[&[BIND, SYNC, SOURCE, BITS, OTHER]],
        &[Came::From(DC1, REPLY)],
        Want {
            status: Status::Done,
            answered: &[&[ACK, RESULT_0, NAME_DC1, BITS_0, NO_OPERATION]],
            printed: b"life mark=0\nsend n=1 to=10.0.0.1:123\nmoved n=1 offset=29000000 by=slew\n\
session n=1 end=Ended\ntotal sent=1 moved=1 refused=0\nlink quiet=0 lost=0\n",
            captured: 119,
        },
    ),
    // Nothing comes: no time, and the local clock.
    (
        "/service:1",
        &[&[BIND, SYNC, SOURCE]],
        &[],
        Want {
            status: Status::Done,
            answered: &[&[ACK, RESULT_1, NAME_CLOCK]],
            printed: b"life mark=0\nsend n=1 to=10.0.0.1:123\nsession n=1 end=Ended\n\
total sent=1 moved=0 refused=0\nlink quiet=1 lost=0\n",
            captured: 34,
        },
    ),
    // The clock is too far off.
    (
        "/service:1",
        &[&[BIND, SYNC]],
        &[Came::From(DC1, FAR_REPLY)],
        Want {
            status: Status::Done,
            answered: &[&[ACK, RESULT_3]],
            printed: b"life mark=0\nsend n=1 to=10.0.0.1:123\nrefused reason=TooBig\n\
session n=1 end=Ended\ntotal sent=1 moved=0 refused=1\nlink quiet=1 lost=0\n",
            captured: 119,
        },
    ),
    // A bad session ends alone, and the next is served; the third isn't asked for.
    (
        "/service:2",
        &[&[BAD], &[UNBOUND], &[UNBOUND]],
        &[],
        Want {
            status: Status::Done,
            answered: &[&[BAD_ANSWER], &[NO_CONTEXT]],
            printed: b"life mark=0\nsession n=1 end=BadPdu\nsession n=2 end=Ended\n\
total sent=0 moved=0 refused=0\nlink quiet=0 lost=0\n",
            captured: 17,
        },
    ),
    // A header that breaks off, and a session without a byte; then no session comes.
    (
        "/service:10000",
        &[&[BIND, b"\x05\x00\x00\x03"], &[]],
        &[],
        Want {
            status: Status::Done,
            answered: &[&[ACK], &[]],
            printed: b"life mark=0\nsession n=1 end=Torn\nsession n=2 end=Ended\n\
total sent=0 moved=0 refused=0\nlink quiet=0 lost=0\n",
            captured: 17,
        },
    ),
    // The source of a later session is that of an earlier one's sync.
    (
        "/service:2",
        &[&[BIND, SYNC], &[BIND, SOURCE]],
        &[Came::From(DC1, REPLY)],
        Want {
            status: Status::Done,
            answered: &[&[ACK, RESULT_0], &[ACK, NAME_DC1]],
            printed: b"life mark=0\nsend n=1 to=10.0.0.1:123\nmoved n=1 offset=29000000 by=slew\n\
session n=1 end=Ended\nsession n=2 end=Ended\ntotal sent=1 moved=1 refused=0\nlink quiet=0 lost=0\n",
            captured: 119,
        },
    ),
];

// Each row, byte by byte, in odd pieces and in whole PDUs.
#[test]
fn one_rpc_session(rt: HostRuntime) -> Result<(), Fail> {
    for (number, (sessions, sent, came, want)) in ROWS.iter().enumerate() {
        for size in [1, 7, 500] {
            let ran = ran_of(rt.alloc(), sessions, sent, came, size, &[])?;
            expect(&rt, &ran, want, &(number, size));
        }
    }
    Ok(())
}

// A call without a bind; then no session comes.
#[test]
fn service_without_a_bind(rt: HostRuntime) -> Result<(), Fail> {
    let ran = ran_of(rt.alloc(), "/service:2", &[&[UNBOUND]], &[], 500, &[])?;
    let want = Want {
        status: Status::Done,
        answered: &[&[NO_CONTEXT]],
        printed: b"life mark=0\nsession n=1 end=Ended\ntotal sent=0 moved=0 refused=0\n\
link quiet=0 lost=0\n",
        captured: 17,
    };
    expect(&rt, &ran, &want, &"/service:2");
    Ok(())
}
