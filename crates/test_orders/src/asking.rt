//! The order of calls of `/resync` and `/query`.
use crate::expected::{Row, Run, Sessions, expect_all_faults, expect_orders};
use std::test::Fail;
use test_scripts::{STEADY, Script};
use w32tm_cmd::Status;

/// A reply that accepts the bind, and one to the call with the number 0: 56 and 28 bytes. They are those of `messages.rt`
/// in `test_ask`.
const SYNCED: &[u8] =
    b"\x05\x00\x0C\x03\x10\x00\x00\x00\x38\x00\x00\x00\x01\x00\x00\x00\xD0\x16\xD0\x16\x01\x00\x00\x00\
\x00\x00\x00\x00\x01\x00\x00\x00\x00\x00\x00\x00\x04\x5D\x88\x8A\xEB\x1C\xC9\x11\x9F\xE8\x08\x00\
\x2B\x10\x48\x60\x02\x00\x00\x00\x05\x00\x02\x03\x10\x00\x00\x00\x1C\x00\x00\x00\x02\x00\x00\x00\
\x04\x00\x00\x00\x00\x00\x00\x00\x00\x00\x00\x00";

/// The same with the number 3.
const TOO_BIG: &[u8] =
    b"\x05\x00\x0C\x03\x10\x00\x00\x00\x38\x00\x00\x00\x01\x00\x00\x00\xD0\x16\xD0\x16\x01\x00\x00\x00\
\x00\x00\x00\x00\x01\x00\x00\x00\x00\x00\x00\x00\x04\x5D\x88\x8A\xEB\x1C\xC9\x11\x9F\xE8\x08\x00\
\x2B\x10\x48\x60\x02\x00\x00\x00\x05\x00\x02\x03\x10\x00\x00\x00\x1C\x00\x00\x00\x02\x00\x00\x00\
\x04\x00\x00\x00\x00\x00\x00\x00\x03\x00\x00\x00";

/// A bind_nak of 21 bytes.
const NAK: &[u8] =
    b"\x05\x00\x0D\x03\x10\x00\x00\x00\x15\x00\x00\x00\x01\x00\x00\x00\x02\x00\x01\x05\x00";

fn run_of(
    words: &'static [&'static str],
    sessions: &'static [&'static [u8]],
    status: Status,
) -> Run<'static> {
    Run {
        words,
        input: b"",
        script: Script {
            pieces: &[500],
            sessions,
            ..STEADY
        },
        status,
    }
}

// A session is asked for and the bind written; of the reply the header is read, then what is behind it; so it is of the call
// and of its reply. The answer is one line. A refused bind ends the run, and so does the end of the bytes.
fn rows() -> [Row; 6] {
    [
        (
            run_of(&["/resync"], &[SYNCED], Status::Done),
            &[(1, "nphhphho")],
        ),
        (
            run_of(
                &["/resync", "/nowait"],
                &[TOO_BIG],
                Status::NotResynced { result: 3 },
            ),
            &[(1, "nphhphho")],
        ),
        (
            run_of(&["/query", "/bits"], &[TOO_BIG], Status::Done),
            &[(1, "nphhphho")],
        ),
        (
            run_of(&["/query", "/source"], &[NAK], Status::PeerRefused),
            &[(1, "nphh")],
        ),
        (
            run_of(&["/query", "/source"], &[b""], Status::PeerRefused),
            &[(1, "nph")],
        ),
        (run_of(&["/resync"], &[], Status::PeerRefused), &[(1, "n")]),
    ]
}

#[test]
fn orders_of_calls(rt: HostRuntime) -> Result<(), Fail> {
    expect_orders(&rt, rt.alloc(), &rows())
}

#[test]
fn each_call_fails_last(rt: HostRuntime) -> Result<(), Fail> {
    expect_all_faults(&rt, rt.alloc(), &rows(), Sessions::Asked)
}
