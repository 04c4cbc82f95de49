//! The order of calls of `/service`.
use crate::expected::{Row, Run, Sessions, expect_all_faults, expect_orders};
use edge_io::Addr;
use std::test::Fail;
use test_scripts::{Came, NEW_YEAR, STEADY, Script};
use w32tm_cmd::Status;

const SETTINGS: &[u8] = b"Name=WS1\nRole=Member\nRid=1103\n\
    account 1103 000102030405060708090a0b0c0d0e0f\ncomputer DC1 10.0.0.1:123 S---\n";

/// A bind of the interface with NDR, a sync with wait 1 and flags 2, and the source: 72, 32 and 24 bytes. The bind is that of
/// `messages.rt` in `test_ask`, the calls are those of `bytes.rt` in `test_service`.
const ALL: &[u8] =
    b"\x05\x00\x0B\x03\x10\x00\x00\x00\x48\x00\x00\x00\x01\x00\x00\x00\xD0\x16\xD0\x16\x00\x00\x00\x00\
\x01\x00\x00\x00\x00\x00\x01\x00\x84\xD8\xB6\x8F\x88\x23\xD0\x11\x8C\x35\x00\xC0\x4F\xDA\x27\x95\
\x04\x00\x01\x00\x04\x5D\x88\x8A\xEB\x1C\xC9\x11\x9F\xE8\x08\x00\x2B\x10\x48\x60\x02\x00\x00\x00\
\x05\x00\x00\x03\x10\x00\x00\x00\x20\x00\x00\x00\x02\x00\x00\x00\x08\x00\x00\x00\x00\x00\x00\x00\
\x01\x00\x00\x00\x02\x00\x00\x00\
\x05\x00\x00\x03\x10\x00\x00\x00\x18\x00\x00\x00\x03\x00\x00\x00\x00\x00\x00\x00\x00\x00\x03\x00";

/// A call without a bind, and a header of version 6.
const UNBOUND: &[u8] =
    b"\x05\x00\x00\x03\x10\x00\x00\x00\x18\x00\x00\x00\x01\x00\x00\x00\x00\x00\x00\x00\x00\x00\x01\x00";

const BAD: &[u8] = b"\x06\x00\x00\x03\x10\x00\x00\x00\x10\x00\x00\x00\x07\x00\x00\x00";

/// The partner's reply, that of `bytes.rt` in `test_service`.
const REPLY: &[u8] =
    b"\x1C\x01\x0A\xE9\x00\x00\x00\x00\x00\x00\x00\x00\x4C\x4F\x43\x4C\xE1\xB6\x5F\x83\x00\x00\x00\
\x00\x00\x00\x00\x01\x00\x00\x00\x01\xE1\xB6\x5F\x83\x00\x00\x00\x00\xE1\xB6\x5F\x83\x00\x41\
\x89\x38\x4F\x04\x00\x00\x03\xE3\xE7\x6B\x68\xEB\xCD\x6E\xA7\xEF\x5F\x1F\xCA\x67\x72\xB2";

const PEER: Addr = Addr {
    ip: 0x0A00_0001,
    port: 123,
};

/// A keeper past its last mark.
fn used_up() -> [u8; 256] {
    let mut image = [0; 256];
    image[0] = 0xA5;
    image[1] = 1;
    image[4..8].copy_from_slice(&u32::to_be_bytes(4_294_967_232));
    image
}

fn run_of(
    sessions: &'static [&'static [u8]],
    came: &'static [Came<'static>],
    image: [u8; 256],
    status: Status,
) -> Run<'static> {
    Run {
        words: &["/service:2", "/config:c", "/keeper:k", "/capture:d"],
        input: b"",
        script: Script {
            settings: SETTINGS,
            pieces: &[500],
            came,
            readings: &[NEW_YEAR, NEW_YEAR, NEW_YEAR + 2_010_000],
            random: &[1],
            image,
            sessions,
            ..STEADY
        },
        status,
    }
}

// The settings are read, and the keeper is loaded, before the Life is read, recorded and printed. Then a session is asked for.
// - Of a PDU the header is read, and then what is behind it; what answers it is one write. Before the request of a sync its
//   counts are reserved; it is recorded, sent and printed, and its round taken, before the sync is answered. At the end of the
//   bytes the session's line is printed, before the next session is asked for.
// - Each of two sessions has its line, and no third is asked for. A header of another version is answered by a fault.
// - Where no more come, the closing lines are printed.
fn rows() -> [Row; 3] {
    [
        (
            run_of(
                &[ALL],
                &[Came::Nothing, Came::From(PEER, REPLY)],
                [0; 256],
                Status::Done,
            ),
            &[
                (1, "ggydtco"),
                (1, "nhhp"),
                (1, "hhwywytecsorp"),
                (1, "hhph"),
                (1, "o"),
                (1, "n"),
                (1, "oo"),
            ],
        ),
        (
            run_of(&[BAD, UNBOUND, UNBOUND], &[], [0; 256], Status::Done),
            &[(1, "ggydtco"), (1, "nhpo"), (1, "nhhpho"), (1, "oo")],
        ),
        (
            run_of(&[], &[], [0; 256], Status::Done),
            &[(1, "ggydtco"), (1, "n"), (1, "oo")],
        ),
    ]
}

#[test]
fn orders_of_calls(rt: HostRuntime) -> Result<(), Fail> {
    expect_orders(&rt, rt.alloc(), &rows())
}

#[test]
fn each_call_fails_last(rt: HostRuntime) -> Result<(), Fail> {
    expect_all_faults(&rt, rt.alloc(), &rows(), Sessions::Served)
}

// A reply ends the round; it is read, recorded, and its correction made, before its line. Where the counts are used up, the
// call for a request ends the run.
fn other_rows() -> [Row; 2] {
    [
        (
            run_of(&[ALL], &[Came::From(PEER, REPLY)], [0; 256], Status::Done),
            &[
                (1, "ggydtco"),
                (1, "nhhp"),
                (1, "hhwywytecsortcmop"),
                (1, "hhph"),
                (1, "o"),
                (1, "n"),
                (1, "oo"),
            ],
        ),
        (
            run_of(&[ALL], &[], used_up(), Status::StampsSpent),
            &[(1, "ggydtco"), (1, "nhhp"), (1, "hh")],
        ),
    ]
}

#[test]
fn orders_of_other_ends(rt: HostRuntime) -> Result<(), Fail> {
    expect_orders(&rt, rt.alloc(), &other_rows())
}
