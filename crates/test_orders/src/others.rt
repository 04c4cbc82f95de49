//! The order of calls of the other commands.
use crate::expected::{Row, Run, Sessions, expect_all_faults, expect_orders};
use edge_io::Addr;
use std::test::Fail;
use test_scripts::{Came, LATER, NEW_YEAR, REQUEST, SETTINGS, STEADY, Script};
use w32tm_cmd::Status;

const CLIENT: Addr = Addr {
    ip: 0x0A00_0032,
    port: 40_000,
};

const CONTROLLER: &[u8] = b"Name=DC1\nRole=Controller\nRid=1103\n\
    account 1103 000102030405060708090a0b0c0d0e0f\n";

/// A member's Life, its first Tick, which sends, and an arrival of two bytes.
const CAPTURE: &[u8] = b"\x01W32T\x01\xD5\xC0\x36\x69\x05\x00\x00\x00\x00\x00\x00\
\x02\x01\xD5\xC0\x36\x69\x05\x00\x00\x00\x00\x00\x07\
\x04\x01\xD5\xC0\x36\x69\x05\x00\x00\x0A\x00\x00\x02\x00\x7B\x00\x02\xFF\xFF";

const READINGS: [i64; 8] = [
    NEW_YEAR, LATER, NEW_YEAR, LATER, NEW_YEAR, LATER, NEW_YEAR, LATER,
];

// - A controller reads its settings to their end. A datagram is followed by two readings, and by the reply, unless it is
//   refused; behind the last turn come three lines.
// - A monitor reads its settings; of each computer it reads the clock, draws two words, sends, receives, reads the clock
//   where something came, and prints; behind the last one comes a line.
// - A replay reads its settings, and a record byte by byte before it prints its line.
// - A request is read to its end and the clock twice before the reply is written. Of a message five lines are written.
const ROWS: &[Row] = &[
    (
        Run {
            words: &["/dc:4", "/config:c"],
            input: b"",
            script: Script {
                settings: CONTROLLER,
                pieces: &[500],
                came: &[
                    Came::From(CLIENT, &REQUEST),
                    Came::From(CLIENT, b"short"),
                    Came::Nothing,
                    Came::From(CLIENT, &REQUEST),
                ],
                readings: &READINGS,
                ..STEADY
            },
            status: Status::Done,
        },
        &[
            (1, "gg"),
            (1, "rtts"),
            (1, "rtt"),
            (1, "r"),
            (1, "rtts"),
            (1, "ooo"),
        ],
    ),
    (
        Run {
            words: &["/monitor", "/config:c"],
            input: b"",
            script: Script {
                settings: SETTINGS,
                pieces: &[500],
                came: &[Came::Nothing, Came::From(CLIENT, b"short"), Came::Nothing],
                readings: &READINGS,
                random: &[1, 2, 3, 4, 5, 6],
                ..STEADY
            },
            status: Status::Done,
        },
        &[
            (1, "gg"),
            (1, "teesro"),
            (1, "teesrto"),
            (1, "teesro"),
            (1, "o"),
        ],
    ),
    (
        Run {
            words: &["/replay", "/config:c"],
            input: CAPTURE,
            script: Script {
                settings: SETTINGS,
                pieces: &[500],
                ..STEADY
            },
            status: Status::Done,
        },
        &[(1, "ggioooio")],
    ),
    (
        Run {
            words: &["/sign:1103:000102030405060708090a0b0c0d0e0f"],
            input: &REQUEST,
            script: Script {
                pieces: &[500],
                ..STEADY
            },
            status: Status::Done,
        },
        &[(1, "iitto")],
    ),
    (
        Run {
            words: &[
                "/show:db000ae9000000000000000000000000000000000000000000000000000000000000000000000000\
                0000000100000007",
            ],
            input: b"",
            script: STEADY,
            status: Status::Done,
        },
        &[(1, "ooooo")],
    ),
    (
        Run {
            words: &["/simulate:1:2", "/capture:c"],
            input: b"",
            script: STEADY,
            status: Status::Done,
        },
        &[(1, "ccooo")],
    ),
];

#[test]
fn orders_of_calls(rt: HostRuntime) -> Result<(), Fail> {
    expect_orders(&rt, rt.alloc(), ROWS)
}

#[test]
fn each_call_fails_last(rt: HostRuntime) -> Result<(), Fail> {
    expect_all_faults(&rt, rt.alloc(), ROWS, Sessions::Asked)
}
