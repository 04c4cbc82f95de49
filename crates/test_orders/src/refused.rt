//! The order of calls of runs that end otherwise than as Done, though no call of a device fails.
use crate::expected::{Row, Run, Sessions, expect_all_faults, expect_orders};
use dc_sign::Refusal;
use std::test::Fail;
use test_scripts::{NEW_YEAR, SETTINGS, STEADY, Script};
use w32tm_cmd::Status;

/// The controller's own entry is no partner of it.
const ALONE: &[u8] = b"Name=DC1\nRole=Pdc\nRid=1103\n\
    account 1103 000102030405060708090a0b0c0d0e0f\n\
    computer DC1 10.0.0.1:123 S--E\n";

/// A member's Life, and a kind of record that there isn't.
const CAPTURE: &[u8] = b"\x01W32T\x01\xD5\xC0\x36\x69\x05\x00\x00\x00\x00\x00\x00\x09";

/// A keeper whose first slot is open, with this version and this mark.
fn kept(version: u8, mark: u32) -> [u8; 256] {
    let mut image = [0; 256];
    image[0] = 0xA5;
    image[1] = version;
    image[4..8].copy_from_slice(&mark.to_be_bytes());
    image
}

/// A run of one turn over a disk that holds this.
fn member_on(image: [u8; 256], status: Status) -> Run<'static> {
    Run {
        words: &["/member:1", "/config:c", "/keeper:k"],
        input: b"",
        script: Script {
            settings: SETTINGS,
            pieces: &[500],
            readings: &[NEW_YEAR, NEW_YEAR],
            random: &[1],
            image,
            ..STEADY
        },
        status,
    }
}

/// A run of these words over these settings and this input.
fn run_of(
    words: &'static [&'static str],
    settings: &'static [u8],
    input: &'static [u8],
    status: Status,
) -> Run<'static> {
    Run {
        words,
        input,
        script: Script {
            settings,
            pieces: &[500],
            ..STEADY
        },
        status,
    }
}

// - The clock is read before a request of any length is judged, and nothing is written for one that is refused.
// - A bad record ends a replay: no line and no further read.
// - Without a partner nothing is called but the settings.
// - A keeper is loaded by a sync and a read. One of another version ends the run there; one past its last mark ends it
//   behind the Life, before the first turn calls anything.
fn rows() -> [Row; 5] {
    let short = Status::BadRequest {
        reason: Refusal::BadLength,
    };
    let sign = &["/sign:1103:000102030405060708090a0b0c0d0e0f"];
    let replay = &["/replay", "/config:c"];
    let member = &["/member:1", "/config:c", "/keeper:k"];
    let bad = Status::BadCapture { at: 17 };
    [
        (run_of(sign, b"", b"short", short), &[(1, "iitt")]),
        (run_of(replay, SETTINGS, CAPTURE, bad), &[(1, "ggio")]),
        (run_of(member, ALONE, b"", Status::NoPartner), &[(1, "gg")]),
        (member_on(kept(9, 64), Status::BadKeeper), &[(1, "ggyd")]),
        (
            member_on(kept(1, 4_294_967_232), Status::StampsSpent),
            &[(1, "ggyd"), (1, "tco")],
        ),
    ]
}

#[test]
fn orders_of_refusals(rt: HostRuntime) -> Result<(), Fail> {
    expect_orders(&rt, rt.alloc(), &rows())
}

#[test]
fn each_call_fails_last(rt: HostRuntime) -> Result<(), Fail> {
    expect_all_faults(&rt, rt.alloc(), &rows(), Sessions::Asked)
}
