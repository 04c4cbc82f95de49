//! The order of calls of `/member`.
use crate::expected::{Part, Run, Sessions, expect_faults, expect_order, word_of};
use edge_io::Addr;
use std::alloc::{AllocError, Global};
use std::test::Fail;
use test_scripts::{Came, Device, INTERVAL, NEW_YEAR, SETTINGS, STEADY, Script, THIRD};
use w32tm_cmd::Status;

/// How many turns the run takes: its 65th request is that of turn 67.
const TURNS: u32 = 68;

const PEER: Addr = Addr {
    ip: 0x0A00_0002,
    port: 123,
};

// The replies to the requests of the turns 5 and 6, by a clock that is an hour, and then a second ahead. Their checksums are
// those of the key 00..0F and the 48 bytes of the header: `echo KEY HEADER | xxd -r -p | openssl md5`.
const FOURTH: [u8; 68] = *b"\x1C\x01\x0A\xE9\0\0\0\0\0\0\0\0LOCL\xE1\xB6\x7D\x90\0\0\0\0\
\0\0\0\x04\0\0\0\x05\xE1\xB6\x7D\x90\0\0\0\0\xE1\xB6\x7D\x90\0\x41\x89\x38\x4F\x04\0\0\
\x50\xDA\x10\x6D\x23\xA9\x50\xDF\xC2\x9B\xEB\x51\x74\x8E\xFC\x92";

const FIFTH: [u8; 68] = *b"\x1C\x01\x0A\xE9\0\0\0\0\0\0\0\0LOCL\xE1\xB6\x73\x81\0\0\0\0\
\0\0\0\x05\0\0\0\x06\xE1\xB6\x73\x81\0\0\0\0\xE1\xB6\x73\x81\0\x41\x89\x38\x4F\x04\0\0\
\x24\xDF\x5B\xE8\x40\x95\x2B\xFB\x49\x39\x65\xE1\x1A\x83\x36\xF3";

/// Nothing, ten bytes, a reply, nothing, and two replies.
const RECEIPTS: [Came<'static>; 6] = [
    Came::Nothing,
    Came::From(PEER, &[0; 10]),
    Came::From(PEER, &THIRD),
    Came::Nothing,
    Came::From(PEER, &FOURTH),
    Came::From(PEER, &FIFTH),
];

/// The receipt of turn 8 fails, and the send of turn 9: the 14th and the 15th call of the link.
const FAILING: &[(Device, u64)] = &[(Device::Link, 14), (Device::Link, 15)];

const WORDS: &[&str] = &["/member:68", "/config:c", "/keeper:k", "/capture:c"];

// A load syncs and reads the disk; the Life is read, recorded and printed. Of each turn: where no count is left, the mark
// is written and synced and then the gate; a reading and a word, the record of the Tick, its request and its line, the
// receipt; behind a datagram a reading, the record, the correction, and the line. A turn less than 1,024 seconds behind the
// last reply sends nothing and has no line.
const CALLS: &[Part] = &[
    (1, "ggydtco"),
    (1, "wywytecsor"),
    (1, "tecsortco"),
    (1, "tecsortcmo"),
    (1, "tecr"),
    (2, "tecsortcmo"),
    (1, "tecr"),
    (59, "tecsor"),
    (1, "wywytecsor"),
    (1, "tecsor"),
    (1, "oo"),
];

/// The readings: one for the Life, one a turn, and one behind each of the four datagrams.
fn readings_of(alloc: Global) -> Result<Vec<i64>, AllocError> {
    let mut readings = Vec::new(alloc);
    readings.push(NEW_YEAR)?;
    for turn in 0..TURNS {
        let now = NEW_YEAR + i64::from(turn) * INTERVAL;
        readings.push(now)?;
        if turn == 1 || turn == 2 || turn == 4 || turn == 5 {
            readings.push(now + 2_010_000)?;
        }
    }
    Ok(readings)
}

fn words_of(alloc: Global) -> Result<Vec<u32>, AllocError> {
    let mut words = Vec::new(alloc);
    for word in 1..69 {
        words.push(word)?;
    }
    Ok(words)
}

fn run_of<'a>(readings: &'a [i64], random: &'a [u32]) -> Run<'a> {
    Run {
        words: WORDS,
        input: b"",
        script: Script {
            settings: SETTINGS,
            pieces: &[500],
            came: &RECEIPTS,
            readings,
            random,
            failing: FAILING,
            room: 4_000,
            ..STEADY
        },
        status: Status::Done,
    }
}

#[test]
fn order_of_calls(rt: HostRuntime) -> Result<(), Fail> {
    let alloc = rt.alloc();
    let readings = readings_of(alloc)?;
    let random = words_of(alloc)?;
    let word = word_of(alloc, CALLS)?;
    expect_order(&rt, alloc, &run_of(&readings, &random), &word)
}

#[test]
fn each_call_fails_last(rt: HostRuntime) -> Result<(), Fail> {
    let alloc = rt.alloc();
    let readings = readings_of(alloc)?;
    let random = words_of(alloc)?;
    let word = word_of(alloc, CALLS)?;
    expect_faults(
        &rt,
        alloc,
        &run_of(&readings, &random),
        &word,
        Sessions::Asked,
    )
}
