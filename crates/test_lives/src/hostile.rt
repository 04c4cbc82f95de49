//! Replies of which one bit was turned, and a reply from a stranger.
ghost use Rattle.std.specs.Prelude.{All, IfOk};
ghost use Rattle.base_specs.specs.Time.{IsReading};
ghost use Rattle.edge_io.specs.LinkScript.{IsNoFailure};

use crate::asserts::same;
use crate::lives::{Failing, Ran, conf_of, objects_of, readings_among, take_turns};
use edge_io::{Addr, Datagram, Move, Receipt};
use member_run::Why;
use std::alloc::{AllocError, Global};
use std::process::Abort;
use std::test::Fail;

/// 1 January 2020, in ticks.
const R0: i64 = 132_223_104_000_000_000;

/// The partner that is asked.
const PARTNER: Addr = Addr {
    ip: 0x0A00_0002,
    port: 123,
};

/// Another port of its host.
const STRANGER: Addr = Addr {
    ip: 0x0A00_0002,
    port: 124,
};

// The reply to the request with the count 1 and the word 1, which was sent at `R0`: received 3 seconds later by the
// server's clock and sent a millisecond after that. With the header in the file `header` and the key 00 01 .. 0F the
// checksum is (echo KEY | xxd -r -p; cat header) | openssl md5
pub(crate) const REPLY: [u8; 68] = *b"\x1C\x01\x0A\xE9\0\0\0\0\0\0\0\0LOCL\xE1\xB6\x5F\x83\0\0\0\0\
\0\0\0\x01\0\0\0\x01\xE1\xB6\x5F\x83\0\0\0\0\xE1\xB6\x5F\x83\0\x41\x89\x38\x4F\x04\0\0\
\x03\xE3\xE7\x6B\x68\xEB\xCD\x6E\xA7\xEF\x5F\x1F\xCA\x67\x72\xB2";

/// How many datagrams come in a run, one a turn.
const TURNS: u32 = 71;

const MODE: &str = "refused reason=BadMode\n";

const STRATUM: &str = "refused reason=BadStratum\n";

const REQUEST: &str = "refused reason=NoRequest\n";

const KEY: &str = "refused reason=BadKeyId\n";

const DIGEST: &str = "refused reason=BadDigest\n";

const SOURCE: &str = "refused reason=BadSource\n";

const MOVED: &str = "moved n=1 offset=29000000 by=slew\n";

/// Bits, each of which is turned in a run of its own; then the lines of the 71 datagrams, each with how often it comes.
type Row = (&'static [u8], &'static [(u32, &'static str)]);

// The mode is in the lowest three bits of byte 0, and the leap indicator, which is refused as 3 alone, in the highest
// two. The stratum, in byte 1, is 1 and may be up to 15. The originate timestamp is in the bytes 24 to 31, and the key
// identifier in 48 to 51, lowest byte first. Every other byte of the header is looked at by the digest alone, and the
// checksum is the rest.
//
// Bit 31 of the key identifier says which key is asked for. It is not looked at, and the digest does not cover the tail:
// so that reply is accepted, and from then on no request is open.
const TURNED: &[Row] = &[
    (
        &[0x01],
        &[
            (1, MODE),
            (1, STRATUM),
            (22, DIGEST),
            (8, REQUEST),
            (16, DIGEST),
            (4, KEY),
            (16, DIGEST),
            (1, SOURCE),
            (1, MOVED),
            (1, REQUEST),
        ],
    ),
    (
        &[0x02, 0x04],
        &[
            (1, MODE),
            (23, DIGEST),
            (8, REQUEST),
            (16, DIGEST),
            (4, KEY),
            (16, DIGEST),
            (1, SOURCE),
            (1, MOVED),
            (1, REQUEST),
        ],
    ),
    (
        &[0x08],
        &[
            (24, DIGEST),
            (8, REQUEST),
            (16, DIGEST),
            (4, KEY),
            (16, DIGEST),
            (1, SOURCE),
            (1, MOVED),
            (1, REQUEST),
        ],
    ),
    (
        &[0x10, 0x20, 0x40],
        &[
            (1, DIGEST),
            (1, STRATUM),
            (22, DIGEST),
            (8, REQUEST),
            (16, DIGEST),
            (4, KEY),
            (16, DIGEST),
            (1, SOURCE),
            (1, MOVED),
            (1, REQUEST),
        ],
    ),
    (
        &[0x80],
        &[
            (1, DIGEST),
            (1, STRATUM),
            (22, DIGEST),
            (8, REQUEST),
            (16, DIGEST),
            (3, KEY),
            (1, MOVED),
            (16, REQUEST),
            (1, SOURCE),
            (2, REQUEST),
        ],
    ),
];

/// The reply with this bit of the byte at this place turned.
fn turned_at(place: usize, bit: u8) -> Datagram {
    let mut bytes = REPLY;
    if let Some(byte) = bytes.get_mut(place) {
        *byte ^= bit;
    }
    Datagram::from_slice(&bytes)
}

/// The reply with this bit turned in each byte, one after the other; then the true one, from a stranger, from the
/// partner, and once more.
fn receipts_of(alloc: Global, bit: u8) -> Result<Vec<Receipt>, AllocError>
    ensures { IfOk result (λ receipts. All IsNoFailure receipts.items) }
{
    let mut receipts = Vec::new(alloc);
    for place in 0..68usize {
        receipts.push(Receipt::Got(PARTNER, turned_at(place, bit)))?;
    }
    receipts.push(Receipt::Got(STRANGER, Datagram::from_slice(&REPLY)))?;
    receipts.push(Receipt::Got(PARTNER, Datagram::from_slice(&REPLY)))?;
    receipts.push(Receipt::Got(PARTNER, Datagram::from_slice(&REPLY)))?;
    Ok(receipts)
}

/// One reading for the Life and one for the first Tick, which sends; then, 0.201 seconds later, all the others.
fn readings_of(alloc: Global) -> Result<Vec<i64>, AllocError>
    ensures { IfOk result (λ readings. All IsReading readings.items) }
{
    let mut readings = [R0 + 2_010_000; 143];
    readings[0] = R0;
    readings[1] = R0;
    readings_among(alloc, &readings)
}

/// How a run ended in which this bit is turned, and the objects behind it.
fn run(alloc: Global, bit: u8) -> Result<Ran, Fail> {
    let receipts = receipts_of(alloc, bit)?;
    let readings = readings_of(alloc)?;
    let conf = conf_of(alloc)?;
    let objects = objects_of(alloc, receipts, readings, Failing::default())?;
    Ok(take_turns(conf, TURNS, objects))
}

pub(crate) fn add_times(text: &mut Vec<u8>, times: u32, line: &str) -> Result<(), AllocError> {
    for _ in 0..times {
        text.extend_from_slice(line.as_bytes())?;
    }
    Ok(())
}

/// What such a run prints.
fn report_of(alloc: Global, lines: &[(u32, &'static str)]) -> Result<Vec<u8>, AllocError> {
    let mut text = Vec::new(alloc);
    text.extend_from_slice(b"life mark=0\nsend n=1 to=10.0.0.2:123\n")?;
    for (times, line) in lines {
        add_times(&mut text, *times, line)?;
    }
    text.extend_from_slice(b"total sent=1 moved=1 refused=70\nlink quiet=0 lost=0\n")?;
    Ok(text)
}

/// The run prints this, and moves the clock once.
fn expect_moved_once(rt: &impl Abort, bit: u8, report: &[u8], ran: &Ran) {
    let got = (ran.end.why, ran.end.moved, ran.end.refused);
    same(rt, &got, &(Why::Done, 1, 70), &bit);
    same(rt, &ran.objects.out.bytes(), &report, &bit);
    let moves = [Move::Slew(29_000_000)];
    same(rt, &ran.objects.clock.moves(), &moves.as_slice(), &bit);
    same(rt, &ran.objects.link.sends().len(), &1, &bit);
}

fn expect_row(rt: &impl Abort, alloc: Global, row: &Row) -> Result<(), Fail> {
    let (bits, lines) = *row;
    let report = report_of(alloc, lines)?;
    for bit in bits {
        let ran = run(alloc, *bit)?;
        expect_moved_once(rt, *bit, &report, &ran);
    }
    Ok(())
}

// Each bit of a signed reply is turned. None of these replies moves the clock but the one in which what was turned is not
// looked at; and the reply itself moves it once, and not from a stranger.
#[test]
fn replies_with_a_bit_turned(rt: HostRuntime) -> Result<(), Fail> {
    for row in TURNED {
        expect_row(&rt, rt.alloc(), row)?;
    }
    Ok(())
}
