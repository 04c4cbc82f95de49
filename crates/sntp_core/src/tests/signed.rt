//! Replies whose checksums were computed outside.
use super::kit::{FIRST, QUICK, R0, Run, Told, same};
use ms_auth::Kind;
use std::alloc::Global;
use std::process::Abort;
use std::test::Fail;

/// When the request with the count 3 and the word 3 was sent.
const T1: i64 = R0 + 20_480_000_000;

/// The header of a server's reply to it, received 3 seconds after `T1` and sent a millisecond after that.
const HEADER: [u8; 48] = *b"\x1C\x01\x0A\xE9\0\0\0\0\0\0\0\0LOCL\xE1\xB6\x67\x83\0\0\0\0\
\0\0\0\x03\0\0\0\x03\xE1\xB6\x67\x83\0\0\0\0\xE1\xB6\x67\x83\0\x41\x89\x38";

// With the header in the file `header`, for the current key 00 01 .. 0F and the previous key 11 .. 11:
// (echo KEY | xxd -r -p; cat header) | openssl md5
const CURRENT_SUM: [u8; 16] = *b"\x69\x29\xC1\xA1\x01\xDF\xD5\xB3\x37\xC5\xC4\x2A\x71\x15\xA1\x7E";

const PREVIOUS_SUM: [u8; 16] = *b"\xC0\x51\x7D\xB1\x1C\x30\x75\x71\xDF\x24\x7C\x38\x58\xC5\xA7\xA1";

// openssl kdf -keylen 64 -kdfopt mac:HMAC -kdfopt digest:SHA512 -kdfopt mode:COUNTER -kdfopt hexkey:KEY
//     -kdfopt salt:sntp-ms -kdfopt hexinfo:4f040000 KBKDF
// and, with the derived key without its colons,
// openssl mac -digest SHA512 -macopt hexkey:DERIVED -in header HMAC
const CURRENT_EXTENDED: [u8; 64] =
    *b"\x3A\xB0\x4A\x2B\xDA\x71\x1D\xC6\xCA\x40\x2C\xF3\x71\x52\x37\x70\
\xE7\xD3\x9D\xF9\x5C\xAA\xC2\xE9\x95\x83\x27\x30\xC0\xAB\xB3\x98\
\xC2\xED\xA8\x0C\xD7\x6E\x94\x9D\xB6\x3A\xC6\x45\x65\x1C\x93\x07\
\x20\x3C\x42\x9A\xBD\xFE\xD0\xF3\x3A\x4D\x11\xD5\x51\x52\xDA\x36";

const PREVIOUS_EXTENDED: [u8; 64] =
    *b"\xB4\xFD\x1A\x8D\x29\x8B\x7C\x65\xF7\x79\x18\x78\x24\x21\x11\x43\
\x1F\x40\x11\xFA\xEB\x11\xDA\x63\x00\x91\x29\x0B\x7D\xF0\x3F\xB3\
\x82\x55\xFC\x7C\xE0\x2B\x59\x86\x05\xD0\xD6\x48\x7E\xF6\x4D\xDB\
\x6D\x77\x73\xBD\x14\xB3\x2C\x3C\xC3\x90\x72\xB0\xD0\xB6\xAA\x2D";

/// What a member of this kind answers to these bytes, which come 2,010,000 ticks after its request: its last line.
fn line_for(alloc: Global, kind: Kind, bytes: &[u8]) -> Result<Vec<u8>, Fail> {
    let mut run = Run::new(alloc, kind, QUICK, &[FIRST])?;
    run.tell_all(&[Told::Life(R0, 2), Told::Tick(T1, 3), Told::Forget])?;
    run.arrive(T1 + 2_010_000, FIRST, bytes)?;
    Ok(run.report)
}

fn expect_line(
    rt: &impl Abort,
    alloc: Global,
    kind: Kind,
    bytes: &[u8],
    want: &[u8],
) -> Result<(), Fail> {
    let found = line_for(alloc, kind, bytes)?;
    same(rt, &found.as_slice(), &want, &bytes);
    Ok(())
}

const MOVED: &[u8] = b"moved n=3 offset=29000000 by=slew\n";

const KEY_ID: &[u8] = b"refused reason=BadKeyId\n";

const DIGEST: &[u8] = b"refused reason=BadDigest\n";

const LENGTH: &[u8] = b"refused reason=BadLength\n";

/// A checksum, a byte that is changed, what stands there, and the line.
type Row<'a> = (&'a [u8], usize, u8, &'static [u8]);

// The changed byte is one of the tail, which the digest doesn't cover, or of the checksum.
const SHORT: &[Row<'static>] = &[
    (&CURRENT_SUM, 0, 0x1C, MOVED),
    (&PREVIOUS_SUM, 0, 0x1C, MOVED),
    (&CURRENT_SUM, 51, 0x80, MOVED),
    (&CURRENT_SUM, 48, 0x50, KEY_ID),
    (&CURRENT_SUM, 67, 0x7F, DIGEST),
    (&PREVIOUS_SUM, 52, 0xC1, DIGEST),
    (&[0; 16], 0, 0x1C, DIGEST),
];

const EXTENDED: &[Row<'static>] = &[
    (&CURRENT_EXTENDED, 0, 0x1C, MOVED),
    (&PREVIOUS_EXTENDED, 0, 0x1C, MOVED),
    (&CURRENT_EXTENDED, 52, 1, MOVED),
    (&CURRENT_EXTENDED, 53, 1, MOVED),
    (&CURRENT_EXTENDED, 54, 0, MOVED),
    (&CURRENT_EXTENDED, 51, 0x80, KEY_ID),
    (&CURRENT_EXTENDED, 55, 0, KEY_ID),
    (&CURRENT_EXTENDED, 119, 0x37, DIGEST),
    (&[0; 64], 0, 0x1C, DIGEST),
];

/// The header, the front of a tail and a checksum, where one byte is changed.
fn bytes_of(alloc: Global, front: &[u8], row: &Row) -> Result<Vec<u8>, Fail> {
    let (sum, place, byte, _) = *row;
    let mut bytes = HEADER.to_vec(alloc)?;
    bytes.extend_from_slice(front)?;
    bytes.extend_from_slice(sum)?;
    match bytes.get_mut(place) {
        Some(changed) => *changed = byte,
        None => return Err(Fail::from("no such byte")),
    }
    Ok(bytes)
}

/// A member of this kind answers so to the bytes of each row, and one of the other kind finds their length bad.
fn expect_rows(
    rt: &impl Abort,
    alloc: Global,
    kinds: [Kind; 2],
    front: &[u8],
    rows: &[Row],
) -> Result<(), Fail> {
    for row in rows {
        let bytes = bytes_of(alloc, front, row)?;
        expect_line(rt, alloc, kinds[0], &bytes, row.3)?;
        expect_line(rt, alloc, kinds[1], &bytes, LENGTH)?;
    }
    Ok(())
}

#[test]
fn short_replies(rt: HostRuntime) -> Result<(), Fail> {
    let kinds = [Kind::Short, Kind::Extended];
    expect_rows(&rt, rt.alloc(), kinds, b"\x4F\x04\0\0", SHORT)
}

#[test]
fn extended_replies(rt: HostRuntime) -> Result<(), Fail> {
    let kinds = [Kind::Extended, Kind::Short];
    let front = b"\x4F\x04\0\0\0\0\x01\x01";
    expect_rows(&rt, rt.alloc(), kinds, front, EXTENDED)
}
