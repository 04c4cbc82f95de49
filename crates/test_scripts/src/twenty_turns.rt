//! A run of a member that is seen by two commands: `/member` makes its capture, and `/replay` reads it.
use crate::NEW_YEAR;
use std::alloc::Global;
use std::test::Fail;

/// The settings of the member. Its partners are DC2, DC1 and DC3, in this order.
pub const SETTINGS: &[u8] = b"Name=WS1\nRole=Member\nRid=1103\n\
    account 1103 000102030405060708090a0b0c0d0e0f\n\
    computer DC1 10.0.0.1:123 S---\ncomputer DC2 10.0.0.2:123 S--E\ncomputer DC3 10.0.0.3:123 -R--\n";

/// The shortest interval of such a member.
pub const INTERVAL: i64 = 10_240_000_000;

/// The reply to the request with the count 3 and the word 3, which was sent two intervals after the first reading.
///
/// Its checksum is the MD5 of the key 00..0F and the 48 bytes of the header before it, as OpenSSL computes it from their
/// hexadecimal digits: `echo KEY HEADER | xxd -r -p | openssl md5`.
pub const THIRD: [u8; 68] =
    *b"\x1C\x01\x0A\xE9\x00\x00\x00\x00\x00\x00\x00\x00LOCL\xE1\xB6\x67\x83\x00\x00\x00\x00\
\x00\x00\x00\x03\x00\x00\x00\x03\xE1\xB6\x67\x83\x00\x00\x00\x00\xE1\xB6\x67\x83\x00\x41\x89\x38\
\x4F\x04\x00\x00\x69\x29\xC1\xA1\x01\xDF\xD5\xB3\x37\xC5\xC4\x2A\x71\x15\xA1\x7E";

/// The record of its Life.
const LIFE: [u8; 17] = *b"\x01W32T\x01\xD5\xC0\x36\x69\x05\x00\x00\x00\x00\x00\x00";

/// Adds the record of a Tick.
fn add_tick(bytes: &mut Vec<u8>, now: i64, word: u32) -> Result<(), Fail> {
    bytes.push(2)?;
    bytes.extend_from_slice(&now.to_be_bytes())?;
    bytes.extend_from_slice(&word.to_be_bytes())?;
    Ok(())
}

/// Adds the record of an arrival from the first partner, the last byte of whose length is `len`.
fn add_arrival(bytes: &mut Vec<u8>, now: i64, len: u8, datagram: &[u8]) -> Result<(), Fail> {
    bytes.push(4)?;
    bytes.extend_from_slice(&now.to_be_bytes())?;
    bytes.extend_from_slice(b"\x0A\x00\x00\x02\x00\x7B\x00")?;
    bytes.push(len)?;
    bytes.extend_from_slice(datagram)?;
    Ok(())
}

/// Twenty turns, of which the second gets ten bytes and the third a signed reply: 389 bytes.
pub fn realistic_capture(alloc: Global) -> Result<Vec<u8>, Fail> {
    let mut bytes = LIFE.to_vec(alloc)?;
    for turn in 1..21u32 {
        let now = NEW_YEAR + i64::from(turn - 1) * INTERVAL;
        add_tick(&mut bytes, now, turn)?;
        if turn == 2 {
            add_arrival(&mut bytes, now + 10_000, 10, &[0; 10])?;
        }
        if turn == 3 {
            add_arrival(&mut bytes, now + 2_010_000, 68, &THIRD)?;
        }
    }
    Ok(bytes)
}

/// Its report. The fourth turn sends nothing, and has no line.
pub const REALISTIC: &[u8] = b"life mark=0\n\
send n=1 to=10.0.0.2:123\n\
send n=2 to=10.0.0.2:123\n\
refused reason=BadLength\n\
send n=3 to=10.0.0.2:123\n\
moved n=3 offset=29000000 by=slew\n\
send n=4 to=10.0.0.2:123\n\
send n=5 to=10.0.0.2:123\n\
send n=6 to=10.0.0.2:123\n\
send n=7 to=10.0.0.2:123\n\
send n=8 to=10.0.0.2:123\n\
send n=9 to=10.0.0.2:123\n\
send n=10 to=10.0.0.2:123\n\
send n=11 to=10.0.0.2:123\n\
send n=12 to=10.0.0.1:123\n\
send n=13 to=10.0.0.1:123\n\
send n=14 to=10.0.0.1:123\n\
send n=15 to=10.0.0.1:123\n\
send n=16 to=10.0.0.1:123\n\
send n=17 to=10.0.0.1:123\n\
send n=18 to=10.0.0.1:123\n\
send n=19 to=10.0.0.1:123\n\
total sent=19 moved=1 refused=1\n";
