//! Worked messages, computed outside.
use super::*;
use ntp_wire::Stamp;

/// The timestamp of the sample request: count 1, random word 7.
const STAMP: Stamp = Stamp {
    seconds: 1,
    fraction: 7,
};

/// The header of the sample request.
const HEADER: [u8; 48] =
    *b"\xDB\0\x0A\xE9\0\0\0\0\0\0\0\0\0\0\0\0\0\0\0\0\0\0\0\0\0\0\0\0\0\0\0\0\0\0\0\0\0\0\0\0\0\0\0\x01\0\0\0\x07";

#[test]
fn other_lengths_are_bad(rt: HostRuntime) {
    let bytes = [0; 256];
    for len in [67, 69, 72, 119, 121, 256] {
        assert!(rt; len <= bytes.len());
        assert_eq!(rt; read_packet(&bytes[..len]), Err(BadLength));
    }
    for len in [48, 68, 120] {
        assert!(rt; len <= bytes.len());
        assert!(rt; read_packet(&bytes[..len]).is_ok());
    }
}

// The key 00 01 .. 0F.
const KEY: [u8; 16] = [0, 1, 2, 3, 4, 5, 6, 7, 8, 9, 10, 11, 12, 13, 14, 15];

/// The checksum of the sample request under that key, for the greatest RID.
// With the header in the file `header`, it was computed by
// openssl kdf -keylen 64 -kdfopt mac:HMAC -kdfopt digest:SHA512 -kdfopt mode:COUNTER
//     -kdfopt hexkey:000102030405060708090a0b0c0d0e0f -kdfopt salt:sntp-ms -kdfopt hexinfo:ffffffff KBKDF
// and, with the derived key without its colons, by
// openssl mac -digest SHA512 -macopt hexkey:DERIVED -in header HMAC
const EXTENDED_SUM: [u8; 64] = *b"\x8E\x00\x48\x46\x1C\x6B\xF6\xDA\x43\xD1\xBA\x93\xE9\x2B\x23\xE0\
\x5C\x40\x50\xA7\x46\x19\x82\x39\xC1\x9B\x4C\xFE\x43\xD8\x7B\x88\
\x53\xFE\xDB\x7E\x02\xFD\x00\x7B\x52\xA4\x22\x59\x14\x70\x28\x06\
\xBA\xA3\x9E\x34\xC6\x5E\x6E\x00\xAD\xDE\x62\x0B\xF9\x71\x60\x0B";

/// The checksum of the sample request under that key as a short message.
// (printf '\0\1\2\3\4\5\6\7\10\11\12\13\14\15\16\17'; cat header) | openssl dgst -md5
const SHORT_SUM: [u8; 16] = *b"\xDB\xCB\xB7\xC9\x54\xA3\x29\x27\xD0\x1B\x87\x83\xAF\x61\xCB\xF6";

#[test]
fn extended_tail_of_the_greatest_rid(rt: HostRuntime) {
    let extended = request(Kind::Extended, u32::MAX, 10, STAMP);
    let mut bytes = [0; 120];
    bytes[..48].copy_from_slice(&HEADER);
    bytes[48..56].copy_from_slice(b"\xFF\xFF\xFF\xFF\0\0\x01\0");
    assert_eq!(rt; write_packet(&extended).as_slice(), bytes.as_slice());
    assert_eq!(rt; read_packet(&bytes), Ok(extended));

    let signed = sign(&extended, &KEY);
    bytes[56..].copy_from_slice(&EXTENDED_SUM);
    assert_eq!(rt; write_packet(&signed).as_slice(), bytes.as_slice());
    assert!(rt; check(&signed, &KEY));
    assert!(rt; !check(&extended, &KEY));
    assert!(rt; !check(&signed, &[0; 16]));
}

#[test]
fn short_tail_that_asks_for_the_previous_key(rt: HostRuntime) {
    let header = request(Kind::Short, 1103, 10, STAMP).header;
    let asks_for_previous = Packet {
        header,
        tail: Tail::Short68 {
            key_id: 2_147_483_647 | 1 << 31,
            sum: [0; 16],
        },
    };
    let mut bytes = [0; 68];
    bytes[..48].copy_from_slice(&HEADER);
    bytes[48..52].copy_from_slice(b"\xFF\xFF\xFF\xFF");
    assert_eq!(rt;
        write_packet(&asks_for_previous).as_slice(),
        bytes.as_slice()
    );
    assert_eq!(rt; read_packet(&bytes), Ok(asks_for_previous));
}

#[test]
fn short_request_signed(rt: HostRuntime) {
    let unsigned = request(Kind::Short, 1103, 10, STAMP);
    let signed = sign(&unsigned, &KEY);
    let mut bytes = [0; 68];
    bytes[..48].copy_from_slice(&HEADER);
    bytes[48..52].copy_from_slice(b"\x4F\x04\0\0");
    bytes[52..].copy_from_slice(&SHORT_SUM);
    assert_eq!(rt; write_packet(&signed).as_slice(), bytes.as_slice());
    assert!(rt; check(&signed, &KEY));
    assert!(rt; !check(&unsigned, &KEY));
    assert!(rt; !check(&signed, &[0; 16]));

    let plain = Packet {
        header: signed.header,
        tail: Tail::Plain,
    };
    assert_eq!(rt; sign(&plain, &KEY), plain);
    assert!(rt; !check(&plain, &KEY));
    assert_eq!(rt; write_packet(&plain).as_slice(), HEADER.as_slice());
}

#[test]
fn ready_keys(rt: HostRuntime) {
    let header = request(Kind::Short, 1103, 10, STAMP).header;
    let ready = Ready::new(Kind::Short, 1103, &KEY);
    let other = Ready::new(Kind::Short, 1103, &[0; 16]);
    for (sum, want) in [(SHORT_SUM, true), ([0; 16], false)] {
        let tail = Tail::Short68 { key_id: 1103, sum };
        let message = Packet { header, tail };
        assert_eq!(rt; ready.check(&message), want);
        assert!(rt; !other.check(&message));
    }

    let ready = Ready::new(Kind::Extended, u32::MAX, &KEY);
    let other = Ready::new(Kind::Extended, u32::MAX, &[0; 16]);
    for (sum, want) in [(EXTENDED_SUM, true), ([0; 64], false)] {
        let tail = Tail::Ext120 {
            rid: u32::MAX,
            reserved: 0,
            flags: 0,
            hints: HASH_HINTS,
            hash: 0,
            sum,
        };
        let message = Packet { header, tail };
        assert_eq!(rt; ready.check(&message), want);
        assert!(rt; !other.check(&message));
    }
}
