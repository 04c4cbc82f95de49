//! The sample requests with their replies, and what is refused.
use super::*;
use key_book::Account;
use ms_auth::{check, read_packet};
use std::process::Abort;

// The first moment of 2020, in ticks.
const NEW_YEAR: i64 = 132_223_104_000_000_000;

// Bytes of the requests that tests change.
const FIRST: usize = 0;

const RID: usize = 48;

const KEY_BITS: usize = 51;

const FLAGS: usize = 53;

// The header of a client's request.
const HEADER: [u8; 48] = [
    0xDB, 0x00, 0x0A, 0xE9, 0, 0, 0, 0, 0, 0, 0, 0, 0, 0, 0, 0, 0, 0, 0, 0, 0, 0, 0, 0, 0, 0, 0, 0,
    0, 0, 0, 0, 0, 0, 0, 0, 0, 0, 0, 0, 0x00, 0x00, 0x00, 0x01, 0x00, 0x00, 0x00, 0x07,
];

// The header of its reply.
const REPLY_HEADER: [u8; 48] = [
    0x1C, 0x01, 0x0A, 0xE9, 0, 0, 0, 0, 0, 0, 0, 0, 0x4C, 0x4F, 0x43, 0x4C, 0xE1, 0xB6, 0x5F, 0x80,
    0, 0, 0, 0, 0x00, 0x00, 0x00, 0x01, 0x00, 0x00, 0x00, 0x07, 0xE1, 0xB6, 0x5F, 0x80, 0, 0, 0, 0,
    0xE1, 0xB6, 0x5F, 0x80, 0x00, 0x41, 0x89, 0x38,
];

// The checksum of that header under the key 00..00 for the RID 1103.
const SUM: [u8; 64] =
    *b"\x80\xE9\x3B\x24\x1F\xE2\x60\xF7\xE0\x58\xFC\xFE\x8B\x0F\xE9\xBE\x27\x7C\xAE\xE4\xB5\xC6\xFE\xE0\xC0\x2F\xA5\x42\x06\xEE\x02\x27\xC6\x88\x3B\x83\x2B\x60\x54\x3B\x4E\x20\x86\x19\x4D\x69\x74\xAE\xF9\x0A\xC3\x78\x1C\x3C\xFC\x62\x7C\x68\x65\x58\xC6\x56\xE5\x37";

// The same under the key 11..11.
const PREVIOUS_SUM: [u8; 64] =
    *b"\x51\x68\xAB\x21\xA1\x97\x3E\x8B\x83\x48\x63\x29\xCA\xDE\xE2\xDA\xCA\x68\x44\xA7\xDC\x0F\x9A\xDD\xC9\xF3\x2C\x36\x2C\x0E\x0D\xD0\x62\xFA\x17\x93\x8B\x43\x43\x38\xCD\xF2\xD3\xF8\x45\x8F\xDF\xE5\xE9\x49\xAC\x6A\xAB\xDE\xDE\xA2\xE8\x35\x50\xD3\xC4\x2E\x76\x57";

fn account(previous: Option<[u8; 16]>) -> Account {
    Account {
        rid: 1103,
        current: [0; 16],
        previous,
    }
}

fn short_request() -> [u8; 68] {
    let mut bytes = [0; 68];
    bytes[..48].copy_from_slice(&HEADER);
    bytes[48..52].copy_from_slice(b"\x4F\x04\0\0");
    bytes
}

fn extended_request(tail: &[u8; 8]) -> [u8; 120] {
    let mut bytes = [0; 120];
    bytes[..48].copy_from_slice(&HEADER);
    bytes[48..56].copy_from_slice(tail);
    bytes
}

fn short_reply(sum: u128) -> [u8; 68] {
    let mut bytes = [0; 68];
    bytes[..48].copy_from_slice(&REPLY_HEADER);
    bytes[48..52].copy_from_slice(b"\x4F\x04\0\0");
    bytes[52..].copy_from_slice(&sum.to_be_bytes());
    bytes
}

fn extended_reply(tail: &[u8; 8], sum: &[u8; 64]) -> [u8; 120] {
    let mut bytes = [0; 120];
    bytes[..48].copy_from_slice(&REPLY_HEADER);
    bytes[48..56].copy_from_slice(tail);
    bytes[56..].copy_from_slice(sum);
    bytes
}

fn answered(account: &Account, bytes: &[u8]) -> Answer {
    let info = ServerInfo::local(NEW_YEAR);
    answer(account, &info, bytes, NEW_YEAR, NEW_YEAR + 10_000)
}

fn refusal(answer: &Answer) -> Option<Refusal> {
    match answer {
        Answer::Refused(reason) => Some(*reason),
        _ => None,
    }
}

fn signed(answer: &Answer) -> &[u8] {
    match answer {
        Answer::Signed(reply) => reply.as_slice(),
        _ => &[],
    }
}

fn plain(answer: &Answer) -> &[u8] {
    match answer {
        Answer::Plain(reply) => reply.as_slice(),
        _ => &[],
    }
}

fn expect_checks(rt: &impl Abort, bytes: &[u8], key: &[u8; 16], checks: bool) {
    let is_right = match read_packet(bytes) {
        Ok(packet) => check(&packet, key),
        Err(_) => !checks,
    };
    assert_eq!(rt; is_right, checks);
}

// Each checksum is the MD5 of the key and the 48 bytes of the header in front of it, as OpenSSL computes it from
// their hexadecimal digits: `echo KEY HEADER | xxd -r -p | openssl md5`, for the key 00..00, for the previous
// key 11..11, and for 00..00 with the first byte 1A.
#[test]
fn signs_the_sample_request(rt: HostRuntime) {
    let account = account(Some([0x11; 16]));
    let cases: [(u8, u8, u8, u128); 3] = [
        (0xDB, 0x00, 0x1C, 0xA1ED_97BF_996D_9CD9_4E95_A2AE_0F55_9A86),
        (0xDB, 0x80, 0x1C, 0xC4D5_6015_42B3_4839_A4E3_3030_8309_09E1),
        (0xD9, 0x00, 0x1A, 0x93C3_8EB1_6B4A_C122_239D_E48B_AA81_30D4),
    ];
    for (first, key_bits, reply_first, sum) in cases {
        let mut request = short_request();
        request[FIRST] = first;
        request[KEY_BITS] = key_bits;
        let mut reply = short_reply(sum);
        reply[FIRST] = reply_first;
        reply[KEY_BITS] = key_bits;
        let answer = answered(&account, &request);
        assert_eq!(rt;
            signed(&answer),
            reply.as_slice(),
            "at {first:X}, {key_bits:X}"
        );
        expect_checks(&rt, signed(&answer), &[0; 16], key_bits == 0);
        expect_checks(&rt, signed(&answer), &[0x11; 16], key_bits != 0);
    }
}

// With the header of the reply in the file `reply`, each checksum was computed by
// openssl kdf -keylen 64 -kdfopt mac:HMAC -kdfopt digest:SHA512 -kdfopt mode:COUNTER
//     -kdfopt hexkey:00000000000000000000000000000000 -kdfopt salt:sntp-ms -kdfopt hexinfo:4f040000 KBKDF
// (and with the key 11..11) and, with the derived key without its colons, by
// openssl mac -digest SHA512 -macopt hexkey:DERIVED -in reply HMAC
#[test]
fn signs_the_sample_request_of_120_bytes(rt: HostRuntime) {
    let account = account(Some([0x11; 16]));
    let cases: [([u8; 8], [u8; 8], [u8; 64]); 3] = [
        (
            *b"\x4F\x04\0\0\0\0\x01\0",
            *b"\x4F\x04\0\0\0\0\x01\x01",
            SUM,
        ),
        (
            *b"\x4F\x04\0\0\x07\xFE\x09\x05",
            *b"\x4F\x04\0\0\0\0\x01\x01",
            SUM,
        ),
        (
            *b"\x4F\x04\0\0\0\x01\x01\0",
            *b"\x4F\x04\0\0\0\x01\x01\x01",
            PREVIOUS_SUM,
        ),
    ];
    for (tail, reply_tail, sum) in cases {
        let reply = extended_reply(&reply_tail, &sum);
        let answer = answered(&account, &extended_request(&tail));
        assert_eq!(rt; signed(&answer), reply.as_slice());
        expect_checks(&rt, signed(&answer), &[0; 16], reply[FLAGS] == 0);
    }
}

#[test]
fn a_header_alone_is_answered_by_a_header(rt: HostRuntime) {
    let answer = answered(&account(None), &HEADER);
    assert_eq!(rt; plain(&answer), REPLY_HEADER.as_slice());
}

// Where two refusals apply, the earlier one is given.
#[test]
fn refusals_of_the_controller(rt: HostRuntime) {
    let account = account(None);
    for (first, rid, old, reason) in [
        (0xDB, 0x4F, true, Refusal::NoOldKey),
        (0xDB, 0x50, false, Refusal::UnknownAccount),
        (0xDB, 0x50, true, Refusal::UnknownAccount),
        (0xDC, 0x4F, false, Refusal::BadMode),
        (0xDC, 0x4F, true, Refusal::BadMode),
        (0xDC, 0x50, false, Refusal::BadMode),
        (0xC3, 0x4F, false, Refusal::BadVersion),
        (0xEB, 0x4F, true, Refusal::BadVersion),
        (0xEC, 0x50, true, Refusal::BadVersion),
    ] {
        let mut short = short_request();
        short[FIRST] = first;
        short[RID] = rid;
        short[KEY_BITS] = if old { 0x80 } else { 0 };
        let mut extended = extended_request(b"\0\x04\0\0\0\0\x01\0");
        extended[FIRST] = first;
        extended[RID] = rid;
        extended[FLAGS] = u8::from(old);
        for request in [short.as_slice(), extended.as_slice()] {
            assert_eq!(rt;
                refusal(&answered(&account, request)),
                Some(reason),
                "at {first:X}, {rid:X}, {old}"
            );
        }
    }

    // Bit 31 belongs to the RID of an extended request.
    let high = extended_request(b"\x4F\x04\0\x80\0\0\x01\0");
    assert_eq!(rt;
        refusal(&answered(&account, &high)),
        Some(Refusal::UnknownAccount)
    );
}

#[test]
fn lengths_and_headers_are_refused_first(rt: HostRuntime) {
    let account = account(None);
    let mut bytes = [0; 300];
    bytes[..48].copy_from_slice(&HEADER);
    bytes[FIRST] = 0xC3;
    for len in [0, 47, 49, 67, 69, 119, 121, 300] {
        assert_eq!(rt;
            refusal(&answered(&account, &bytes[..len])),
            Some(Refusal::BadLength),
            "at {len} bytes"
        );
    }
    for (first, reason) in [(0xC3, Refusal::BadVersion), (0xDC, Refusal::BadMode)] {
        let mut header = HEADER;
        header[FIRST] = first;
        assert_eq!(rt;
            refusal(&answered(&account, &header)),
            Some(reason),
            "at {first:X}"
        );
    }
}
