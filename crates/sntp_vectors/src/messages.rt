//! Requests of a member, as a controller answers them.
use crate::hex::expect_hex;
use dc_sign::{Answer, ServerInfo, answer};
use key_book::Account;
use ms_auth::{Kind, Packet, Tail, check, read_packet, request, write_packet};
use ntp_wire::Stamp;
use std::process::Abort;

// The first moment of 2020, in ticks.
const NEW_YEAR: i64 = 132_223_104_000_000_000;

// The timestamp of the sample request: count 1, random word 7.
const STAMP: Stamp = Stamp {
    seconds: 1,
    fraction: 7,
};

// The key 00 01 .. 0F.
const KEY: [u8; 16] = [0, 1, 2, 3, 4, 5, 6, 7, 8, 9, 10, 11, 12, 13, 14, 15];

const OTHER_KEY: [u8; 16] = [0; 16];

fn signed(answer: &Answer) -> &[u8] {
    match answer {
        Answer::Signed(reply) => reply.as_slice(),
        _ => &[],
    }
}

/// The request is answered by these bytes, which carry the checksum under `KEY` and not under the other one.
fn expect_reply(rt: &impl Abort, account: &Account, request: &Packet, hex: &str) {
    let info = ServerInfo::local(NEW_YEAR);
    let bytes = write_packet(request);
    let answer = answer(
        account,
        &info,
        bytes.as_slice(),
        NEW_YEAR,
        NEW_YEAR + 10_000,
    );
    let reply = signed(&answer);
    expect_hex(rt, reply, hex);
    match read_packet(reply) {
        Ok(packet) => {
            assert!(rt; check(&packet, &KEY));
            assert!(rt; !check(&packet, &OTHER_KEY));
        }
        Err(_) => assert!(rt; false),
    }
}

// With the header of the reply in the file `reply`, the checksum was computed by
// openssl kdf -keylen 64 -kdfopt mac:HMAC -kdfopt digest:SHA512 -kdfopt mode:COUNTER
//     -kdfopt hexkey:000102030405060708090a0b0c0d0e0f -kdfopt salt:sntp-ms -kdfopt hexinfo:ffffffff KBKDF
// and, with the derived key without its colons, by
// openssl mac -digest SHA512 -macopt hexkey:DERIVED -in reply HMAC
#[test]
fn extended_reply_to_the_greatest_rid(rt: HostRuntime) {
    let account = Account {
        rid: u32::MAX,
        current: KEY,
        previous: Some(OTHER_KEY),
    };
    let request = request(Kind::Extended, u32::MAX, 10, STAMP);
    expect_reply(
        &rt,
        &account,
        &request,
        "1c010ae900000000000000004c4f434ce1b65f80000000000000000100000007e1b65f8000000000e1b65f8000418938ffffffff00000101b615d981dc4b1e71ab0991ae749b47ffc9e0d1766c57ce984dc73edd59b6c331ee3c1a288e5b82bae5fede49856225a5d36bc144bae771e1ae162e680ab8b38c",
    );
}

// The greatest RID of a short message, under the previous key. The checksum was computed by
// (printf '\0\1\2\3\4\5\6\7\10\11\12\13\14\15\16\17'; cat reply) | openssl dgst -md5
#[test]
fn short_reply_to_the_greatest_rid(rt: HostRuntime) {
    let account = Account {
        rid: 2_147_483_647,
        current: OTHER_KEY,
        previous: Some(KEY),
    };
    let asks_for_previous = Packet {
        header: request(Kind::Short, account.rid, 10, STAMP).header,
        tail: Tail::Short68 {
            key_id: u32::MAX,
            sum: [0; 16],
        },
    };
    expect_reply(
        &rt,
        &account,
        &asks_for_previous,
        "1c010ae900000000000000004c4f434ce1b65f80000000000000000100000007e1b65f8000000000e1b65f8000418938ffffffffa6a651567a393d0d6805c32bfe3f3bf4",
    );
}
