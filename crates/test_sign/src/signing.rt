//! Runs of `/sign`.
use crate::asserts::{holds, same};
use dc_sign::Refusal;
use edge_io::Reading;
use std::alloc::Global;
use std::process::Abort;
use std::test::Fail;
use test_scripts::{Device, LATER, NEW_YEAR, REQUEST, Ran, STEADY, Script, run};
use w32tm_cmd::Status;

const WORD: &str = "/sign:1103:00000000000000000000000000000000";

// Bytes of the request that tests change.
const FIRST: usize = 0;

const RID: usize = 48;

const KEY_BITS: usize = 51;

// The reply to it. The last 16 bytes are the MD5 of the zero key and of the 48 bytes in front of the key
// identifier, as OpenSSL computes it from their digits: `echo KEY HEADER | xxd -r -p | openssl md5`.
const REPLY: [u8; 68] = [
    0x1C, 0x01, 0x0A, 0xE9, 0, 0, 0, 0, 0, 0, 0, 0, 0x4C, 0x4F, 0x43, 0x4C, 0xE1, 0xB6, 0x5F, 0x80,
    0, 0, 0, 0, 0x00, 0x00, 0x00, 0x01, 0x00, 0x00, 0x00, 0x07, 0xE1, 0xB6, 0x5F, 0x80, 0, 0, 0, 0,
    0xE1, 0xB6, 0x5F, 0x80, 0x00, 0x41, 0x89, 0x38, 0x4F, 0x04, 0x00, 0x00, 0xA1, 0xED, 0x97, 0xBF,
    0x99, 0x6D, 0x9C, 0xD9, 0x4E, 0x95, 0xA2, 0xAE, 0x0F, 0x55, 0x9A, 0x86,
];

/// The request comes in these pieces.
fn run_cut(alloc: Global, cut: usize) -> Result<Ran, Fail> {
    let pieces = [cut, 68];
    let script = Script {
        pieces: &pieces,
        ..STEADY
    };
    run(alloc, &[WORD], &REQUEST, &script)
}

/// The reply is that of the sample, and both readings were taken.
fn expect_signed(rt: &impl Abort, cut: usize, ran: &Ran) {
    same(
        rt,
        &(ran.status, ran.next),
        &(Status::Done, Reading::Failed),
        &cut,
    );
    same(rt, &ran.written(), &REPLY.as_slice(), &cut);
}

#[test]
fn signs_the_sample_request(rt: HostRuntime) -> Result<(), Fail> {
    for cut in 0..68 {
        let ran = run_cut(rt.alloc(), cut)?;
        expect_signed(&rt, cut, &ran);
    }
    Ok(())
}

/// Words, what stands behind the sample's header in a request, how many zeros behind that, and what stands behind the
/// sample's header in the reply.
type Answered = (&'static str, &'static [u8], usize, &'static [u8]);

// A header alone; the previous key, three times; and extended requests, under the current and the previous key and of
// the greatest RID. The checksums of the short ones are the MD5 of key and header: those of `REPLY` under the key of
// zeros, and under the key 11..11 what `echo KEY HEADER | xxd -r -p | openssl md5` gives. Those of the extended ones are
// OpenSSL's: `echo HEADER | xxd -r -p | openssl dgst -sha512 -mac HMAC -macopt hexkey:DERIVED`, where DERIVED is what
// `openssl kdf -keylen 64 -kdfopt mac:HMAC -kdfopt digest:SHA512 -kdfopt mode:counter -kdfopt hexkey:KEY -kdfopt
// hexsalt:736e74702d6d73 -kdfopt hexinfo:RID KBKDF` prints, without its colons.
const ANSWERED: &[Answered] = &[
    ("/sign:1103:00000000000000000000000000000000", b"", 0, b""),
    (
        "/sign:1103:a5a5a5a5a5a5a5a5a5a5a5a5a5a5a5a5:00000000000000000000000000000000",
        b"\x4F\x04\x00\x80",
        16,
        b"\x4F\x04\x00\x80\xA1\xED\x97\xBF\x99\x6D\x9C\xD9\x4E\x95\xA2\xAE\x0F\x55\x9A\x86",
    ),
    (
        "/sign:1103:00000000000000000000000000000000:11111111111111111111111111111111",
        b"\x4F\x04\x00\x80",
        16,
        b"\x4F\x04\x00\x80\xC4\xD5\x60\x15\x42\xB3\x48\x39\xA4\xE3\x30\x30\x83\x09\x09\xE1",
    ),
    (
        "/sign:2147483647:a5a5a5a5a5a5a5a5a5a5a5a5a5a5a5a5:00000000000000000000000000000000",
        b"\xFF\xFF\xFF\xFF",
        16,
        b"\xFF\xFF\xFF\xFF\xA1\xED\x97\xBF\x99\x6D\x9C\xD9\x4E\x95\xA2\xAE\x0F\x55\x9A\x86",
    ),
    (
        "/sign:1103:00000000000000000000000000000000",
        b"\x4F\x04\x00\x00\x00\x00\x01\x00",
        64,
        b"\x4F\x04\x00\x00\x00\x00\x01\x01\x80\xE9\x3B\x24\x1F\xE2\x60\xF7\xE0\x58\xFC\xFE\
          \x8B\x0F\xE9\xBE\x27\x7C\xAE\xE4\xB5\xC6\xFE\xE0\xC0\x2F\xA5\x42\x06\xEE\x02\x27\
          \xC6\x88\x3B\x83\x2B\x60\x54\x3B\x4E\x20\x86\x19\x4D\x69\x74\xAE\xF9\x0A\xC3\x78\
          \x1C\x3C\xFC\x62\x7C\x68\x65\x58\xC6\x56\xE5\x37",
    ),
    (
        "/sign:1103:00000000000000000000000000000000:a5a5a5a5a5a5a5a5a5a5a5a5a5a5a5a5",
        b"\x4F\x04\x00\x00\x00\x01\x01\x00",
        64,
        b"\x4F\x04\x00\x00\x00\x01\x01\x01\x22\x95\x86\x8E\x6F\xC6\xC5\x14\x68\xA3\xF5\xCA\
          \xFA\xBD\x89\xE8\x74\xB0\x76\xBD\x44\x2C\x73\xE2\x09\xC2\x9F\xD9\xD0\x70\xBF\x78\
          \x57\x3F\x9D\xE8\xF1\x48\xE4\xB5\xB8\x51\x17\xC9\xCF\x51\x54\x6E\xF4\x4B\xDC\x8A\
          \x11\x65\xA1\xDF\xE3\x16\x74\xD4\x26\x0D\xB0\x3E",
    ),
    (
        "/sign:4294967295:00000000000000000000000000000000",
        b"\xFF\xFF\xFF\xFF\x00\x00\x01\x00",
        64,
        b"\xFF\xFF\xFF\xFF\x00\x00\x01\x01\xD6\x56\xB6\xF9\x1B\x63\x38\x6F\xC1\x99\x5C\xBB\
          \x53\x01\x8F\x7D\x96\x36\x74\x64\xBB\x3C\x05\x0E\xFA\xBF\x4C\x14\x1C\x0C\xAF\x37\
          \xB1\xA7\x2B\xBD\xD3\xD4\x2C\x49\x40\x49\x62\x57\x78\x91\x22\x7C\x3A\x13\xF3\x2B\
          \x8E\xD0\xAD\x95\xC6\xF0\x66\x75\xE6\x3D\xB6\x85",
    ),
];

/// The sample's header, these bytes behind it, and so many zeros behind those.
fn request_of(alloc: Global, behind: &[u8], zeros: usize) -> Result<Vec<u8>, Fail> {
    let mut request = REQUEST[..48].to_vec(alloc)?;
    request.extend_from_slice(behind)?;
    for _ in 0..zeros {
        request.push(0)?;
    }
    Ok(request)
}

fn expect_reply(rt: &impl Abort, word: &str, len: usize, reply: &[u8], ran: &Ran) {
    same(
        rt,
        &(ran.status, ran.written().len()),
        &(Status::Done, len),
        &word,
    );
    holds(rt, ran.written().starts_with(&REPLY[..48]), &word);
    holds(rt, ran.written().ends_with(reply), &word);
}

#[test]
fn answers_each_kind_under_both_keys(rt: HostRuntime) -> Result<(), Fail> {
    for (word, behind, zeros, reply) in ANSWERED {
        let request = request_of(rt.alloc(), behind, *zeros)?;
        let ran = run(rt.alloc(), &[*word], &request, &STEADY)?;
        expect_reply(&rt, word, request.len(), reply, &ran);
    }
    Ok(())
}

/// The request where this byte is another.
fn run_changed(alloc: Global, at: usize, value: u8) -> Result<Ran, Fail> {
    let mut request = REQUEST;
    match request.get_mut(at) {
        Some(byte) => *byte = value,
        None => return Err(Fail::new("the request has no such byte")),
    }
    run(alloc, &[WORD], &request, &STEADY)
}

/// So many bytes, which are no request.
fn run_long(alloc: Global, len: usize) -> Result<Ran, Fail> {
    let request = vec![in alloc; 0xDB; len]?;
    run(alloc, &[WORD], &request, &STEADY)
}

/// An extended request for the previous key, which the account doesn't have.
fn run_extended(alloc: Global) -> Result<Ran, Fail> {
    let request = request_of(alloc, b"\x4F\x04\x00\x00\x00\x01\x01\x00", 64)?;
    run(alloc, &[WORD], &request, &STEADY)
}

fn expect_refused(rt: &impl Abort, reason: Refusal, left: usize, ran: &Ran) {
    let got = (ran.status, ran.written().len(), ran.left);
    same(rt, &got, &(Status::BadRequest { reason }, 0, left), &());
}

/// A byte of the request, what stands there, and why that is refused.
const CHANGED: &[(usize, u8, Refusal)] = &[
    (FIRST, 0xC3, Refusal::BadVersion),
    (FIRST, 0xDC, Refusal::BadMode),
    (RID, 0x50, Refusal::UnknownAccount),
    (KEY_BITS, 0x80, Refusal::NoOldKey),
];

fn expect_changed(rt: &impl Abort, alloc: Global) -> Result<(), Fail> {
    for (at, value, reason) in CHANGED {
        let ran = run_changed(alloc, *at, *value)?;
        expect_refused(rt, *reason, 0, &ran);
    }
    Ok(())
}

/// Lengths of no request, and how many bytes are left on the input: 257 are read.
const LENGTHS: &[(usize, usize)] = &[(0, 0), (67, 0), (69, 0), (72, 0), (257, 0), (300, 43)];

fn expect_lengths(rt: &impl Abort, alloc: Global) -> Result<(), Fail> {
    for (len, left) in LENGTHS {
        let ran = run_long(alloc, *len)?;
        expect_refused(rt, Refusal::BadLength, *left, &ran);
    }
    Ok(())
}

fn expect_extended(rt: &impl Abort, alloc: Global) -> Result<(), Fail> {
    let ran = run_extended(alloc)?;
    expect_refused(rt, Refusal::NoOldKey, 0, &ran);
    Ok(())
}

#[test]
fn refusals_of_the_controller(rt: HostRuntime) -> Result<(), Fail> {
    expect_changed(&rt, rt.alloc())?;
    expect_extended(&rt, rt.alloc())?;
    expect_lengths(&rt, rt.alloc())
}

// Words that spell no command.
const BAD_WORDS: &[&[&str]] = &[
    &[],
    &["/show:0"],
    &["/sign:01103:00000000000000000000000000000000"],
    &["/sign:1103:00000000000000000000000000000000:"],
    &[WORD, ""],
    &[WORD, WORD],
    &["/dc:3"],
    &["/dc:0", "/config:c"],
    &["/dc:1000001", "/config:c"],
    &["/monitor"],
    &["/replay"],
    &["/replay", "/config:c", "/port:123"],
];

/// The calls that fail, and the room of the output; then the status, the bytes left on the input, and what the clock
/// gives next.
type Row = (&'static [(Device, u64)], usize, Status, usize, Reading);

// The input comes as 30 bytes, 38 bytes and the end.
const FAULTS: &[Row] = &[
    (
        &[(Device::Input, 1)],
        1000,
        Status::ReadFault,
        68,
        Reading::At(NEW_YEAR),
    ),
    (
        &[(Device::Input, 2)],
        1000,
        Status::ReadFault,
        38,
        Reading::At(NEW_YEAR),
    ),
    (
        &[(Device::Input, 3)],
        1000,
        Status::ReadFault,
        0,
        Reading::At(NEW_YEAR),
    ),
    (
        &[(Device::Clock, 1)],
        1000,
        Status::ClockFault,
        0,
        Reading::At(NEW_YEAR),
    ),
    (
        &[(Device::Clock, 2)],
        1000,
        Status::ClockFault,
        0,
        Reading::At(LATER),
    ),
    (
        &[(Device::Out, 1)],
        1000,
        Status::WriteFault,
        0,
        Reading::Failed,
    ),
    (&[], 67, Status::WriteFault, 0, Reading::Failed),
];

fn run_row(alloc: Global, row: &Row) -> Result<Ran, Fail> {
    let (failing, room, ..) = *row;
    let script = Script {
        failing,
        room,
        ..STEADY
    };
    run(alloc, &[WORD], &REQUEST, &script)
}

/// The run ended so, and nothing was written.
fn expect_end(rt: &impl Abort, status: Status, left: usize, next: Reading, ran: &Ran) {
    let got = (ran.status, ran.written().len(), ran.left, ran.next);
    same(rt, &got, &(status, 0, left, next), &());
}

fn expect_bad_words(rt: &impl Abort, alloc: Global) -> Result<(), Fail> {
    for words in BAD_WORDS {
        let ran = run(alloc, words, &REQUEST, &STEADY)?;
        expect_end(rt, Status::BadWords, 68, Reading::At(NEW_YEAR), &ran);
    }
    Ok(())
}

fn expect_faults(rt: &impl Abort, alloc: Global) -> Result<(), Fail> {
    for row in FAULTS {
        let (_, _, status, left, next) = *row;
        let ran = run_row(alloc, row)?;
        expect_end(rt, status, left, next, &ran);
    }
    Ok(())
}

#[test]
fn bad_words_and_first_faults(rt: HostRuntime) -> Result<(), Fail> {
    expect_bad_words(&rt, rt.alloc())?;
    expect_faults(&rt, rt.alloc())
}

/// No bytes come in, and these calls fail.
fn run_empty(alloc: Global, failing: &[(Device, u64)]) -> Result<Ran, Fail> {
    run(alloc, &[WORD], &[], &Script { failing, ..STEADY })
}

// The clock is read before the request is looked at, and nothing is written for a refused one.
#[test]
fn refused_requests_and_faults(rt: HostRuntime) -> Result<(), Fail> {
    let both = [(Device::Clock, 2), (Device::Out, 1)];
    let reason = Refusal::BadLength;
    for (failing, status) in [
        (both.as_slice(), Status::ClockFault),
        (&both[1..], Status::BadRequest { reason }),
    ] {
        let ran = run_empty(rt.alloc(), failing)?;
        same(&rt, &ran.status, &status, &failing);
    }
    Ok(())
}
