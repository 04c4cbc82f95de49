//! Each command once, with all that it writes.
use std::alloc::Global;
use std::process::Abort;
use std::test::Fail;
use test_scripts::{Ran, STEADY, Script, run};
use w32tm_cmd::Status;

const SETTINGS: &[u8] = b"Name=WS1\nRole=Member\nRid=1103\n\
    account 1103 000102030405060708090a0b0c0d0e0f\ncomputer DC1 10.0.0.1:123 S---\n";

// A client's plain request: a header alone.
const REQUEST: [u8; 48] =
    *b"\xDB\x00\x0A\xE9\0\0\0\0\0\0\0\0\0\0\0\0\0\0\0\0\0\0\0\0\0\0\0\0\0\0\0\0\0\0\0\0\0\0\0\0\0\0\0\x01\
       \0\0\0\x07";

// The plain reply to it, received and sent at those readings.
const REPLY: [u8; 48] =
    *b"\x1C\x01\x0A\xE9\0\0\0\0\0\0\0\0LOCL\xE1\xB6\x5F\x80\0\0\0\0\0\0\0\x01\0\0\0\x07\
       \xE1\xB6\x5F\x80\0\0\0\0\xE1\xB6\x5F\x80\x00\x41\x89\x38";

// A client is answered by a bind_ack, and then by a response to its call: with the result 0, the name DC1, and the bits 240.
// The bytes are Python's: struct.pack("<4B4sHHI", 5, 0, kind, 3, b"\x10\0\0\0", 16 + len(body), 0, call) + body. The body
// of the bind_ack is struct.pack("<HHIH2xB3xHH", 5840, 5840, 1, 0, 1, 0, 0) and NDR, that of a number
// struct.pack("<IHHI", 4, 0, 0, number), and that of the name struct.pack("<IHH4I8sI", 28, 0, 0, 0x20000, 4, 0, 4,
// "DC1\0".encode("utf-16le"), 0).
const SYNCED: &[u8] =
    b"\x05\x00\x0C\x03\x10\x00\x00\x00\x38\x00\x00\x00\x01\x00\x00\x00\xD0\x16\xD0\x16\x01\x00\x00\x00\
\x00\x00\x00\x00\x01\x00\x00\x00\x00\x00\x00\x00\x04\x5D\x88\x8A\xEB\x1C\xC9\x11\x9F\xE8\x08\x00\
\x2B\x10\x48\x60\x02\x00\x00\x00\
\x05\x00\x02\x03\x10\x00\x00\x00\x1C\x00\x00\x00\x02\x00\x00\x00\x04\x00\x00\x00\x00\x00\x00\x00\
\x00\x00\x00\x00";

const SOURCE: &[u8] =
    b"\x05\x00\x0C\x03\x10\x00\x00\x00\x38\x00\x00\x00\x01\x00\x00\x00\xD0\x16\xD0\x16\x01\x00\x00\x00\
\x00\x00\x00\x00\x01\x00\x00\x00\x00\x00\x00\x00\x04\x5D\x88\x8A\xEB\x1C\xC9\x11\x9F\xE8\x08\x00\
\x2B\x10\x48\x60\x02\x00\x00\x00\
\x05\x00\x02\x03\x10\x00\x00\x00\x34\x00\x00\x00\x02\x00\x00\x00\x1C\x00\x00\x00\x00\x00\x00\x00\
\x00\x00\x02\x00\x04\x00\x00\x00\x00\x00\x00\x00\x04\x00\x00\x00\x44\x00\x43\x00\x31\x00\x00\x00\
\x00\x00\x00\x00";

const BITS: &[u8] =
    b"\x05\x00\x0C\x03\x10\x00\x00\x00\x38\x00\x00\x00\x01\x00\x00\x00\xD0\x16\xD0\x16\x01\x00\x00\x00\
\x00\x00\x00\x00\x01\x00\x00\x00\x00\x00\x00\x00\x04\x5D\x88\x8A\xEB\x1C\xC9\x11\x9F\xE8\x08\x00\
\x2B\x10\x48\x60\x02\x00\x00\x00\
\x05\x00\x02\x03\x10\x00\x00\x00\x1C\x00\x00\x00\x02\x00\x00\x00\x04\x00\x00\x00\x00\x00\x00\x00\
\x40\x02\x00\x00";

/// Words, the input or the session, and what is written.
type Row = (&'static [&'static str], &'static [u8], &'static [u8]);

const ROWS: &[Row] = &[
    (
        &["/sign:1103:00000000000000000000000000000000"],
        &REQUEST,
        &REPLY,
    ),
    (
        &[
            "/show:db000ae9000000000000000000000000000000000000000000000000000000000000000000000000\
0000000100000007",
        ],
        b"",
        b"leap=3 version=3 mode=3 stratum=0 poll=10 precision=-23\n\
rootdelay=0 rootdispersion=0 refid=00000000\n\
reference=0000000000000000 originate=0000000000000000\n\
receive=0000000000000000 transmit=0000000100000007\n\
tail=plain\n",
    ),
    (
        &["/dc:1", "/config:c"],
        b"",
        b"signed=0 plain=0\n\
refused BadLength=0 BadVersion=0 BadMode=0 UnknownAccount=0 NoOldKey=0\n\
link quiet=1 lost=0 unsent=0\n",
    ),
    (
        &["/monitor", "/config:c"],
        b"",
        b"DC1 error=NoAnswer\ntotal computers=1 answered=0\n",
    ),
    (
        &["/replay", "/config:c"],
        b"",
        b"total sent=0 moved=0 refused=0\n",
    ),
    (
        &["/member:1", "/config:c", "/keeper:k"],
        b"",
        b"life mark=0\nsend n=1 to=10.0.0.1:123\n\
total sent=1 moved=0 refused=0\nlink quiet=1 lost=0\n",
    ),
    (
        &["/service:1", "/config:c", "/keeper:k"],
        b"",
        b"life mark=0\ntotal sent=0 moved=0 refused=0\nlink quiet=0 lost=0\n",
    ),
    (
        &["/simulate:1:2", "/capture:c"],
        b"",
        b"ops=2 skipped=0\nsent=1 moved=0 refused=0\nslack=none\n",
    ),
    (
        &["/resync"],
        SYNCED,
        b"The command completed successfully.\n",
    ),
    (&["/query", "/source"], SOURCE, b"DC1\n"),
    (&["/query", "/bits"], BITS, b"bits=0x00000240\n"),
];

/// Nothing comes over the link. The one session of the wire has the bytes of the input; where there are none, no session comes.
fn run_row(alloc: Global, words: &[&str], input: &[u8]) -> Result<Ran, Fail> {
    let sessions = [input];
    let script = Script {
        settings: SETTINGS,
        random: &[1, 7],
        sessions: if input.is_empty() { &[] } else { &sessions },
        ..STEADY
    };
    run(alloc, words, input, &script)
}

fn expect_row(rt: &impl Abort, words: &[&str], text: &[u8], ran: &Ran) {
    assert_eq!(rt;
        (ran.status, ran.written()),
        (Status::Done, text),
        "{words:?}"
    );
}

#[test]
fn each_command_once(rt: HostRuntime) -> Result<(), Fail> {
    for (words, input, text) in ROWS {
        let ran = run_row(rt.alloc(), words, input)?;
        expect_row(&rt, words, text, &ran);
    }
    Ok(())
}
