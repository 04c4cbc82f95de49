//! The bytes of a session, cut at each byte.
use crate::asserts::{DC1, SETTINGS, holds, one, ran_over, same};
use crate::bytes::{
    ACK, BIND, BITS, BITS_0, NAME_DC1, NO_OPERATION, OTHER, REPLY, RESULT_0, SOURCE, SYNC,
};
use std::alloc::{AllocError, Global};
use std::process::Abort;
use std::test::Fail;
use test_scripts::{Came, Ran};
use w32tm_cmd::Status;

/// What the client sends.
const PDUS: [&[u8]; 5] = [BIND, SYNC, SOURCE, BITS, OTHER];

/// Where these end, and how many bytes are answered by then.
const ENDS: [(usize, usize); 6] = [
    (0, 0),
    (160, 104),
    (192, 132),
    (216, 184),
    (240, 212),
    (264, 244),
];

/// The sync is the second PDU.
const SYNC_AT: usize = 192;

/// These one after the other.
fn joined(alloc: Global, parts: &[&[u8]]) -> Result<Vec<u8>, AllocError> {
    let mut bytes = Vec::new(alloc);
    for part in parts {
        bytes.extend_from_slice(part)?;
    }
    Ok(bytes)
}

/// The last end that is not behind this place.
fn end_before(cut: usize) -> (usize, usize) {
    let mut last = (0, 0);
    for end in ENDS {
        if end.0 <= cut {
            last = end;
        }
    }
    last
}

/// What is printed before the line of the session, that line, and what is printed behind it.
fn lines_of(cut: usize) -> [&'static [u8]; 3] {
    let ended: &[u8] = if end_before(cut).0 == cut {
        b"session n=1 end=Ended\n"
    } else {
        b"session n=1 end=Torn\n"
    };
    if cut < SYNC_AT {
        [
            b"life mark=0\n",
            ended,
            b"total sent=0 moved=0 refused=0\nlink quiet=0 lost=0\n",
        ]
    } else {
        [
            b"life mark=0\nsend n=1 to=10.0.0.1:123\nmoved n=1 offset=29000000 by=slew\n",
            ended,
            b"total sent=1 moved=1 refused=0\nlink quiet=0 lost=0\n",
        ]
    }
}

/// These parts are all of it.
fn is_made_of(text: &[u8], parts: [&[u8]; 3]) -> bool {
    let mut left = text;
    for part in parts {
        match left.strip_prefix(part) {
            Some(rest) => left = rest,
            None => return false,
        }
    }
    left.is_empty()
}

fn expect_cut(rt: &impl Abort, cut: usize, answers: &[u8], ran: &Ran) {
    same(rt, &ran.status, &Status::Done, &cut);
    let want = answers.get(..end_before(cut).1);
    same(rt, &ran.session(0), &want, &cut);
    holds(rt, is_made_of(ran.written(), lines_of(cut)), &cut);
}

// At the end of a PDU the session has ended, elsewhere it is torn. What came whole is answered.
#[test]
fn each_cut_of_a_session(rt: HostRuntime) -> Result<(), Fail> {
    let alloc = rt.alloc();
    let bytes = joined(alloc, &PDUS)?;
    let answers = joined(alloc, &[ACK, RESULT_0, NAME_DC1, BITS_0, NO_OPERATION])?;
    for cut in 0..265 {
        let front = bytes.as_slice().get(..cut).unwrap_or(b"no session");
        let came = [Came::From(DC1, REPLY)];
        let ran = ran_over(alloc, "/service:1", SETTINGS, [0; 256], &came, &one(front))?;
        expect_cut(&rt, cut, answers.as_slice(), &ran);
    }
    Ok(())
}
