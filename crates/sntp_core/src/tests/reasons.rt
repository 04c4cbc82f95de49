//! The reasons for which a reply is refused, each alone, and where two apply.
use super::kit::{FIRST, QUICK, R0, RID, Run, Told, header, same, short};
use edge_traits::Addr;
use ms_auth::Kind;
use std::alloc::Global;
use std::process::Abort;
use std::test::Fail;

/// How a reply differs from a good one.
#[derive(Clone, Copy, Debug)]
struct Reply {
    len: usize,
    port: u16,
    leap: u8,
    mode: u8,
    stratum: u8,
    word: u32,
    key_id: u32,
    /// What is added to the last byte of the checksum.
    flip: u8,
    /// From the sending of the request to its arrival by the server's clock, in ticks.
    ahead: i64,
    /// From the request's arrival to the reply's sending.
    held: i64,
}

const GOOD: Reply = Reply {
    len: 68,
    port: 123,
    leap: 0,
    mode: 4,
    stratum: 1,
    word: 7,
    key_id: RID,
    flip: 0,
    ahead: 30_000_000,
    held: 10_000,
};

/// Two days, which is the limit, and half of the time from sending to arrival.
const AT_LIMIT: i64 = 1_728_000_000_000 + 1_005_000;

/// The bytes of such a reply to the request with the count 1.
fn bytes_of(reply: &Reply) -> Result<[u8; 68], Fail> {
    let received = R0.saturating_add(reply.ahead);
    let mut changed = header(1, reply.word, received, received.saturating_add(reply.held))?;
    changed.leap = reply.leap % 4;
    changed.mode = reply.mode % 8;
    changed.stratum = reply.stratum;
    let mut bytes = [0; 68];
    let message = short(changed, reply.key_id);
    for (to, byte) in bytes.iter_mut().zip(message.as_slice()) {
        *to = *byte;
    }
    bytes[67] ^= reply.flip;
    Ok(bytes)
}

/// A member that sent this request.
fn asking(alloc: Global) -> Result<Run, Fail> {
    let mut run = Run::new(alloc, Kind::Short, QUICK, &[FIRST])?;
    run.tell_all(&[Told::Life(R0, 0), Told::Tick(R0, 7), Told::Forget])?;
    Ok(run)
}

/// The line of a member that gets the reply 2,010,000 ticks after its request.
fn line_for(alloc: Global, reply: &Reply) -> Result<Vec<u8>, Fail> {
    let from = Addr {
        port: reply.port,
        ..FIRST
    };
    let bytes = bytes_of(reply)?;
    let mut run = asking(alloc)?;
    run.arrive(R0 + 2_010_000, from, &bytes[..reply.len.min(68)])?;
    Ok(run.report)
}

/// A reply, and the line of the member that gets it.
type Row = (Reply, &'static [u8]);

fn expect_lines(rt: &impl Abort, alloc: Global, rows: &[Row]) -> Result<(), Fail> {
    for (reply, line) in rows {
        let found = line_for(alloc, reply)?;
        same(rt, &found.as_slice(), line, reply);
    }
    Ok(())
}

const ALONE: &[Row] = &[
    (Reply { len: 67, ..GOOD }, b"refused reason=BadLength\n"),
    (Reply { len: 48, ..GOOD }, b"refused reason=BadLength\n"),
    (Reply { port: 124, ..GOOD }, b"refused reason=BadSource\n"),
    (Reply { mode: 3, ..GOOD }, b"refused reason=BadMode\n"),
    (Reply { mode: 5, ..GOOD }, b"refused reason=BadMode\n"),
    (Reply { stratum: 0, ..GOOD }, b"refused reason=BadStratum\n"),
    (
        Reply {
            stratum: 16,
            ..GOOD
        },
        b"refused reason=BadStratum\n",
    ),
    (Reply { leap: 3, ..GOOD }, b"refused reason=BadStratum\n"),
    (Reply { word: 8, ..GOOD }, b"refused reason=NoRequest\n"),
    (
        Reply {
            key_id: 1104,
            ..GOOD
        },
        b"refused reason=BadKeyId\n",
    ),
    (
        Reply {
            key_id: RID + (1 << 30),
            ..GOOD
        },
        b"refused reason=BadKeyId\n",
    ),
    (Reply { flip: 1, ..GOOD }, b"refused reason=BadDigest\n"),
    (Reply { held: -1, ..GOOD }, b"refused reason=BadTimes\n"),
    (
        Reply {
            held: 2_010_001,
            ..GOOD
        },
        b"refused reason=BadTimes\n",
    ),
    (
        Reply {
            ahead: AT_LIMIT + 1,
            held: 0,
            ..GOOD
        },
        b"refused reason=TooBig\n",
    ),
    (
        Reply {
            ahead: 2_010_000 - AT_LIMIT - 1,
            held: 0,
            ..GOOD
        },
        b"refused reason=TooBig\n",
    ),
    (
        Reply {
            stratum: 15,
            leap: 2,
            ..GOOD
        },
        b"moved n=1 offset=29000000 by=slew\n",
    ),
    (
        Reply {
            key_id: RID + (1 << 31),
            ..GOOD
        },
        b"moved n=1 offset=29000000 by=slew\n",
    ),
    (
        Reply {
            ahead: AT_LIMIT,
            held: 0,
            ..GOOD
        },
        b"moved n=1 offset=1728000000000 by=step\n",
    ),
    (
        Reply {
            ahead: 2_010_000 - AT_LIMIT,
            held: 0,
            ..GOOD
        },
        b"moved n=1 offset=-1728000000000 by=step\n",
    ),
];

#[test]
fn reasons_alone(rt: HostRuntime) -> Result<(), Fail> {
    expect_lines(&rt, rt.alloc(), ALONE)
}

const TWO: &[Row] = &[
    (
        Reply {
            len: 67,
            port: 124,
            ..GOOD
        },
        b"refused reason=BadLength\n",
    ),
    (
        Reply {
            port: 124,
            mode: 3,
            ..GOOD
        },
        b"refused reason=BadSource\n",
    ),
    (
        Reply {
            mode: 3,
            leap: 3,
            ..GOOD
        },
        b"refused reason=BadMode\n",
    ),
    (
        Reply {
            stratum: 0,
            word: 8,
            ..GOOD
        },
        b"refused reason=BadStratum\n",
    ),
    (
        Reply {
            word: 8,
            key_id: 1104,
            ..GOOD
        },
        b"refused reason=NoRequest\n",
    ),
    (
        Reply {
            key_id: 1104,
            flip: 1,
            ..GOOD
        },
        b"refused reason=BadKeyId\n",
    ),
    (
        Reply {
            flip: 1,
            held: -1,
            ..GOOD
        },
        b"refused reason=BadDigest\n",
    ),
    (
        Reply {
            held: -1,
            ahead: AT_LIMIT + 2,
            ..GOOD
        },
        b"refused reason=BadTimes\n",
    ),
];

#[test]
fn reasons_in_their_order(rt: HostRuntime) -> Result<(), Fail> {
    expect_lines(&rt, rt.alloc(), TWO)
}
