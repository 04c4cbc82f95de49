//! A controller that serves a link.
ghost use Rattle.std.specs.Prelude.{All, IfOk};
ghost use Rattle.base_specs.specs.Time.{IsReading};
ghost use Rattle.edge_io.specs.LinkScript.{IsNoFailure};

use crate::asserts::same;
use dc_sign::{ServeEnd, ServeWhy, serve};
use edge_io::{Addr, Datagram, Link, Put, Receipt, ScriptClock, ScriptLink, Tried};
use key_book::Account;
use std::alloc::{AllocError, Global};
use std::process::Abort;
use std::test::Fail;

// The first moment of 2020, in ticks, and a millisecond later.
const RECEIVED: i64 = 132_223_104_000_000_000;

const SENT: i64 = 132_223_104_000_010_000;

// 10.0.0.50:40000
const CLIENT: Addr = Addr {
    ip: 0x0A00_0032,
    port: 40_000,
};

const ACCOUNT: Account = Account {
    rid: 1103,
    current: [0; 16],
    previous: None,
};

// A request under the RID 1103: its first 48 bytes are a plain one.
const REQUEST: [u8; 68] =
    *b"\xDB\x00\x0A\xE9\0\0\0\0\0\0\0\0\0\0\0\0\0\0\0\0\0\0\0\0\0\0\0\0\0\0\0\0\0\0\0\0\0\0\0\0\0\0\0\x01\0\0\0\x07\x4F\x04\0\0\0\0\0\0\0\0\0\0\0\0\0\0\0\0\0\0";

// Its reply. The checksum is that of openssl: `echo KEY HEADER | xxd -r -p | openssl md5`.
const REPLY: [u8; 68] =
    *b"\x1C\x01\x0A\xE9\0\0\0\0\0\0\0\0LOCL\xE1\xB6\x5F\x80\0\0\0\0\0\0\0\x01\0\0\0\x07\xE1\xB6\x5F\x80\0\0\0\0\xE1\xB6\x5F\x80\x00\x41\x89\x38\x4F\x04\0\0\xA1\xED\x97\xBF\x99\x6D\x9C\xD9\x4E\x95\xA2\xAE\x0F\x55\x9A\x86";

/// What came over the link.
#[derive(Clone, Copy)]
enum Came {
    Plain,
    Signed,
    /// Under a RID that no account has.
    Unknown,
    Nothing,
}

fn receipt_of(came: Came) -> Receipt
    ensures { IsNoFailure result }
{
    match came {
        Came::Plain => Receipt::Got(CLIENT, Datagram::from_slice(&REQUEST[..48])),
        Came::Signed => Receipt::Got(CLIENT, Datagram::from_slice(&REQUEST)),
        Came::Unknown => {
            let mut request = REQUEST;
            request[48] = 0x50;
            Receipt::Got(CLIENT, Datagram::from_slice(&request))
        }
        Came::Nothing => Receipt::Quiet,
    }
}

fn receipts_of(alloc: Global, all: &[Came]) -> Result<Vec<Receipt>, AllocError>
    ensures { IfOk result (λ receipts. All IsNoFailure receipts.items) }
{
    let mut receipts = Vec::new(alloc);
    for came in all {
        receipts.push(receipt_of(*came))?;
    }
    Ok(receipts)
}

/// Both readings, so many times.
fn readings_of(alloc: Global, times: usize) -> Result<Vec<i64>, AllocError>
    ensures { IfOk result (λ readings. All IsReading readings.items) }
{
    let mut readings = Vec::new(alloc);
    for _ in 0..times {
        readings.push(RECEIVED)?;
        readings.push(SENT)?;
    }
    Ok(readings)
}

/// Nothing counted, and all turns taken.
const NOTHING: ServeEnd = ServeEnd {
    signed: 0,
    plain: 0,
    refused: [0; 5],
    quiet: 0,
    lost: 0,
    unsent: 0,
    why: ServeWhy::Done,
};

/// What a run came to.
#[derive(Drop)]
struct Served {
    end: ServeEnd,
    link: ScriptLink,
    clock: ScriptClock,
}

/// A link over which these come, of which these calls fail.
fn link_of(alloc: Global, all: &[Came], fails: &[u64]) -> Result<ScriptLink, Fail> {
    let receipts = receipts_of(alloc, all)?;
    let fails = fails.to_vec(alloc)?;
    Ok(ScriptLink::new(alloc, receipts, fails, 8)?)
}

/// A clock that gives both readings twice, of which this call fails; 0 is no call.
fn clock_of(alloc: Global, fails: u64) -> Result<ScriptClock, Fail> {
    let readings = readings_of(alloc, 2)?;
    let fails = [fails].to_vec(alloc)?;
    Ok(ScriptClock::new(alloc, readings, fails, 8)?)
}

/// So many turns over these devices.
fn run(turns: u32, mut link: ScriptLink, mut clock: ScriptClock) -> Served {
    let end = serve(turns, &mut link, &mut clock, &ACCOUNT);
    Served { end, link, clock }
}

/// The one send went to the client, with these bytes and this answer.
fn expect_send(rt: &impl Abort, tried: &Tried, bytes: &[u8], put: Put) {
    same(rt, &(tried.to, tried.put), &(CLIENT, put), &());
    same(rt, &tried.bytes.as_slice(), &bytes, &());
}

/// The sends are these replies, with their answers.
fn expect_sends(rt: &impl Abort, served: &Served, want: &[(&[u8], Put)]) {
    let sends = served.link.sends();
    same(rt, &sends.len(), &want.len(), &());
    for (tried, (bytes, put)) in sends.iter().zip(want) {
        expect_send(rt, tried, bytes, *put);
    }
}

const ONE_REPLY: ServeEnd = ServeEnd {
    signed: 1,
    refused: [0, 0, 0, 1, 0],
    quiet: 1,
    ..NOTHING
};

#[test]
fn controller_run(rt: HostRuntime) -> Result<(), Fail> {
    let link = link_of(
        rt.alloc(),
        &[Came::Signed, Came::Unknown, Came::Nothing],
        &[],
    )?;
    let clock = clock_of(rt.alloc(), 0)?;
    let served = run(3, link, clock);
    same(&rt, &served.end, &ONE_REPLY, &());
    expect_sends(&rt, &served, &[(&REPLY, Put::Done)]);
    same(&rt, &served.clock.moves().len(), &0, &());
    Ok(())
}

const TWO_FAILED: ServeEnd = ServeEnd {
    signed: 1,
    plain: 1,
    quiet: 1,
    lost: 1,
    unsent: 1,
    ..NOTHING
};

// The calls of the link: a receive, a send that fails, a receive, a send, a receive that fails, a quiet receive. A reply
// that waited for the next receipt would fail at another call.
#[test]
fn failed_calls_of_a_run(rt: HostRuntime) -> Result<(), Fail> {
    let link = link_of(rt.alloc(), &[Came::Plain, Came::Signed], &[2, 5])?;
    let clock = clock_of(rt.alloc(), 0)?;
    let served = run(4, link, clock);
    same(&rt, &served.end, &TWO_FAILED, &());
    let sends: [(&[u8], Put); 2] = [(&REPLY[..48], Put::Failed), (&REPLY, Put::Done)];
    expect_sends(&rt, &served, &sends);
    Ok(())
}

const NO_READING: ServeEnd = ServeEnd {
    signed: 1,
    why: ServeWhy::ClockFault,
    ..NOTHING
};

/// The length of the datagram that a link gives next.
fn waits_of(link: &mut ScriptLink) -> Option<usize> {
    match link.recv() {
        Receipt::Got(_, bytes) => Some(bytes.as_slice().len()),
        _ => None,
    }
}

/// A run of which this reading fails. The datagram after it is not received.
fn expect_clock_fault(rt: &impl Abort, alloc: Global, fails: u64) -> Result<(), Fail> {
    let link = link_of(alloc, &[Came::Signed, Came::Signed, Came::Plain], &[])?;
    let clock = clock_of(alloc, fails)?;
    let mut served = run(3, link, clock);
    same(rt, &served.end, &NO_READING, &fails);
    same(rt, &served.link.sends().len(), &1, &fails);
    same(rt, &waits_of(&mut served.link), &Some(48), &fails);
    Ok(())
}

// The first or the second reading of the second datagram fails.
#[test]
fn clock_faults_of_a_run(rt: HostRuntime) -> Result<(), Fail> {
    expect_clock_fault(&rt, rt.alloc(), 3)?;
    expect_clock_fault(&rt, rt.alloc(), 4)
}
