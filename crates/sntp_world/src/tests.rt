//! Worked runs of the world.
ghost use Rattle.std.specs.Prelude.{◌<◌, ◌≤◌, ◌^◌};

use super::*;
use crate::moment::Moment;
use crate::setting::{ACCOUNT, LAST_READING};
use dc_sign::{Answer, Refusal};
use edge_traits::Datagram;
use ms_auth::{Kind, Packet, request, sign, write_packet};
use ntp_wire::{Stamp, write_header};
use sntp_core::{How, Outcome, Reason};
use std::process::Abort;
use std::test::Fail;

/// What came of an operation, as far as a row says it.
#[derive(Clone, Copy, Debug, PartialEq, Eq)]
enum Came {
    Skipped,
    Passed,
    Signed,
    Plain,
    NoAnswer(Refusal),
    Started(u32),
    Idle,
    Sent(u32),
    Slewed(i64),
    Stepped(i64),
    Refused(Reason),
}

fn came_of(effect: &Effect) -> Came {
    match effect {
        Effect::Skipped => Came::Skipped,
        Effect::Passed => Came::Passed,
        Effect::Answered(answer) => match answer {
            Answer::Signed(_) => Came::Signed,
            Answer::Plain(_) => Came::Plain,
            Answer::Refused(refusal) => Came::NoAnswer(*refusal),
        },
        Effect::Stepped(outcome) => stepped(outcome),
    }
}

fn stepped(outcome: &Outcome) -> Came {
    match outcome {
        Outcome::Started { mark } => Came::Started(*mark),
        Outcome::Idle => Came::Idle,
        Outcome::Sent { count, .. } => Came::Sent(*count),
        Outcome::Moved {
            offset,
            how: How::Slew,
            ..
        } => Came::Slewed(*offset),
        Outcome::Moved { offset, .. } => Came::Stepped(*offset),
        Outcome::Refused(reason) => Came::Refused(*reason),
    }
}

fn poll(word: u32) -> Op {
    Op::Poll { word }
}

fn pass(d: u32, e: i32, f: i32) -> Op {
    Op::Pass { d, e, f }
}

fn newest() -> Op {
    Op::Deliver { back: 0 }
}

/// Does these operations, and expects of each what stands beside it.
fn expect(rt: &impl Abort, world: &mut World, rows: &[(Op, Came)]) -> Result<(), Fail> {
    for (i, (op, want)) in rows.iter().enumerate() {
        let effect = world.step(op)?;
        assert_eq!(rt; came_of(&effect), *want, "operation {i}");
    }
    Ok(())
}

#[test]
fn world_corrects_once(rt: HostRuntime) -> Result<(), Fail> {
    let mut world = World::new(rt.alloc())?;
    assert_eq!(rt; world.slack(), None);
    let rows = [
        (poll(7), Came::Sent(1)),
        (pass(1_000_000, 0, 0), Came::Passed),
        (newest(), Came::Signed),
        (pass(1_000_000, 0, 0), Came::Passed),
        (newest(), Came::Slewed(30_000_000)),
        (newest(), Came::Refused(Reason::NoRequest)),
    ];
    expect(&rt, &mut world, &rows)?;
    assert_eq!(rt; world.slack(), Some(2_000_001));
    Ok(())
}

#[test]
fn uneven_clocks(rt: HostRuntime) -> Result<(), Fail> {
    let mut world = World::new(rt.alloc())?;
    let rows = [
        (poll(7), Came::Sent(1)),
        (pass(1_000_000, 500, -500), Came::Passed),
        (newest(), Came::Signed),
        (pass(1_000_000, 0, 0), Came::Passed),
        (newest(), Came::Slewed(29_999_250)),
    ];
    expect(&rt, &mut world, &rows)?;
    assert_eq!(rt; world.slack(), Some(2_002_001));
    Ok(())
}

/// The clocks near the last reading, and as uneven as they may be but for ten ticks.
const LATE: Moment = Moment {
    member: LAST_READING - 10,
    controller: LAST_READING - 20,
    uneven: 999_999_999_999_999_990,
};

/// Both clocks at the last reading, and as uneven as they may be.
const SPENT: Moment = Moment {
    member: LAST_READING,
    controller: LAST_READING,
    uneven: 1_000_000_000_000_000_000,
};

/// Clocks, how they move, and whether they may.
const MOVES: [(Moment, u32, i32, i32, bool); 11] = [
    (Moment::FIRST, 0, 0, 0, true),
    (Moment::FIRST, 5, 5, -5, true),
    (Moment::FIRST, 5, 6, 0, false),
    (Moment::FIRST, 5, 0, -6, false),
    (LATE, 11, 0, 0, false),
    (LATE, 16, -6, 5, false),
    (LATE, 14, -5, 6, false),
    (LATE, 12, -2, 8, true),
    (SPENT, 1, -1, -1, false),
    (SPENT, 1, 0, 0, false),
    (SPENT, 0, 0, 0, true),
];

#[test]
fn time_within_bounds(rt: HostRuntime) {
    for row in &MOVES {
        let (at, d, e, f, may) = *row;
        assert_eq!(rt; at.after(d, e, f).is_some(), may, "{d} {e} {f}");
    }
}

#[test]
fn stays_at_the_last_reading(rt: HostRuntime) {
    for (member, offset, want) in [
        (LAST_READING - 50, 75i64, LAST_READING),
        (LAST_READING - 75, 75, LAST_READING),
        (74, -75, 0),
        (76, -75, 1),
    ] {
        let at = Moment { member, ..LATE };
        assert_eq!(rt; at.corrected(offset).member, want, "{member}");
    }
}

#[test]
fn restarts_after_what_was_reserved(rt: HostRuntime) -> Result<(), Fail> {
    for (sent, mark) in [(0u32, 0), (1, 64), (64, 64), (65, 128)] {
        let mut world = World::new(rt.alloc())?;
        for word in 0..sent {
            world.step(&pass(160_000_000, 0, 0))?;
            world.step(&poll(word))?;
        }
        let effect = world.step(&Op::Restart)?;
        assert_eq!(rt; came_of(&effect), Came::Started(mark), "{sent}");
    }
    Ok(())
}

#[test]
fn simulate_one_two(rt: HostRuntime) -> Result<(), Fail> {
    let script = script(rt.alloc(), 1, 2)?;
    assert_eq!(rt; script.len(), 2);
    for i in 0..script.len() {
        match script.at(i) {
            Op::Poll { word } => assert_eq!(rt; (i, *word), (0, 0x5E88_8116)),
            Op::Pass { d, e, f } => assert_eq!(rt; (i, *d, *e, *f), (1, 33_130_000, -796, -251)),
            _ => assert!(rt; false, "{i}"),
        }
    }
    Ok(())
}

/// A request of this kind, unsigned: with this account, version and timestamp.
fn message(kind: Kind, rid: u32, version: u8, count: u32) -> Packet
    requires rid { rid < 2 ^ 31 }
    requires version { version ≤ 7 }
{
    let stamp = Stamp {
        seconds: count,
        fraction: 7,
    };
    let mut packet = request(kind, rid, 0, stamp);
    packet.header.leap = 0;
    packet.header.version = version;
    packet
}

fn ask(kind: Kind, rid: u32, version: u8, count: u32) -> Op
    requires rid { rid < 2 ^ 31 }
    requires version { version ≤ 7 }
{
    Op::Ask {
        bytes: write_packet(&message(kind, rid, version, count)),
    }
}

/// The header of a request alone.
fn plain() -> Op {
    let mut bytes = [0; 48];
    write_header(&message(Kind::Short, 1103, 3, 1).header, &mut bytes);
    Op::Ask {
        bytes: Datagram::from_slice(&bytes),
    }
}

#[test]
fn strangers_guess_no_timestamp(rt: HostRuntime) -> Result<(), Fail> {
    let mut world = World::new(rt.alloc())?;
    let rows = [
        (newest(), Came::Skipped),
        (ask(Kind::Short, 1103, 3, 1), Came::Skipped),
        (ask(Kind::Extended, 1103, 3, 1), Came::Skipped),
        (ask(Kind::Short, 1103, 0, 1), Came::Skipped),
        (
            ask(Kind::Short, 1104, 3, 1),
            Came::NoAnswer(Refusal::UnknownAccount),
        ),
        (plain(), Came::Plain),
        (poll(7), Came::Sent(1)),
        (ask(Kind::Short, 1103, 3, 1), Came::Signed),
        (ask(Kind::Extended, 1103, 3, 1), Came::Signed),
        (
            ask(Kind::Short, 1103, 0, 1),
            Came::NoAnswer(Refusal::BadVersion),
        ),
        (ask(Kind::Short, 1103, 3, 2), Came::Skipped),
        // The packets, the newest one first: the extended reply, the short one, the request, and the plain reply.
        (Op::Deliver { back: 3 }, Came::Refused(Reason::BadLength)),
        (Op::Deliver { back: 2 }, Came::Signed),
        (Op::Deliver { back: 5 }, Came::Skipped),
        (newest(), Came::Slewed(30_000_000)),
    ];
    expect(&rt, &mut world, &rows)
}

/// The packet that was sent last, as bytes.
fn last(world: &World) -> Result<Datagram, Fail> {
    match world.packet(0) {
        Some(packet) => Ok(packet.bytes.copy()),
        None => Err(Fail::new("no packet")),
    }
}

fn craft(bytes: &[u8]) -> Op {
    Op::Craft {
        bytes: Datagram::from_slice(bytes),
    }
}

/// The same short message, of which the last bit is another one.
fn flipped(bytes: &[u8]) -> Op {
    let mut copy = [0; 68];
    for (to, from) in copy.iter_mut().zip(bytes) {
        *to = *from;
    }
    copy[67] ^= 1;
    craft(&copy)
}

/// A reply that the controller never made: with this mode and stratum, and under the account's key.
fn forged(kind: Kind, rid: u32, mode: u8, stratum: u8, originate: u32) -> Packet
    requires rid { rid < 2 ^ 31 }
    requires mode { mode ≤ 7 }
{
    let stamp = Stamp {
        seconds: originate,
        fraction: 7,
    };
    let mut packet = request(kind, rid, 0, stamp);
    packet.header.leap = 0;
    packet.header.mode = mode;
    packet.header.stratum = stratum;
    packet.header.originate = stamp;
    sign(&packet, &ACCOUNT.current)
}

fn craft_forged(kind: Kind, rid: u32, mode: u8) -> Op
    requires rid { rid < 2 ^ 31 }
    requires mode { mode ≤ 7 }
{
    Op::Craft {
        bytes: write_packet(&forged(kind, rid, mode, 1, 1)),
    }
}

#[test]
fn strangers_forge_nothing(rt: HostRuntime) -> Result<(), Fail> {
    let mut world = World::new(rt.alloc())?;
    let rows = [
        (poll(7), Came::Sent(1)),
        (craft_forged(Kind::Short, 1103, 4), Came::Skipped),
        (craft_forged(Kind::Short, 5, 4), Came::Skipped),
        (craft_forged(Kind::Short, 1103, 3), Came::Skipped),
        (craft_forged(Kind::Extended, 1103, 4), Came::Skipped),
        (craft(b"0123456789"), Came::Refused(Reason::BadLength)),
        (newest(), Came::Signed),
    ];
    expect(&rt, &mut world, &rows)?;
    let reply = last(&world)?;
    let rows = [
        (flipped(reply.as_slice()), Came::Refused(Reason::BadDigest)),
        (craft(reply.as_slice()), Came::Slewed(30_000_000)),
        (craft(reply.as_slice()), Came::Refused(Reason::NoRequest)),
    ];
    expect(&rt, &mut world, &rows)
}
