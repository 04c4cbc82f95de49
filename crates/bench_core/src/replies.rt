//! The history of a round, and its replies.
ghost use Rattle.std.specs.Prelude.{IsTrue};
ghost use Rattle.base_specs.specs.Time.{IsReading};

use capture_fmt::Event;
use edge_traits::{Addr, Datagram};
use ms_auth::{Kind, Packet, Tail, sign, write_packet};
use ntp_wire::{Header, Stamp, to_ntp};
use std::alloc::{AllocError, Global};

/// How many requests a round has.
pub const REQUESTS: u32 = 4_000;

/// The key of the member's account.
pub const KEY: [u8; 16] = *b"0123456789abcdef";

/// The RID of the member's account.
pub const RID: u32 = 1103;

/// The address that the member asks.
pub const PARTNER: Addr = Addr {
    ip: 0x0A00_0002,
    port: 123,
};

/// 1 January 2020, in ticks.
const BEGIN: i64 = 132_223_104_000_000_000;

/// From one request to the next: two seconds.
const INTERVAL: i64 = 20_000_000;

/// From a request to its reply: a millisecond.
const ON_THE_WAY: i64 = 10_000;

/// What is answered, and how.
#[derive(Clone, Copy, PartialEq, Eq)]
pub enum Answers {
    None,
    Accepted,
    Stray,
    Forged,
}

/// A life with its requests, each perhaps with its reply.
pub fn history(alloc: Global, kind: Kind, answers: Answers) -> Result<Vec<Event>, AllocError> {
    let mut events = Vec::new(alloc);
    events.push(Event::Life {
        now: BEGIN,
        mark: 0,
    })?;
    for count in 1..REQUESTS + 1 {
        let now = BEGIN + i64::from(count) * INTERVAL;
        events.push(Event::Tick { now, word: count })?;
        if let Some(event) = arrival(kind, answers, count, now) {
            events.push(event)?;
        }
    }
    Ok(events)
}

/// The arrival of the reply to the request with this count, which was sent at this reading.
fn arrival(kind: Kind, answers: Answers, count: u32, sent: i64) -> Option<Event> {
    let asked = match answers {
        Answers::None => return None,
        Answers::Stray => 0,
        Answers::Accepted | Answers::Forged => count,
    };
    Some(Event::Arrive {
        now: sent.saturating_add(ON_THE_WAY),
        from: PARTNER,
        bytes: reply(kind, asked, sent, answers == Answers::Forged),
    })
}

/// A reply to the request with this count, which was sent at this reading.
fn reply(kind: Kind, count: u32, sent: i64, is_forged: bool) -> Datagram {
    let mut key = KEY;
    if is_forged {
        key[0] = 0;
    }
    let tail = match kind {
        Kind::Short => Tail::Short68 {
            key_id: RID,
            sum: [0; 16],
        },
        Kind::Extended => Tail::Ext120 {
            rid: RID,
            reserved: 0,
            flags: 0,
            hints: 1,
            hash: 1,
            sum: [0; 64],
        },
    };
    let header = header(count, sent.saturating_add(ON_THE_WAY / 2));
    write_packet(&sign(&Packet { header, tail }, &key))
}

/// The header of a reply, by a clock that agrees with the member's.
fn header(count: u32, now: i64) -> Header {
    let stamp = stamp_of(now);
    Header {
        leap: 0,
        version: 3,
        mode: 4,
        stratum: 1,
        poll: 10,
        precision: -23,
        root_delay: 0,
        root_dispersion: 0,
        reference_id: *b"LOCL",
        reference: stamp,
        originate: Stamp {
            seconds: count,
            fraction: count,
        },
        receive: stamp,
        transmit: stamp,
    }
}

/// The timestamp of a reading, or of the first one where this is none.
fn stamp_of(now: i64) -> Stamp {
    if is_reading(now) {
        to_ntp(now)
    } else {
        to_ntp(0)
    }
}

/// Whether a clock may read this.
pub fn is_reading(now: i64) -> bool
    ensures { IsTrue result → IsReading now }
{
    0 <= now && now <= 4_000_000_000_000_000_000
}
