//! What the tests share: settings, a member that is told events and writes its lines, replies, and a comparison.
ghost use Rattle.std.specs.Prelude.{◌≡◌, ◌<◌, ◌≤◌, ◌^◌, IsTrue, length};
ghost use Rattle.base_specs.specs.Time.{IsReading};
ghost use Rattle.time_machine.specs.Events.{IsRead};

use crate::{Conf, Member, Outcome, Partners, line_of};
use capture_fmt::Event;
use edge_traits::{Addr, Datagram};
use key_book::Account;
use ms_auth::{Kind, Packet, Tail, sign, write_packet};
use ntp_wire::{Header, Stamp, to_ntp};
use phase_rule::Limits;
use std::alloc::Global;
use std::fmt::Debug;
use std::process::Abort;
use std::test::Fail;

/// 1 January 2020, in ticks.
pub const R0: i64 = 132_223_104_000_000_000;

pub const SECOND: i64 = 10_000_000;

pub const FIRST: Addr = Addr {
    ip: 0x0A00_0002,
    port: 123,
};

pub const NEXT: Addr = Addr {
    ip: 0x0A00_0001,
    port: 123,
};

pub const LAST: Addr = Addr {
    ip: 0x0A00_0003,
    port: 123,
};

/// The bytes 00 to 0F.
pub const KEY: [u8; 16] = [0, 1, 2, 3, 4, 5, 6, 7, 8, 9, 10, 11, 12, 13, 14, 15];

pub const RID: u32 = 1103;

/// Limits of a member: two days, five minutes.
pub const QUICK: Limits = Limits {
    max_pos: 172_800,
    max_neg: 172_800,
    max_allowed: 300,
    min_poll: 0,
    max_poll: 17,
};

/// What a member is told, with the reading of its clock. A reply comes from the first partner and is signed under the
/// current key.
#[derive(Clone, Copy)]
pub enum Told {
    /// A life with this mark.
    Life(i64, u32),
    /// A Tick with this word.
    Tick(i64, u32),
    /// A call with this word and these flags.
    Resync(i64, u32, u32),
    /// The reply to the request with this count and word, which was sent at this time: received 3 seconds later by the
    /// server's clock, and sent a millisecond after that.
    Reply(i64, u32, u32, i64),
    /// The same, received and sent at these times by the server's clock.
    ReplyBy(i64, u32, u32, i64, i64),
    /// These bytes from the first partner.
    Bytes(i64, &'static [u8]),
    /// The lines so far are dropped.
    Forget,
}

/// A member that is told events one by one, and the lines that it wrote.
#[derive(Drop)]
pub struct Run {
    pub member: Member,
    pub report: Vec<u8>,
}

impl Run {
    /// A member of the account 1103 with these partners.
    pub fn new(alloc: Global, kind: Kind, limits: Limits, addrs: &[Addr]) -> Result<Run, Fail> {
        let mut list = Vec::new(alloc);
        for addr in addrs {
            list.push(*addr)?;
        }
        if list.is_empty() {
            return Err(Fail::from("no partner"));
        }
        let account = Account {
            rid: RID,
            current: KEY,
            previous: Some([0x11; 16]),
        };
        let conf = Conf {
            kind,
            account,
            limits,
            partners: Partners::new(list),
        };
        Ok(Run {
            member: Member::new(conf),
            report: Vec::new(alloc),
        })
    }

    /// Takes an event that is admitted, and writes its line.
    pub fn take(&mut self, event: &Event) -> Result<Outcome, Fail> {
        if !is_read(event) || !self.member.admits(event) {
            return Err(Fail::from("not admitted"));
        }
        let outcome = self.member.step(event);
        self.report.extend_from_slice(line_of(&outcome).as_slice())?;
        Ok(outcome)
    }

    /// Whether what is told is admitted. A reply is never asked for.
    pub fn admits(&self, told: Told) -> bool {
        match told {
            Told::Life(now, mark) => self.member.admits(&Event::Life { now, mark }),
            Told::Tick(now, word) => self.member.admits(&Event::Tick { now, word }),
            Told::Resync(now, word, flags) => {
                self.member.admits(&Event::Resync { now, word, flags })
            }
            _ => false,
        }
    }

    /// Takes bytes from a sender.
    pub fn arrive(&mut self, now: i64, from: Addr, bytes: &[u8]) -> Result<Outcome, Fail> {
        let bytes = Datagram::from_slice(bytes);
        self.take(&Event::Arrive { now, from, bytes })
    }

    /// Takes the reply to the request with this count and word.
    fn reply(
        &mut self,
        now: i64,
        count: u32,
        word: u32,
        received: i64,
        sent: i64,
    ) -> Result<Outcome, Fail> {
        let reply = short(header(count, word, received, sent)?, RID);
        self.arrive(now, FIRST, reply.as_slice())
    }

    /// Takes what is told.
    pub fn tell(&mut self, told: Told) -> Result<Outcome, Fail> {
        match told {
            Told::Life(now, mark) => self.take(&Event::Life { now, mark }),
            Told::Tick(now, word) => self.take(&Event::Tick { now, word }),
            Told::Resync(now, word, flags) => self.take(&Event::Resync { now, word, flags }),
            Told::Reply(now, count, word, t1) => {
                let received = t1.saturating_add(3 * SECOND);
                self.reply(now, count, word, received, received.saturating_add(10_000))
            }
            Told::ReplyBy(now, count, word, received, sent) => {
                self.reply(now, count, word, received, sent)
            }
            Told::Bytes(now, bytes) => self.arrive(now, FIRST, bytes),
            Told::Forget => {
                self.report.clear();
                Ok(Outcome::Idle)
            }
        }
    }

    /// Takes one after the other.
    pub fn tell_all(&mut self, all: &[Told]) -> Result<(), Fail> {
        for told in all {
            self.tell(*told)?;
        }
        Ok(())
    }
}

/// What a member with these limits and partners writes where it is told these.
pub fn report_of(
    alloc: Global,
    limits: Limits,
    addrs: &[Addr],
    all: &[Told],
) -> Result<Vec<u8>, Fail> {
    let mut run = Run::new(alloc, Kind::Short, limits, addrs)?;
    run.tell_all(all)?;
    Ok(run.report)
}

/// Both values are the same in this case. A test's proof has a call of it where `assert_eq!` would be written out.
pub fn same<T: PartialEq + Debug, C: Debug>(rt: &impl Abort, got: &T, want: &T, case: &C) {
    assert_eq!(rt; *got, *want, "{case:?}");
}

fn is_reading(now: i64) -> bool
    ensures { IsTrue result → IsReading now }
{
    0 <= now && now <= 4_000_000_000_000_000_000
}

fn is_read(event: &Event) -> bool
    ensures { IsTrue result → IsRead event.now }
{
    match event {
        Event::Life { now, .. } => is_reading(*now),
        Event::Tick { now, .. } => is_reading(*now),
        Event::Resync { now, .. } => is_reading(*now),
        Event::Arrive { now, .. } => is_reading(*now),
    }
}

/// The header of a server's reply to the request with this count and word, received and sent at these times.
pub fn header(count: u32, word: u32, received: i64, sent: i64) -> Result<Header, Fail> {
    if !is_reading(received) || !is_reading(sent) {
        return Err(Fail::from("no reading"));
    }
    let received = to_ntp(received);
    Ok(Header {
        leap: 0,
        version: 3,
        mode: 4,
        stratum: 1,
        poll: 10,
        precision: -23,
        root_delay: 0,
        root_dispersion: 0,
        reference_id: *b"LOCL",
        reference: received,
        originate: Stamp {
            seconds: count,
            fraction: word,
        },
        receive: received,
        transmit: to_ntp(sent),
    })
}

/// A short message with this header, under the current key.
pub fn short(header: Header, key_id: u32) -> Datagram {
    let tail = Tail::Short68 {
        key_id,
        sum: [0; 16],
    };
    write_packet(&sign(&Packet { header, tail }, &KEY))
}
