//! What is measured.
ghost use Rattle.std.specs.Prelude.{IsTrue};
ghost use Rattle.time_machine.specs.Events.{IsRead};

use crate::replies::{Answers, KEY, PARTNER, REQUESTS, RID, history, is_reading};
use capture_fmt::Event;
use key_book::Account;
use mac_kdf::{ext_mac, ext_sum, md5_sum};
use ms_auth::Kind;
use phase_rule::Limits;
use sntp_core::{Conf, Member, Outcome, Partners};
use std::alloc::{AllocError, Global};

/// What is done in a round.
#[derive(Clone, Copy, PartialEq, Eq)]
pub enum Work {
    Ticks,
    Short,
    Extended,
    Stray,
    Forged,
    Md5,
    Hmac,
    Derived,
}

impl Work {
    /// The work of this name.
    pub fn named(name: &str) -> Option<Work> {
        match name {
            "ticks" => Some(Work::Ticks),
            "short" => Some(Work::Short),
            "extended" => Some(Work::Extended),
            "stray" => Some(Work::Stray),
            "forged" => Some(Work::Forged),
            "md5" => Some(Work::Md5),
            "hmac" => Some(Work::Hmac),
            "derived" => Some(Work::Derived),
            _ => None,
        }
    }
}

/// What came of all rounds.
#[derive(Clone, Copy, Default)]
pub struct Counts {
    pub sent: u64,
    pub moved: u64,
    pub refused: u64,
}

/// Does the work so often.
pub fn done(alloc: Global, work: Work, rounds: u32) -> Result<Counts, AllocError> {
    match work {
        Work::Ticks => stepped(alloc, Kind::Short, Answers::None, rounds),
        Work::Short => stepped(alloc, Kind::Short, Answers::Accepted, rounds),
        Work::Extended => stepped(alloc, Kind::Extended, Answers::Accepted, rounds),
        Work::Stray => stepped(alloc, Kind::Short, Answers::Stray, rounds),
        Work::Forged => stepped(alloc, Kind::Short, Answers::Forged, rounds),
        Work::Md5 | Work::Hmac | Work::Derived => Ok(digested(work, rounds)),
    }
}

/// Steps a new member through the history in each round.
fn stepped(alloc: Global, kind: Kind, answers: Answers, rounds: u32) -> Result<Counts, AllocError> {
    let events = history(alloc, kind, answers)?;
    let mut counts = Counts::default();
    for _ in 0..rounds {
        let mut member = member(alloc, kind)?;
        for event in &events {
            count(&mut counts, &mut member, event);
        }
    }
    Ok(counts)
}

/// Takes an event and counts what came of it.
fn count(counts: &mut Counts, member: &mut Member, event: &Event) {
    if !is_read(event) || !member.admits(event) {
        return;
    }
    match member.step(event) {
        Outcome::Sent { .. } => counts.sent = counts.sent.saturating_add(1),
        Outcome::Moved { .. } => counts.moved = counts.moved.saturating_add(1),
        Outcome::Refused(_) => counts.refused = counts.refused.saturating_add(1),
        Outcome::Started { .. } | Outcome::Idle => {}
    }
}

/// Whether the event came at a reading.
fn is_read(event: &Event) -> bool
    ensures { IsTrue result → IsRead event.now }
{
    match event {
        Event::Life { now, .. } => is_reading(*now),
        Event::Tick { now, .. } => is_reading(*now),
        Event::Resync { now, .. } => is_reading(*now),
        Event::Arrive { now, .. } => is_reading(*now),
    }
}

/// A member that asks every second.
fn member(alloc: Global, kind: Kind) -> Result<Member, AllocError> {
    let mut partners = Vec::new(alloc);
    partners.push(PARTNER)?;
    Ok(Member::new(Conf {
        kind,
        account: Account {
            rid: RID,
            current: KEY,
            previous: None,
        },
        limits: Limits {
            max_pos: 172_800,
            max_neg: 172_800,
            max_allowed: 300,
            min_poll: 0,
            max_poll: 0,
        },
        partners: Partners::new(partners),
    }))
}

/// The digests of as many headers as a round has requests. The sum of their first bytes stands for them. Those of extended
/// messages are under a key that was derived once, or derived anew for each.
fn digested(work: Work, rounds: u32) -> Counts {
    let mut counts = Counts::default();
    let mac = ext_mac(&KEY, RID);
    let mut header = [0; 48];
    for _ in 0..rounds {
        for number in 0..REQUESTS {
            header[44..].copy_from_slice(&number.to_be_bytes());
            let first = match work {
                Work::Md5 => md5_sum(&KEY, &header)[0],
                Work::Hmac => mac.sum_with(&header)[0],
                _ => ext_sum(&KEY, RID, &header)[0],
            };
            counts.moved = counts.moved.saturating_add(u64::from(first));
        }
    }
    counts
}
