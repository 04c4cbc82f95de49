//! What arrives: the first reason for which it is refused, or the correction.
ghost use Rattle.std.specs.Prelude.{◌≡◌, ◌<◌, ◌^◌, ◌≤ℤ◌, ◌+ℤ◌, pos, true, not, find, Some, unsigned_abs};
ghost use Rattle.base_specs.specs.Time.{IsReading};
ghost use Rattle.ntp_wire.specs.Stamp.{IsInReach};
ghost use Rattle.time_machine.specs.Told.{base_moved};
ghost use Rattle.time_machine.specs.Verdict.{is_answered, is_bad_source};
ghost use Rattle.sntp_core.specs.Packets.{is_tail_of, names_another};
ghost use Rattle.sntp_core.specs.Ranges.{IsBase};

use crate::Member;
use edge_traits::Addr;
use ms_auth::{Kind, Packet, SIGNATURE_HASH, Tail, read_packet, short_rid};
use ntp_wire::{Header, to_ticks};
use phase_rule::{Judged, judge, next_poll};
use time_machine::{
    How, Outcome, Reason, Request, has_bad_times, is_bad_mode, is_bad_stratum, is_same_addr,
    offset_of,
};

impl Member {
    ghost use Rattle.time_machine.specs.Told.{IsRefused};
    ghost use Rattle.time_machine.specs.Verdict.{verdict_at, verdict_by_times};
    ghost use Rattle.time_machine.specs.After.{after_arrival, after_move};
    ghost use Rattle.sntp_core.specs.Packets.{packet_verdict, verdict_on_packet};
    ghost use Rattle.sntp_core.specs.Ranges.{IsSmall};
    ghost use Rattle.sntp_core.specs.Standing.{words_of};

    /// Takes a datagram.
    pub(crate) fn arrive(&mut self, now: i64, from: Addr, bytes: &[u8]) -> Outcome
        requires now { IsReading now }
        ensures conf { self.new.conf ≡ self.old.conf }
        ensures words { words_of self.new ≡ after_arrival self.old.conf (words_of self.old) now
            (verdict_at self.old.conf (words_of self.old) now from bytes.now) }
        ensures answer { result ≡ verdict_at self.old.conf (words_of self.old) now from bytes.now }
        ensures refused { IsRefused result → self.new ≡ self.old }
    {
        let outcome = self.verdict(now, from, bytes);
        if let Outcome::Moved { offset, how, .. } = &outcome {
            self.accept(now, *offset, *how);
        }
        outcome
    }

    /// Keeps what follows from an accepted reply: no request is open any more, the poll exponent moves, the polling
    /// interval begins at the corrected reading, and this partner is the source.
    #[tactic(auto, using(crate::proofs::Places::place_small))]
    fn accept(&mut self, now: i64, offset: i64, how: How)
        requires now { IsReading now }
        requires small { unsigned_abs offset < 10 ^ 17 }
        ensures conf { self.new.conf ≡ self.old.conf }
        ensures words { words_of self.new ≡ after_move self.old.conf (words_of self.old) now offset how }
    {
        let limits = self.conf.limits;
        self.open_requests.clear();
        self.poll = next_poll(self.poll, offset, &limits);
        self.base = Some(base_moved(now, offset, how));
        self.source = Some(self.partner);
    }

    /// What a datagram leads to.
    fn verdict(&self, now: i64, from: Addr, bytes: &[u8]) -> Outcome
        requires now { IsReading now }
        ensures same { result ≡ verdict_at self.now.conf (words_of self.now) now from bytes.now }
        ensures small { IsSmall result }
    {
        match read_packet(bytes) {
            Ok(packet) => self.packet_verdict(now, from, &packet),
            Err(_) => Outcome::Refused(Reason::BadLength),
        }
    }

    /// What a message leads to.
    fn packet_verdict(&self, now: i64, from: Addr, packet: &Packet) -> Outcome
        requires now { IsReading now }
        ensures same { result ≡ packet_verdict self.now.conf (words_of self.now) now from packet.now }
        ensures small { IsSmall result }
    {
        if !is_tail_of(self.conf.kind, &packet.tail) {
            Outcome::Refused(Reason::BadLength)
        } else if !self.is_from_partner(from) {
            Outcome::Refused(Reason::BadSource)
        } else if is_bad_mode(&packet.header) {
            Outcome::Refused(Reason::BadMode)
        } else if is_bad_stratum(&packet.header) {
            Outcome::Refused(Reason::BadStratum)
        } else {
            self.server_verdict(now, packet)
        }
    }

    /// What a message of the present partner's leads to.
    fn server_verdict(&self, now: i64, packet: &Packet) -> Outcome
        requires now { IsReading now }
        requires tail { is_tail_of self.now.conf.kind packet.now.tail ≡ true }
        ensures same { result ≡ verdict_on_packet self.now.conf now packet.now
            (find (is_answered now packet.now.header.originate) self.now.open_requests) }
        ensures small { IsSmall result }
    {
        match self.open_requests.answered(now, packet.header.originate) {
            None => Outcome::Refused(Reason::NoRequest),
            Some(request) => self.reply_verdict(now, packet, &request),
        }
    }

    /// Whether this is the present partner's address.
    #[tactic(auto, using(crate::proofs::Places::place_small))]
    fn is_from_partner(&self, from: Addr) -> bool
        ensures { result ≡ not (is_bad_source self.now.conf (words_of self.now) from) }
    {
        is_same_addr(from, self.partner_address())
    }

    /// What a reply to this request leads to.
    #[tactic(auto, using(crate::proofs::Carrying::tail_for))]
    fn reply_verdict(&self, now: i64, packet: &Packet, request: &Request) -> Outcome
        requires now { IsReading now }
        requires tail { is_tail_of self.now.conf.kind packet.now.tail ≡ true }
        requires before { request.now.at ≤ℤ now }
        requires window { now ≤ℤ (request.now.at +ℤ pos 100000000) }
        ensures same { result ≡ verdict_on_packet self.now.conf now packet.now (Some request.now) }
        ensures small { IsSmall result }
    {
        if names_another(self.conf.account.rid, &packet.tail) {
            Outcome::Refused(Reason::BadKeyId)
        } else if !self.keys.carries_either(packet) {
            Outcome::Refused(Reason::BadDigest)
        } else {
            let received = to_ticks(packet.header.receive, now);
            let sent = to_ticks(packet.header.transmit, now);
            self.times_verdict(now, request, received, sent)
        }
    }

    /// What a reply to this request leads to that was received and sent at these times.
    fn times_verdict(&self, now: i64, request: &Request, received: i64, sent: i64) -> Outcome
        requires now { IsReading now }
        requires received { IsInReach now received }
        requires sent { IsInReach now sent }
        requires before { request.now.at ≤ℤ now }
        requires window { now ≤ℤ (request.now.at +ℤ pos 100000000) }
        ensures same { result ≡ verdict_by_times self.now.conf.limits now request.now received sent }
        ensures small { IsSmall result }
    {
        if has_bad_times(request.at, received, sent, now) {
            return Outcome::Refused(Reason::BadTimes);
        }
        let count = request.count;
        let offset = offset_of(request.at, received, sent, now);
        match judge(offset, &self.conf.limits) {
            Judged::TooBig => Outcome::Refused(Reason::TooBig),
            Judged::Step => Outcome::Moved {
                count,
                offset,
                how: How::Step,
            },
            Judged::Slew => Outcome::Moved {
                count,
                offset,
                how: How::Slew,
            },
        }
    }
}

/// Whether the tail is that of a message of this kind.
fn is_tail_of(kind: Kind, tail: &Tail) -> bool
    ensures { result ≡ is_tail_of kind tail.now }
{
    match (kind, tail) {
        (Kind::Short, Tail::Short68 { .. }) => true,
        (Kind::Extended, Tail::Ext120 { .. }) => true,
        _ => false,
    }
}

/// Whether the tail names another account, or another digest than the one of this profile.
fn names_another(rid: u32, tail: &Tail) -> bool
    ensures { result ≡ names_another rid tail.now }
{
    match tail {
        Tail::Plain => true,
        Tail::Short68 { key_id, .. } => short_rid(*key_id) != rid,
        Tail::Ext120 {
            rid: other,
            hash,
            ..
        } => *other != rid || *hash != SIGNATURE_HASH,
    }
}

/// The reading after a correction: a step moves the clock at once, a slew bit by bit.
pub(crate) fn base_moved(now: i64, offset: i64, how: How) -> i64
    requires now { IsReading now }
    requires small { unsigned_abs offset < 10 ^ 17 }
    ensures value { result ≡ base_moved now offset how }
    ensures base { IsBase result }
{
    match how {
        How::Step => now + offset,
        How::Slew => now,
    }
}
