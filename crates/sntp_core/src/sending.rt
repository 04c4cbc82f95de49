//! The events that begin a life or send a request.
ghost use Rattle.std.specs.Prelude.{◌≡◌, ◌==◌, ◌||◌, ◌+◌, ◌%◌, ◌^◌, ◌<◌, ◌≤◌, length, slice_get, unwrap_or, Some, IsTrue};
ghost use Rattle.base_specs.specs.Time.{IsReading};

use crate::Member;
use edge_traits::{Addr, Datagram};
use ms_auth::{request, write_packet};
use ntp_wire::Stamp;
use time_machine::{Outcome, Request};

/// How many requests are open at most.
const MOST_OPEN: usize = 8;

/// The flag of a Resync that asks for the best partner anew.
const REDISCOVER: u32 = 4;

/// Ticks in a second.
const SECOND: u64 = 10_000_000;

impl Member {
    ghost use Rattle.capture_fmt.specs.declared.event.Event.{Event};
    ghost use Rattle.time_machine.specs.declared.outcome.Outcome.{Outcome};
    ghost use Rattle.time_machine.specs.Told.{IsRefused};
    ghost use Rattle.time_machine.specs.Verdict.{address_at};
    ghost use Rattle.time_machine.specs.Machine.{outcome_by, is_due, count_at, stamp_at, partner_as, request_as};
    ghost use Rattle.time_machine.specs.Growing.{HasCounts};
    ghost use Rattle.time_machine.specs.After.{after, after_life, after_turn, after_send};
    ghost use Rattle.ms_auth.specs.Request.{request_bytes};
    ghost use Rattle.sntp_core.specs.Standing.{words_of};

    /// Begins a life. Nothing is kept of the earlier ones but the greatest count.
    pub(crate) fn start(&mut self, mark: u32) -> Outcome
        ensures conf { self.new.conf ≡ self.old.conf }
        ensures words { words_of self.new ≡ after_life self.old.conf (words_of self.old) mark }
        ensures outcome { result ≡ Outcome.Started mark }
    {
        // There is one partner at least.
        let _partners = self.conf.partners.as_slice();
        self.turn(true);
        self.mark = Some(mark);
        self.sent = 0;
        self.base = None;
        self.partner = 0;
        self.source = None;
        Outcome::Started { mark }
    }

    /// Sends a request, if one is due.
    pub(crate) fn tick(&mut self, now: i64, word: u32) -> Outcome
        requires now { IsReading now }
        requires counts { HasCounts (words_of self.old) }
        ensures conf { self.new.conf ≡ self.old.conf }
        ensures words { words_of self.new ≡ after self.old.conf (words_of self.old) (Event.Tick now word) }
        ensures answer { result ≡ outcome_by self.old.conf (words_of self.old) (Event.Tick now word) }
        ensures refused { IsRefused result → self.new ≡ self.old }
    {
        if self.is_due(now) {
            let is_full = self.is_full();
            self.send(now, word, false, is_full)
        } else {
            Outcome::Idle
        }
    }

    /// Sends a request, to the first partner in rank where that is asked for.
    pub(crate) fn resync(&mut self, now: i64, word: u32, flags: u32) -> Outcome
        requires now { IsReading now }
        requires counts { HasCounts (words_of self.old) }
        ensures conf { self.new.conf ≡ self.old.conf }
        ensures words { words_of self.new ≡ after self.old.conf (words_of self.old) (Event.Resync now word flags) }
        ensures answer { result ≡ outcome_by self.old.conf (words_of self.old) (Event.Resync now word flags) }
        ensures refused { IsRefused result → self.new ≡ self.old }
    {
        let is_full = self.is_full();
        if flags & REDISCOVER == REDISCOVER {
            self.send(now, word, true, false)
        } else {
            self.send(now, word, false, is_full)
        }
    }

    /// Whether the partner has left eight requests without an answer.
    fn is_full(&self) -> bool
        ensures { result ≡ (length self.now.open_requests == 8) }
    {
        self.open_requests.len() == MOST_OPEN
    }

    /// Whether a Tick sends: it is the first in this life, its reading is before the base, or the interval is over.
    fn is_due(&self, now: i64) -> bool
        requires { IsReading now }
        ensures { result ≡ is_due (words_of self.now) now }
    {
        if self.sent == 0 {
            return true;
        }
        match self.base {
            Some(base) => {
                let interval = (1u64 << self.poll) * SECOND;
                now < base || base + interval as i64 <= now
            }
            None => false,
        }
    }

    /// Sends the next request, to the partner that this event takes.
    fn send(&mut self, now: i64, word: u32, resets: bool, changes: bool) -> Outcome
        requires now { IsReading now }
        requires counts { count_at (words_of self.old) < 2 ^ 32 }
        requires room { length self.old.open_requests ≡ 8 → IsTrue (resets || changes) }
        ensures conf { self.new.conf ≡ self.old.conf }
        ensures words { words_of self.new ≡ after_send self.old.conf (words_of self.old) resets changes now word }
        ensures outcome { result ≡ request_as self.old.conf (words_of self.old) resets changes word }
    {
        self.partner = self.partner_after(resets, changes);
        self.turn(resets || changes);
        let count = self.count() + 1;
        self.sent += 1;
        self.greatest = count.max(self.greatest);
        self.base = Some(now);
        self.open_requests.add(Request {
            count,
            word,
            at: now,
        });
        Outcome::Sent {
            to: self.partner_address(),
            count,
            bytes: self.request(count, word),
        }
    }

    /// The request with this timestamp, at the present polling interval.
    fn request(&self, count: u32, word: u32) -> Datagram
        ensures { result ≡ request_bytes self.now.conf.kind self.now.conf.account.rid self.now.poll
            (record { seconds = count; fraction = word }) }
    {
        let stamp = Stamp {
            seconds: count,
            fraction: word,
        };
        let packet = request(self.conf.kind, self.conf.account.rid, self.poll, stamp);
        write_packet(&packet)
    }

    /// The last count: the mark, and what was sent in this life.
    fn count(&self) -> u32
        requires { count_at (words_of self.now) ≤ 2 ^ 32 }
        ensures { result + 1 ≡ count_at (words_of self.now) }
    {
        self.mark.unwrap_or(0) + self.sent
    }

    /// Closes all requests and sets the polling interval to its least, at a turning point.
    fn turn(&mut self, turns: bool)
        requires { length self.old.open_requests ≡ 8 → IsTrue turns }
        ensures conf { self.new.conf ≡ self.old.conf }
        ensures words { words_of self.new ≡ after_turn self.old.conf (words_of self.old) turns }
        ensures room { length self.new.open_requests < 8 }
    {
        if turns {
            self.open_requests.clear();
            self.poll = self.conf.limits.min_poll;
        }
    }

    /// The place of the partner that an event takes.
    #[tactic(auto, using(crate::proofs::Places::place_small))]
    fn partner_after(&self, resets: bool, changes: bool) -> usize
        ensures same { result ≡ partner_as self.now.conf (words_of self.now) resets changes }
        ensures within { result < length self.now.conf.partners }
    {
        if resets {
            0
        } else if changes {
            self.next_partner()
        } else {
            self.partner
        }
    }

    /// The next place in rank. After the last one comes the first.
    #[tactic(auto, using(crate::proofs::Places::place_small, crate::proofs::Places::place_round))]
    fn next_partner(&self) -> usize
        ensures same { result ≡ (self.now.partner + 1) % length self.now.conf.partners }
        ensures within { result < length self.now.conf.partners }
    {
        let partners = self.conf.partners.as_slice().len();
        if self.partner + 1 == partners {
            0
        } else {
            self.partner + 1
        }
    }

    /// The present partner's address.
    pub(crate) fn partner_address(&self) -> Addr
        ensures { result ≡ address_at self.now.conf self.now.partner }
    {
        self.conf.partners.as_slice()[self.partner]
    }
}
