//! What an answer says.
ghost use Rattle.std.specs.Prelude.{◌≡◌};
ghost use Rattle.base_specs.specs.Time.{IsReading};
ghost use Rattle.ntp_wire.specs.Stamp.{IsInReach};
ghost use Rattle.monitor_run.specs.Asking.{finding_by};
ghost use Rattle.monitor_run.specs.Progress.{HeardFits};
ghost use Rattle.monitor_run.specs.Finding.{finding_of, finding_of_times, is_bad_length, is_bad_source, is_other_stamp};

use crate::asking::{Ask, Heard};
use crate::finding::{Finding, Word};
use edge_traits::Addr;
use ntp_wire::{HEADER_LEN, Stamp, read_header, to_ticks};
use time_machine::{delay_of, has_bad_times, is_bad_mode, is_bad_stratum, is_same_addr, offset_of};

impl Ask {
    /// What is found by it of the computer at the address that was asked.
    pub(crate) fn finding(&self, to: Addr) -> Finding
        requires sent { IsReading self.now.at }
        requires heard { HeardFits self.now.heard }
        ensures { result ≡ finding_by to self.now.stamp self.now.at self.now.heard }
    {
        match &self.heard {
            Heard::Came(from, bytes, at) => self.finding_of(to, *from, bytes.as_slice(), *at),
            Heard::Quiet | Heard::Lost => Finding::Wrong(Word::NoAnswer),
        }
    }

    /// What a datagram says: the first word that applies, or how far the clock is.
    fn finding_of(&self, to: Addr, from: Addr, bytes: &[u8], now: i64) -> Finding
        requires sent { IsReading self.now.at }
        requires now { IsReading now }
        ensures { result ≡ finding_of to self.now.stamp self.now.at from bytes.now now }
    {
        let Ok(header) = read_header(bytes) else {
            return Finding::Wrong(Word::BadLength);
        };
        if is_bad_length(bytes) {
            Finding::Wrong(Word::BadLength)
        } else if is_bad_source(to, from) {
            Finding::Wrong(Word::BadSource)
        } else if is_bad_mode(&header) {
            Finding::Wrong(Word::BadMode)
        } else if is_bad_stratum(&header) {
            Finding::Wrong(Word::BadStratum)
        } else if is_other_stamp(self.stamp, header.originate) {
            Finding::Wrong(Word::NoRequest)
        } else {
            let received = to_ticks(header.receive, now);
            let sent = to_ticks(header.transmit, now);
            finding_of_times(self.at, received, sent, now, header.stratum)
        }
    }
}

/// Whether the bytes are no header alone.
fn is_bad_length(bytes: &[u8]) -> bool
    ensures { result ≡ is_bad_length bytes.now }
{
    bytes.len() != HEADER_LEN
}

/// Whether the sender isn't the one that was asked.
fn is_bad_source(asked: Addr, from: Addr) -> bool
    ensures { result ≡ is_bad_source asked from }
{
    !is_same_addr(from, asked)
}

/// Whether the timestamp that was brought back isn't the one that was sent.
fn is_other_stamp(sent: Stamp, originate: Stamp) -> bool
    ensures { result ≡ is_other_stamp sent originate }
{
    originate.seconds != sent.seconds || originate.fraction != sent.fraction
}

/// What the four times of a request and its answer say.
fn finding_of_times(t1: i64, t2: i64, t3: i64, t4: i64, stratum: u8) -> Finding
    requires before { IsReading t1 }
    requires now { IsReading t4 }
    requires received { IsInReach t4 t2 }
    requires sent { IsInReach t4 t3 }
    ensures { result ≡ finding_of_times t1 t2 t3 t4 stratum }
{
    if has_bad_times(t1, t2, t3, t4) {
        return Finding::Wrong(Word::BadTimes);
    }
    Finding::Answered {
        offset: offset_of(t1, t2, t3, t4),
        delay: delay_of(t1, t2, t3, t4),
        stratum,
    }
}
