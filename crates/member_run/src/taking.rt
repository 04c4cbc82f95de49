//! Taking events.

use crate::Running;
use crate::devices::{Devices, Tells, write_line, write_record};
use capture_fmt::Event;
use edge_traits::{Addr, Clock, Datagram, Entropy, Link, Put, Sink};
use run_deeds::Why;
use slot_disk::Disk;
use sntp_core::{How, Outcome};

impl Running {
    ghost use Rattle.std.specs.Prelude.{◌≡◌, ◌∷◌, [], ℕ, List, Option, IfOk, OnErr, OnOk, IsTrue, Some};
    ghost use Rattle.std.specs.Prelude.{Err};
    ghost use Rattle.capture_fmt.specs.Event.{EventFits};
    ghost use Rattle.capture_fmt.specs.Record.{event_bytes};
    ghost use Rattle.edge_seen.specs.Seen.{Seen};
    ghost use Rattle.time_machine.specs.Events.{History, IsRead, is_life, mark_of};
    ghost use Rattle.run_deeds.specs.declared.life_end.Why.{Why};
    ghost use Rattle.time_machine.specs.Growing.{MayFollow};
    ghost use Rattle.sntp_core.specs.Standing.{StandsForHistory, conf_of, words_of};
    ghost use Rattle.run_deeds.specs.Counting.{counted};
    ghost use Rattle.run_deeds.specs.Parts.{why_of};
    ghost use Rattle.member_run.specs.Asking.{WrittenBy};
    ghost use Rattle.member_run.specs.Taking.{Acts, IsCut, IsTaken, Sends, Steps, Takes};
    ghost use Rattle.member_run.specs.Taking.{last_after, writing};
    ghost use Rattle.member_run.specs.Borrowing.{SameBorrows};

    /// Takes an event: writes its record, steps the member, sends a request or corrects the clock, and prints the
    /// line. An event whose record could not be written is not taken.
    pub(crate) fn take<'l, 'c, 'd, 'e, 'o, 'k, L: Link, C: Clock, D: Disk, E: Entropy, O: Sink>(
        &mut self,
        event: &Event,
        devices: &mut Devices<'l, 'c, 'd, 'e, 'o, 'k, L, C, D, E, O>,
    ) -> Result<Outcome, Why>
        requires admitted { MayFollow
            (conf_of self.old.member) (words_of self.old.member) event.now }
        requires fits { EventFits event.now }
        requires read { IsRead event.now }

        // No other device is asked.
        ensures takes { let seen = ⟦<Devices<'l, 'c, 'd, 'e, 'o, 'k, L, C, D, E, O> as Tells>⟧.seen in
            (others : Seen) (history : History)
            → StandsForHistory self.old.member history
            → Takes (conf_of self.old.member) history event.now []
            (seen others devices.old)
            (seen others devices.new)
            self.new.member self.old.totals self.new.totals (why_of result) }
        ensures borrows { SameBorrows devices.old devices.new }
        ensures disk_alone { devices.new.disk ≡ devices.old.disk }
        ensures entropy_alone { devices.new.entropy ≡ devices.old.entropy }
        ensures taken { IfOk result (IsTaken self.old self.new event.now) }
        ensures cut { OnErr result (IsCut self.old self.new event.now) }
        ensures why { OnErr result (result ≡ Err Why.SinkFault) }
    {
        let outcome = self.step(event, devices.capture)?;
        self.act(&outcome, devices.link, devices.clock);
        write_line(&outcome, devices.out)?;
        Ok(outcome)
    }

    /// Takes the first event of a run, the Life: writes its record, steps the member and prints the line.
    pub(crate) fn take_life<O: Sink>(
        &mut self,
        event: &Event,
        out: &mut O,
        capture: &mut O,
    ) -> Result<(), Why>
        requires admitted { MayFollow
            (conf_of self.old.member) (words_of self.old.member) event.now }
        requires fits { EventFits event.now }
        requires read { IsRead event.now }
        requires life { IsTrue (is_life event.now) }
        ensures takes { (others : Seen) (history : History)
            → StandsForHistory self.old.member history
            → Takes (conf_of self.old.member) history event.now []
            (writing others (O.written capture.old) (O.written out.old)
            (O.faults capture.old) (O.faults out.old))
            (writing others (O.written capture.new) (O.written out.new)
            (O.faults capture.new) (O.faults out.new))
            self.new.member self.old.totals self.new.totals (why_of result) }
        ensures stands { OnOk result ((history : History) → StandsForHistory self.old.member history
            → StandsForHistory self.new.member (event.now ∷ history)) }
        ensures last { OnOk result ((history : History) → StandsForHistory self.old.member history
            → Some self.new.last ≡ mark_of event.now) }
        ensures totals { (history : History) → StandsForHistory self.old.member history
            → self.new.totals ≡ self.old.totals }
        ensures conf { conf_of self.new.member ≡ conf_of self.old.member }
        ensures keeper { self.new.keeper ≡ self.old.keeper }
        ensures why { OnErr result (result ≡ Err Why.SinkFault) }
    {
        let outcome = self.step(event, capture)?;
        write_line(&outcome, out)
    }

    /// Writes the record of an event, steps the member and counts what it leads to.
    fn step<O: Sink>(&mut self, event: &Event, capture: &mut O) -> Result<Outcome, Why>
        requires admitted { MayFollow
            (conf_of self.old.member) (words_of self.old.member) event.now }
        requires fits { EventFits event.now }
        requires read { IsRead event.now }
        ensures record_bytes { WrittenBy (why_of result) (event_bytes event.now)
            (O.written capture.old) (O.written capture.new)
            (O.faults capture.old) (O.faults capture.new) }
        ensures steps { IfOk result (Steps self.old.member self.new.member event.now) }
        ensures totals { IfOk result
            (λ outcome. self.new.totals ≡ counted event.now outcome self.old.totals) }
        ensures last { IfOk result
            (λ outcome. self.new.last ≡ last_after outcome self.old.last) }
        ensures conf { conf_of self.new.member ≡ conf_of self.old.member }
        ensures keeper { self.new.keeper ≡ self.old.keeper }
        ensures err { OnErr result (self.new ≡ self.old) }
        ensures why { OnErr result (result ≡ Err Why.SinkFault) }
    {
        write_record(event, capture)?;
        let outcome = self.member.step(event);
        self.totals.count_event(event, &outcome);
        self.note(&outcome);
        Ok(outcome)
    }

    /// Notes the last count.
    fn note(&mut self, outcome: &Outcome)
        ensures { self.new ≡ record self.old { last = last_after outcome.now self.old.last } }
    {
        match outcome {
            Outcome::Started { mark } => self.last = *mark,
            Outcome::Sent { count, .. } => self.last = *count,
            Outcome::Idle | Outcome::Moved { .. } | Outcome::Refused(_) => {}
        }
    }

    /// Sends the request or corrects the clock, as an outcome says. A failed send is counted.
    fn act<L: Link, C: Clock>(&mut self, outcome: &Outcome, link: &mut L, clock: &mut C)
        ensures acts { Acts outcome.now (L.told link.old) (L.told link.new)
            (C.told clock.old) (C.told clock.new)
            (L.faults link.old) (L.faults link.new) self.old.totals self.new.totals }
        ensures clock { C.faults clock.new ≡ C.faults clock.old }
        ensures same { self.new ≡ record self.old { totals = self.new.totals } }
    {
        match outcome {
            Outcome::Sent { to, bytes, .. } => self.send(*to, bytes, link),
            Outcome::Moved { offset, how, .. } => match how {
                How::Step => clock.step(*offset),
                How::Slew => clock.slew(*offset),
            },
            Outcome::Started { .. } | Outcome::Idle | Outcome::Refused(_) => {}
        }
    }

    /// Sends a request.
    fn send<L: Link>(&mut self, to: Addr, bytes: &Datagram, link: &mut L)
        ensures sent { Sends to bytes.now (L.told link.old) (L.told link.new)
            (L.faults link.old) (L.faults link.new) self.old.totals self.new.totals }
        ensures same { self.new ≡ record self.old { totals = self.new.totals } }
    {
        match link.send(to, bytes.as_slice()) {
            Put::Done => {}
            Put::Failed => self.totals.count_lost(),
        }
    }
}
