//! Reading events one after the other.
ghost use Rattle.std.specs.Prelude.{◌≡◌, ◌≢◌, ℕ, ◌≤◌, true, [], List, ◌++◌, Option, Some, Result, Err, IfOk, IfSome};

use crate::buffer::Buffer;
use crate::gather::{Gathered, gather};
use crate::record::PLACE_LIMIT;
use crate::{CaptureFault, Event};
use edge_traits::Source;
use std::marker::Model;

/// Reads the events of a capture, one after the other. It keeps the place of the next record, and the bytes from there on
/// that it took: 4,096 at most.
#[derive(Drop)]
pub struct EventReader {
    alive: bool,
    place: u64,
    held: Buffer,
}

impl Model for EventReader {
    ghost use Rattle.capture_fmt.specs.Reader.{Reader};

    ghost Value = { Reader };

    ghost view = { λ r. record { alive = r.alive; place = r.place; held = r.held } };
}

impl EventReader {
    ghost use Rattle.capture_fmt.specs.declared.event.Event.{Event};
    ghost use Rattle.capture_fmt.specs.declared.fault.CaptureFault.{CaptureFault};
    ghost use Rattle.capture_fmt.specs.Event.{EventFits};
    ghost use Rattle.capture_fmt.specs.Record.{IsCut};
    ghost use Rattle.capture_fmt.specs.Capture.{StandsNext, place_limit};
    ghost use Rattle.capture_fmt.specs.Reader.{HasRead, NextCounts, Nexts, ReadsOn, marked};

    /// A reader at the front of a capture.
    pub fn new() -> EventReader
        ensures fresh { result ≡ record { alive = true; place = 0; held = [] } }
        ensures read { (left : Option (List ℕ)) → HasRead [] result left left }
    {
        EventReader {
            alive: true,
            place: 0,
            held: Buffer::new(),
        }
    }

    /// Whether the next event may be asked for: no call has answered a fault.
    pub fn alive(&self) -> bool
        ensures { result ≡ self.now.alive }
    {
        self.alive
    }

    /// Where the next record begins, in bytes from the front of the capture.
    pub fn place(&self) -> u64
        ensures { result ≡ self.now.place }
    {
        self.place
    }

    /// The next event, or None exactly where the bytes end between two records below 2^40.
    ///
    /// The source is the one that gave the bytes so far. A fault other than `ReadFault` is that of the first record that
    /// is outside the grammar: its first field that is wrong or incomplete decides. `ReadFault` comes only where a read
    /// failed that was needed to judge the record. After a fault the reader is dead, at the place of that record.
    pub fn next<S: Source>(&mut self, source: &mut S) -> Result<Option<Event>, CaptureFault>
        requires { self.old.alive ≡ true }
        ensures next { Nexts result self.old self.new (S.left source.old) (S.left source.new) }
        ensures fits { IfOk result (λ next. IfSome next EventFits) }
        ensures cause { NextCounts result (S.faults source.old) (S.faults source.new) }

        // The source isn't asked at the limit, nor where the bytes held are a whole record or show a fault.
        ensures untouched { place_limit ≤ self.old.place → source.new ≡ source.old }
        ensures unasked { ¬ IsCut self.old.held → source.new ≡ source.old }

        // Where the source tells its bytes, they decide, unless a read fails.
        ensures told { (bytes : List ℕ) → S.left source.old ≡ Some bytes → result ≢ Err CaptureFault.ReadFault
            → StandsNext self.old.place (self.old.held ++ bytes) result }
        ensures exact { (bytes : List ℕ) (answer : Result (Option Event) CaptureFault) → S.left source.old ≡ Some bytes
            → StandsNext self.old.place (self.old.held ++ bytes) answer → result ≢ Err CaptureFault.ReadFault → result ≡ answer }

        // A reader that has read these events goes on from there.
        ensures run { (events : List Event) (left : Option (List ℕ)) → HasRead events self.old left (S.left source.old)
            → ReadsOn result events self.new left (S.left source.new) }
    {
        let next = self.advance(source);
        self.alive = next.is_ok();
        next
    }

    /// Gathers the next record, and takes it from the bytes held.
    fn advance<S: Source>(&mut self, source: &mut S) -> Result<Option<Event>, CaptureFault>
        requires { self.old.alive ≡ true }
        ensures next { Nexts result self.old (marked result self.new) (S.left source.old) (S.left source.new) }
        ensures alive { self.new.alive ≡ true }
        ensures cause { NextCounts result (S.faults source.old) (S.faults source.new) }
        ensures untouched { place_limit ≤ self.old.place → source.new ≡ source.old }
        ensures unasked { ¬ IsCut self.old.held → source.new ≡ source.old }
    {
        if self.place >= PLACE_LIMIT {
            return Err(CaptureFault::TooLong(self.place));
        }
        match gather(source, &mut self.held) {
            Gathered::Event(event, len) => {
                self.held.drop_front(len);
                self.place += len as u64;
                Ok(Some(event))
            }
            Gathered::End => Ok(None),
            Gathered::Flawed(flaw) => Err(flaw.at(self.place)),
            Gathered::Failed => Err(CaptureFault::ReadFault),
        }
    }
}

#[cfg(test)]
mod tests;
