//! How a run ended, and what it came to.
use capture_fmt::Event;
use time_machine::Outcome;

/// Why a run ended.
#[derive(Clone, Copy, Debug, PartialEq, Eq)]
pub enum Why {
    /// All turns were taken, and the closing lines were written.
    Done,
    /// A call of the disk failed, before the life began or where a block of counts was due.
    DiskFault,
    /// The disk is of another version.
    BadVersion,
    /// A block of counts was due, and the disk's mark is above 4,294,967,231.
    StampsSpent,
    /// A reading of the clock failed.
    ClockFault,
    /// The draw of a random word failed.
    EntropyFault,
    /// A write to the report or to the capture failed.
    SinkFault,
}

/// What a run came to. A number that would be greater stands at 4,294,967,295.
#[derive(Clone, Copy, Debug, PartialEq, Eq)]
pub struct LifeEnd {
    /// Requests, those whose sends failed among them.
    pub sent: u32,
    /// Corrections of the clock.
    pub moved: u32,
    /// Refused datagrams.
    pub refused: u32,
    /// Quiet receipts.
    pub quiet: u32,
    /// Failed receives and sends.
    pub lost: u32,
    /// Ticks that were taken.
    pub turns: u32,
    /// Why the run ended.
    pub why: Why,
}

impl LifeEnd {
    ghost use Rattle.std.specs.Prelude.{◌≡◌, length};
    ghost use Rattle.run_deeds.specs.Weaving.{ticks_by};
    ghost use Rattle.run_deeds.specs.Counting.{counted, ended, more};
    ghost use Rattle.run_deeds.specs.Counting.{with_lost, with_outcome, with_quiet};

    /// A run that ended so before anything was counted.
    pub fn nothing(why: Why) -> LifeEnd
        ensures { result ≡ ended why }
    {
        LifeEnd {
            sent: 0,
            moved: 0,
            refused: 0,
            quiet: 0,
            lost: 0,
            turns: 0,
            why,
        }
    }

    /// Counts an event that was taken, and what it led to.
    pub fn count_event(&mut self, event: &Event, outcome: &Outcome)
        ensures { self.new ≡ counted event.now outcome.now self.old }
    {
        self.count_tick(event);
        self.count_outcome(outcome);
    }

    /// Counts a turn, where the event begins one.
    fn count_tick(&mut self, event: &Event)
        ensures { self.new ≡ record self.old {
          turns = more self.old.turns (length (ticks_by event.now));
        } }
    {
        if let Event::Tick { .. } = event {
            self.turns = self.turns.saturating_add(1);
        }
    }

    /// Counts what an event led to.
    fn count_outcome(&mut self, outcome: &Outcome)
        ensures { self.new ≡ with_outcome outcome.now self.old }
    {
        match outcome {
            Outcome::Sent { .. } => self.sent = self.sent.saturating_add(1),
            Outcome::Moved { .. } => self.moved = self.moved.saturating_add(1),
            Outcome::Refused(_) => self.refused = self.refused.saturating_add(1),
            Outcome::Started { .. } | Outcome::Idle => {}
        }
    }

    /// Counts a quiet receipt.
    pub fn count_quiet(&mut self)
        ensures { self.new ≡ with_quiet self.old }
    {
        self.quiet = self.quiet.saturating_add(1);
    }

    /// Counts a failed receive or send.
    pub fn count_lost(&mut self)
        ensures { self.new ≡ with_lost self.old }
    {
        self.lost = self.lost.saturating_add(1);
    }
}
