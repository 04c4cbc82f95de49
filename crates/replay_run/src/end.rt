//! What a replay comes to.
ghost use Rattle.std.specs.Prelude.{◌≡◌};
ghost use Rattle.replay_run.specs.Running.{why_of};

use capture_fmt::CaptureFault;
use sntp_core::Outcome;

/// Why a replay ended.
#[derive(Clone, Copy, Debug, PartialEq, Eq)]
pub enum ReplayWhy {
    /// The capture ended between two records, below 2^40 bytes, and each of its events was taken.
    Done,
    /// The record that begins at this place, in bytes from the front, is outside the grammar of captures, or its event
    /// may not follow those before it. It is the first such record.
    BadCapture(u64),
    /// A read of the source failed.
    ReadFault,
    /// A write to the sink failed.
    WriteFault,
}

/// What a replay came to: what the events taken led to, in numbers, and why no more were taken.
#[derive(Clone, Copy, Debug, PartialEq, Eq)]
pub struct ReplayEnd {
    /// The requests that they send.
    pub sent: u32,
    /// The corrections of the clock that they make.
    pub moved: u64,
    /// The arrivals that are refused.
    pub refused: u64,
    /// Why the replay ended.
    pub why: ReplayWhy,
}

impl ReplayEnd {
    ghost use Rattle.std.specs.Prelude.{◌≡◌};
    ghost use Rattle.replay_run.specs.declared.end.ReplayWhy.{ReplayWhy};
    ghost use Rattle.replay_run.specs.Running.{FitsNumbers, counted};

    /// Nothing was taken yet.
    pub(crate) fn nothing() -> ReplayEnd
        ensures { result ≡ record { sent = 0; moved = 0; refused = 0; why = ReplayWhy.Done } }
    {
        ReplayEnd {
            sent: 0,
            moved: 0,
            refused: 0,
            why: ReplayWhy::Done,
        }
    }

    /// Counts what an event led to.
    pub(crate) fn count(&mut self, outcome: &Outcome)
        requires room { FitsNumbers (counted outcome.now self.old) }
        ensures { self.new ≡ counted outcome.now self.old }
    {
        match outcome {
            Outcome::Sent { .. } => self.sent += 1,
            Outcome::Moved { .. } => self.moved += 1,
            Outcome::Refused(_) => self.refused += 1,
            Outcome::Started { .. } | Outcome::Idle => {}
        }
    }

    /// The same numbers, with why no more are counted.
    pub(crate) fn ended(self, why: ReplayWhy) -> ReplayEnd
        ensures { result ≡ record self { why = why } }
    {
        ReplayEnd { why, ..self }
    }
}

/// Why a replay ends at a fault of its capture.
pub(crate) fn why_of(fault: CaptureFault) -> ReplayWhy
    ensures { result ≡ why_of fault }
{
    match fault {
        CaptureFault::BadKind(at)
        | CaptureFault::BadReading(at)
        | CaptureFault::BadLength(at)
        | CaptureFault::Torn(at)
        | CaptureFault::TooLong(at) => ReplayWhy::BadCapture(at),
        CaptureFault::ReadFault => ReplayWhy::ReadFault,
    }
}
