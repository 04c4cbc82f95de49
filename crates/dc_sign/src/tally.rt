//! What a run comes to, in numbers.
ghost use Rattle.std.specs.Prelude.{◌≡◌, ◌<◌};
ghost use Rattle.dc_sign.specs.Numbers.{place_of};

use crate::Refusal;
use edge_traits::Put;

/// What came of one receipt.
#[derive(Clone, Copy)]
pub(crate) enum TurnOutcome {
    /// A signed reply, whose send was answered so.
    Signed(Put),
    /// A plain reply, whose send was answered so.
    Plain(Put),
    /// A refused request.
    Refused(Refusal),
    /// Nothing came.
    Quiet,
    /// A failed receive.
    Lost,
}

/// Why a run ended.
#[derive(Clone, Copy, Debug, PartialEq, Eq)]
pub enum ServeWhy {
    /// All turns were taken.
    Done,
    /// A reading of the clock failed.
    ClockFault,
}

/// What a run came to. A number that would be greater stands at 4,294,967,295.
#[derive(Clone, Copy, Debug, PartialEq, Eq)]
pub struct ServeEnd {
    /// Signed replies, those whose sends failed among them.
    pub signed: u32,
    /// Plain replies, those whose sends failed among them.
    pub plain: u32,
    /// Refused requests, by the refusals in the order of [`Refusal`].
    pub refused: [u32; 5],
    /// Quiet receipts.
    pub quiet: u32,
    /// Failed receives.
    pub lost: u32,
    /// Failed sends.
    pub unsent: u32,
    /// Why the run ended.
    pub why: ServeWhy,
}

impl ServeEnd {
    ghost use Rattle.std.specs.Prelude.{◌≡◌, []};
    ghost use Rattle.dc_sign.specs.Numbers.{numbers_of};
    ghost use Rattle.dc_sign.specs.Counting.{counted, with_send};
    ghost use Rattle.dc_sign.specs.declared.tally.ServeWhy.TheVariants.{Done};

    /// Nothing yet.
    pub(crate) fn nothing() -> ServeEnd
        ensures { result ≡ numbers_of [] Done }
    {
        ServeEnd {
            signed: 0,
            plain: 0,
            refused: [0; 5],
            quiet: 0,
            lost: 0,
            unsent: 0,
            why: ServeWhy::Done,
        }
    }

    /// Counts what came of a receipt.
    pub(crate) fn count(&mut self, outcome: TurnOutcome)
        ensures { self.new ≡ counted outcome self.old }
    {
        match outcome {
            TurnOutcome::Signed(put) => {
                self.signed = self.signed.saturating_add(1);
                self.count_send(put);
            }
            TurnOutcome::Plain(put) => {
                self.plain = self.plain.saturating_add(1);
                self.count_send(put);
            }
            TurnOutcome::Refused(reason) => {
                let place = place_of(reason);
                self.refused[place] = self.refused[place].saturating_add(1);
            }
            TurnOutcome::Quiet => self.quiet = self.quiet.saturating_add(1),
            TurnOutcome::Lost => self.lost = self.lost.saturating_add(1),
        }
    }

    /// Counts a send that failed.
    fn count_send(&mut self, put: Put)
        ensures { self.new ≡ with_send put self.old }
    {
        if put == Put::Failed {
            self.unsent = self.unsent.saturating_add(1);
        }
    }
}

/// The place of a refusal in their order.
fn place_of(reason: Refusal) -> usize
    ensures place { result ≡ place_of reason }
    ensures bound { result < 5 }
{
    match reason {
        Refusal::BadLength => 0,
        Refusal::BadVersion => 1,
        Refusal::BadMode => 2,
        Refusal::UnknownAccount => 3,
        Refusal::NoOldKey => 4,
    }
}
