//! The summary of a run.
ghost use Rattle.std.specs.Prelude.{◌≡◌, ◌+◌, ◌<◌, ◌^◌, ◌++◌, length};
ghost use Rattle.edge_traits.specs.Sink.{PutCounts, Writes};
ghost use Rattle.sntp_world.specs.Running.{IsCountedOnce, counted, counted_outcome};
ghost use Rattle.sntp_world.specs.Summary.{member_line, ops_line, slack_line};

use crate::Effect;
use edge_traits::{Put, Sink};
use line_text::Line;
use sntp_core::Outcome;

/// What is counted.
#[derive(Clone, Copy)]
pub(crate) struct Totals {
    pub ops: u32,
    pub skipped: u32,
    pub sent: u32,
    pub moved: u32,
    pub refused: u32,
}

impl Totals {
    pub(crate) const NOTHING: Totals = Totals {
        ops: 0,
        skipped: 0,
        sent: 0,
        moved: 0,
        refused: 0,
    };

    /// Counts an operation by what came of it.
    pub(crate) fn count(&mut self, effect: &Effect)
        requires room { self.old.ops + 1 < 2 ^ 32 }
        requires once { IsCountedOnce self.old }
        ensures counted { self.new ≡ counted effect.now self.old }
    {
        match effect {
            Effect::Skipped => self.skipped += 1,
            Effect::Passed | Effect::Answered(_) => {}
            Effect::Stepped(outcome) => self.count_outcome(outcome),
        }
        self.ops += 1;
    }

    /// Counts what an event came to.
    fn count_outcome(&mut self, outcome: &Outcome)
        requires room { self.old.ops + 1 < 2 ^ 32 }
        requires once { IsCountedOnce self.old }
        ensures { self.new ≡ counted_outcome outcome.now self.old }
    {
        match outcome {
            Outcome::Started { .. } | Outcome::Idle => {}
            Outcome::Sent { .. } => self.sent += 1,
            Outcome::Moved { .. } => self.moved += 1,
            Outcome::Refused(_) => self.refused += 1,
        }
    }

    /// `ops=N skipped=N`, with its line feed.
    fn ops_line(&self) -> Line<96>
        ensures text { result ≡ ops_line self.now.ops self.now.skipped }
        ensures some { 0 < length result }
    {
        let mut line = Line::new();
        line.add_text("ops=");
        line.add_number(self.ops);
        line.add_text(" skipped=");
        line.add_number(self.skipped);
        line.add_text("\n");
        line
    }

    /// `sent=N moved=N refused=N`, with its line feed.
    fn member_line(&self) -> Line<96>
        ensures text { result ≡ member_line self.now.sent self.now.moved self.now.refused }
        ensures some { 0 < length result }
    {
        let mut line = Line::new();
        line.add_text("sent=");
        line.add_number(self.sent);
        line.add_text(" moved=");
        line.add_number(self.moved);
        line.add_text(" refused=");
        line.add_number(self.refused);
        line.add_text("\n");
        line
    }
}

/// `slack=N` or `slack=none`, with its line feed.
fn slack_line(slack: Option<i64>) -> Line<96>
    ensures text { result ≡ slack_line slack }
    ensures some { 0 < length result }
{
    let mut line = Line::new();
    line.add_text("slack=");
    match slack {
        Some(slack) => line.add_number(slack),
        None => line.add_text("none"),
    }
    line.add_text("\n");
    line
}

/// Writes the summary: three lines, each in one write. After a failed one it makes no other.
pub(crate) fn print_summary<O: Sink>(totals: &Totals, slack: Option<i64>, out: &mut O) -> Put
    ensures bytes { Writes result
        (ops_line totals.now.ops totals.now.skipped
        ++ member_line totals.now.sent totals.now.moved totals.now.refused
        ++ slack_line slack)
        (O.written out.old) (O.written out.new) }
    ensures cause { PutCounts result (O.faults out.old) (O.faults out.new) }
{
    if let Put::Failed = out.write(totals.ops_line().as_slice()) {
        return Put::Failed;
    }
    if let Put::Failed = out.write(totals.member_line().as_slice()) {
        return Put::Failed;
    }
    out.write(slack_line(slack).as_slice())
}
