//! Stepping a member through a capture.
ghost use Rattle.std.specs.Prelude.{◌≡◌, ◌≢◌, ◌<◌, ◌≤◌, ℕ, List, Some, length};
ghost use Rattle.base_specs.specs.Counts.{Rose};
ghost use Rattle.edge_traits.specs.declared.sink.Put.{Put};
ghost use Rattle.edge_traits.specs.Sink.{PutCounts, Writes};
ghost use Rattle.capture_fmt.specs.declared.event.Event.{Event};
ghost use Rattle.capture_fmt.specs.Capture.{SpellsEvents, place_limit};
ghost use Rattle.time_machine.specs.Growing.{Grows};
ghost use Rattle.replay_run.specs.declared.end.ReplayWhy.{ReplayWhy};
ghost use Rattle.edge_seen.specs.Seen.{Seen};
ghost use Rattle.replay_run.specs.Replay.{Replays, ReportsAll, history_of, replaying};
ghost use Rattle.replay_run.specs.Judged.{ReplaysTo};
ghost use Rattle.replay_run.specs.Running.{Closes};

use crate::end::why_of;
use crate::{ReplayEnd, ReplayWhy};
use capture_fmt::EventReader;
use edge_traits::{Put, Sink, Source};
use line_text::LineText;
use sntp_core::{Conf, Member, line_of, total_line};

/// Steps a new member of these settings through the capture that the source gives. The line of each event is written
/// in one write, but for a Tick that sends nothing, which has none; where the capture ends between two records the
/// total line is written behind them.
///
/// It ends before that at the first record that is outside the grammar of captures, or whose event may not follow
/// those before it: the first event is a Life, a Life's mark is at least every count sent before, and where the counts
/// are used up no Tick or Resync comes. And it ends at a read or a write that failed, after which it makes no other.
pub fn replay<S: Source, O: Sink>(conf: Conf, source: &mut S, sink: &mut O) -> ReplayEnd
    // Whatever the devices tell that are not asked.
    ensures replays { (others : Seen) → Replays conf
        (replaying others (S.left source.old) (S.faults source.old) (O.written sink.old) (O.faults sink.old))
        (replaying others (S.left source.new) (S.faults source.new) (O.written sink.new) (O.faults sink.new))
        result }

    // Where the source tells its bytes they decide, unless a read or a write fails. Where they spell a history that
    // grows the replay is done, and reports all of it.
    ensures told { (bytes : List ℕ) → S.left source.old ≡ Some bytes
        → result.why ≢ ReplayWhy.ReadFault → result.why ≢ ReplayWhy.WriteFault
        → ReplaysTo conf bytes result.why }
    ensures exact { (bytes : List ℕ) (why : ReplayWhy) → S.left source.old ≡ Some bytes
        → ReplaysTo conf bytes why
        → result.why ≢ ReplayWhy.ReadFault → result.why ≢ ReplayWhy.WriteFault
        → result.why ≡ why }
    ensures complete { (bytes : List ℕ) (events : List Event) → S.left source.old ≡ Some bytes
        → SpellsEvents events bytes → length bytes < place_limit → Grows conf (history_of events)
        → ¬ Rose (S.faults source.old) (S.faults source.new)
        → ¬ Rose (O.faults sink.old) (O.faults sink.new)
        → result.why ≡ ReplayWhy.Done }
    ensures whole { (bytes : List ℕ) (events : List Event) → S.left source.old ≡ Some bytes
        → SpellsEvents events bytes → result.why ≡ ReplayWhy.Done
        → ReportsAll conf (history_of events) result (O.written sink.old) (O.written sink.new) }

    // Each fault has its cause, and no count falls.
    ensures read_cause { result.why ≡ ReplayWhy.ReadFault
        → Rose (S.faults source.old) (S.faults source.new) }
    ensures write_cause { result.why ≡ ReplayWhy.WriteFault
        → Rose (O.faults sink.old) (O.faults sink.new) }
    ensures read_count { S.faults source.old ≤ S.faults source.new }
    ensures write_count { O.faults sink.old ≤ O.faults sink.new }
{
    step_through(conf, source, sink)
}

/// The work of [`replay`], by `Replays` alone: the other clauses of that call follow from it.
fn step_through<S: Source, O: Sink>(conf: Conf, source: &mut S, sink: &mut O) -> ReplayEnd
    ensures { (others : Seen) → Replays conf
        (replaying others (S.left source.old) (S.faults source.old) (O.written sink.old) (O.faults sink.old))
        (replaying others (S.left source.new) (S.faults source.new) (O.written sink.new) (O.faults sink.new))
        result }
{
    let mut reader = EventReader::new();
    let mut member = Member::new(conf);
    let mut end = ReplayEnd::nothing();
    loop {
        let place = reader.place();
        let event = match reader.next(source) {
            Ok(Some(event)) => event,
            Ok(None) => return close(end, sink),
            Err(fault) => return end.ended(why_of(fault)),
        };
        if !member.admits(&event) {
            return end.ended(ReplayWhy::BadCapture(place));
        }
        let outcome = member.step(&event);
        end.count(&outcome);
        if let Put::Failed = write_line(&line_of(&outcome), sink) {
            return end.ended(ReplayWhy::WriteFault);
        }
    }
}

/// Writes the total line, with which the report closes.
fn close<O: Sink>(end: ReplayEnd, sink: &mut O) -> ReplayEnd
    ensures { Closes end result (O.written sink.old) (O.written sink.new)
        (O.faults sink.old) (O.faults sink.new) }
{
    let total = total_line(end.sent, end.moved, end.refused);
    match write_line(&total, sink) {
        Put::Done => end.ended(ReplayWhy::Done),
        Put::Failed => end.ended(ReplayWhy::WriteFault),
    }
}

/// Writes a line, in one write. An empty one isn't written.
fn write_line<O: Sink>(line: &LineText, sink: &mut O) -> Put
    ensures bytes { Writes result line.now (O.written sink.old) (O.written sink.new) }
    ensures cause { PutCounts result (O.faults sink.old) (O.faults sink.new) }
    ensures tried { result ≡ Put.Failed → 0 < length line.now }
{
    let bytes = line.as_slice();
    if bytes.is_empty() {
        return Put::Done;
    }
    sink.write(bytes)
}
