//! The devices of a run, and what it asks of them, with their failures as the answers of the run.
ghost use Rattle.std.specs.Prelude.{◌≡◌, ◌<◌, Err, IfOk, OnErr, length};
ghost use Rattle.base_specs.specs.Time.{IsReading};
ghost use Rattle.capture_fmt.specs.Event.{EventFits};
ghost use Rattle.capture_fmt.specs.Record.{event_bytes};
ghost use Rattle.time_machine.specs.Report.{line_of};
ghost use Rattle.run_deeds.specs.declared.life_end.Why.{Why};
ghost use Rattle.run_deeds.specs.Parts.{why_of};
ghost use Rattle.member_run.specs.Asking.{DrawnBy, ReadBy, WrittenBy, ended_by};

use capture_fmt::{Event, write_event};
use edge_traits::{Clock, Drawn, Entropy, Link, Put, Reading, Sink};
use run_deeds::Why;
use slot_disk::Disk;
use sntp_core::{Outcome, line_of};

/// The devices of a run, borrowed for a part of it. The two sinks are of one type, and told apart here alone.
#[derive(Drop)]
pub(crate) struct Devices<'l, 'c, 'd, 'e, 'o, 'k, L: Link, C: Clock, D: Disk, E: Entropy, O: Sink> {
    pub(crate) link: &'l mut L,
    pub(crate) clock: &'c mut C,
    pub(crate) disk: &'d mut D,
    pub(crate) entropy: &'e mut E,
    /// Where the lines of the report go.
    pub(crate) out: &'o mut O,
    /// Where the records of the capture go.
    pub(crate) capture: &'k mut O,
}

/// What the devices of a run tell at a moment.
pub(crate) trait Tells {
    ghost use Rattle.edge_seen.specs.Seen.{Seen};

    /// What is told where the other devices of the program tell what they do, by all but the disk.
    ghost seen: { Seen → Self → Seen };
}

impl<'l, 'c, 'd, 'e, 'o, 'k, L: Link, C: Clock, D: Disk, E: Entropy, O: Sink> Tells
    for Devices<'l, 'c, 'd, 'e, 'o, 'k, L, C, D, E, O> {
    ghost use Rattle.edge_seen.specs.Seen.{Seen};
    ghost use Rattle.run_deeds.specs.Devices.{faults, living};

    ghost seen = { λ others d. living others (L.told d.link.now) (C.told d.clock.now)
        (E.words d.entropy.now) (O.written d.capture.now) (O.written d.out.now) (L.faults d.link.now)
        (faults (C.faults d.clock.now) (E.faults d.entropy.now) (D.faults d.disk.now)
        (O.faults d.capture.now) (O.faults d.out.now)) };
}

/// Reads the clock.
pub(crate) fn read<C: Clock>(clock: &mut C) -> Result<i64, Why>
    ensures reading { IfOk result IsReading }
    ensures gives { ReadBy result (C.told clock.old) (C.told clock.new)
        (C.faults clock.old) (C.faults clock.new) }
{
    match clock.now() {
        Reading::At(now) => Ok(now),
        Reading::Failed => Err(Why::ClockFault),
    }
}

/// Draws a random word.
pub(crate) fn draw<E: Entropy>(entropy: &mut E) -> Result<u32, Why>
    ensures gives { DrawnBy result (E.words entropy.old) (E.words entropy.new)
        (E.faults entropy.old) (E.faults entropy.new) }
{
    match entropy.word() {
        Drawn::Word(word) => Ok(word),
        Drawn::Failed => Err(Why::EntropyFault),
    }
}

/// Writes the record of an event to the capture.
pub(crate) fn write_record<O: Sink>(event: &Event, capture: &mut O) -> Result<(), Why>
    requires { EventFits event.now }
    ensures bytes { WrittenBy (why_of result) (event_bytes event.now) (O.written capture.old)
        (O.written capture.new) (O.faults capture.old) (O.faults capture.new) }
    ensures why { OnErr result (result ≡ Err Why.SinkFault) }
{
    of_put(write_event(event, capture))
}

/// Writes the line of an outcome to the report, if it has one.
pub(crate) fn write_line<O: Sink>(outcome: &Outcome, out: &mut O) -> Result<(), Why>
    ensures bytes { WrittenBy (why_of result) (line_of outcome.now) (O.written out.old)
        (O.written out.new) (O.faults out.old) (O.faults out.new) }
    ensures has_line { OnErr result (0 < length (line_of outcome.now)) }
    ensures why { OnErr result (result ≡ Err Why.SinkFault) }
{
    let line = line_of(outcome);
    if line.as_slice().is_empty() {
        Ok(())
    } else {
        write_piece(line.as_slice(), out)
    }
}

/// Writes a piece that is not empty.
pub(crate) fn write_piece<O: Sink>(piece: &[u8], out: &mut O) -> Result<(), Why>
    requires { 0 < length piece.now }
    ensures bytes { WrittenBy (why_of result) piece.now (O.written out.old)
        (O.written out.new) (O.faults out.old) (O.faults out.new) }
    ensures why { OnErr result (result ≡ Err Why.SinkFault) }
{
    of_put(out.write(piece))
}

/// The answer of a run to a write.
fn of_put(put: Put) -> Result<(), Why>
    ensures { result ≡ ended_by put }
{
    match put {
        Put::Done => Ok(()),
        Put::Failed => Err(Why::SinkFault),
    }
}
