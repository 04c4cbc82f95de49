//! The line of a session.
ghost use Rattle.std.specs.Prelude.{◌≡◌, ◌<◌, ◌≤◌, Err, OnErr, length};
ghost use Rattle.run_deeds.specs.declared.life_end.Why.{Why};
ghost use Rattle.run_deeds.specs.Parts.{why_of};
ghost use Rattle.member_run.specs.Asking.{WrittenBy};
ghost use Rattle.service_run.specs.Sessions.{end_name, session_line};

use edge_traits::{Put, Sink};
use line_text::{Line, LineText};
use member_run::Why;
use w32t_calls::SessionEnd;

/// Writes the line of a session, which says how it ended, in one write.
pub(crate) fn write_session_line<O: Sink>(
    number: u32,
    end: SessionEnd,
    out: &mut O,
) -> Result<(), Why>
    ensures bytes { WrittenBy (why_of result) (session_line number end) (O.written out.old)
        (O.written out.new) (O.faults out.old) (O.faults out.new) }
    ensures why { OnErr result (result ≡ Err Why.SinkFault) }
{
    match out.write(session_line(number, end).as_slice()) {
        Put::Done => Ok(()),
        Put::Failed => Err(Why::SinkFault),
    }
}

/// The line of the session with this number, the first one having number 1.
fn session_line(number: u32, end: SessionEnd) -> LineText
    ensures line { result ≡ session_line number end }
    ensures some { 0 < length result }
{
    let mut line = Line::new();
    line.add_text("session n=");
    line.add_number(number);
    line.add_text(" end=");
    line.add_text(end_name(end));
    line.add_text("\n");
    LineText::from_line(&line)
}

/// The name of an end.
fn end_name(end: SessionEnd) -> &'static str
    ensures name { result.now ≡ end_name end }
    ensures short { length result.now ≤ 10 }
{
    match end {
        SessionEnd::Ended => "Ended",
        SessionEnd::BadPdu => "BadPdu",
        SessionEnd::Torn => "Torn",
        SessionEnd::Spent => "Spent",
        SessionEnd::ReadFault => "ReadFault",
        SessionEnd::WriteFault => "WriteFault",
    }
}
