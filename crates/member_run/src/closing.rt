//! The closing lines.
ghost use Rattle.std.specs.Prelude.{◌≡◌};
ghost use Rattle.run_deeds.specs.Closing.{link_line};
ghost use Rattle.run_deeds.specs.Parts.{why_of};
ghost use Rattle.member_run.specs.Closing.{Closes};

use crate::devices::write_piece;
use edge_traits::Sink;
use line_text::{Line, LineText};
use run_deeds::{LifeEnd, Why};
use sntp_core::total_line;

/// Writes the closing lines of a run that came to this.
pub(crate) fn write_closing_lines<O: Sink>(end: &LifeEnd, out: &mut O) -> Result<(), Why>
    ensures { Closes end.now (why_of result) (O.written out.old) (O.written out.new)
        (O.faults out.old) (O.faults out.new) }
{
    let total = total_line(end.sent, u64::from(end.moved), u64::from(end.refused));
    write_piece(total.as_slice(), out)?;
    write_piece(link_line(end).as_slice(), out)
}

/// How many receipts were quiet, and how many calls of the link failed.
fn link_line(end: &LifeEnd) -> LineText
    ensures text { result ≡ link_line end.now.quiet end.now.lost }
{
    let mut line = Line::new();
    line.add_text("link quiet=");
    line.add_number(end.quiet);
    line.add_text(" lost=");
    line.add_number(end.lost);
    line.add_text("\n");
    LineText::from_line(&line)
}
