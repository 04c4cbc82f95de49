//! Texts that are written line by line.
ghost use Rattle.std.specs.Prelude.{◌<◌, All, length};
ghost use Rattle.edge_traits.specs.Sink.{PutCounts};
ghost use Rattle.w32tm_cmd.specs.Writing.{WritesLines};

use edge_io::{Put, Sink};
use line_text::LongLine;

/// Writes lines in their order, each in one write. After a write that failed no other is made.
pub(crate) fn write_lines<O: Sink>(out: &mut O, lines: &[LongLine]) -> Put
    requires { All (λ line. 0 < length line) lines.now }
    ensures bytes { WritesLines result lines.now (O.written out.old) (O.written out.new) }
    ensures cause { PutCounts result (O.faults out.old) (O.faults out.new) }
{
    for line in lines {
        if let Put::Failed = out.write(line.as_slice()) {
            return Put::Failed;
        }
    }
    Put::Done
}
