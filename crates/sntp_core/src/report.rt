//! The lines of a report.
ghost use Rattle.std.specs.Prelude.{◌≡◌, ◌+◌, ◌++◌, ◌≤◌, length};
ghost use Rattle.time_machine.specs.Report.{addr_text, how_text, line_of, reason_text, total_line};

use edge_traits::Addr;
use line_text::{Line, LineText};
use time_machine::{How, Outcome, Reason};

/// The line of an outcome, with its line feed; it is empty for an idle Tick.
pub fn line_of(outcome: &Outcome) -> LineText
    ensures { result ≡ line_of outcome.now }
{
    let mut line = Line::new();
    match outcome {
        Outcome::Started { mark } => {
            line.add_text("life mark=");
            line.add_number(*mark);
            line.add_text("\n");
        }
        Outcome::Idle => {}
        Outcome::Sent { to, count, .. } => {
            line.add_text("send n=");
            line.add_number(*count);
            line.add_text(" to=");
            add_addr(&mut line, *to);
            line.add_text("\n");
        }
        Outcome::Moved { count, offset, how } => {
            line.add_text("moved n=");
            line.add_number(*count);
            line.add_text(" offset=");
            line.add_number(*offset);
            line.add_text(" by=");
            line.add_text(how_text(*how));
            line.add_text("\n");
        }
        Outcome::Refused(reason) => {
            line.add_text("refused reason=");
            line.add_text(reason_text(*reason));
            line.add_text("\n");
        }
    }
    LineText::from_line(&line)
}

/// The line with which a report closes, with its line feed: the requests sent, the corrections made and the datagrams
/// refused.
pub fn total_line(sent: u32, moved: u64, refused: u64) -> LineText
    ensures text { result ≡ total_line sent moved refused }
{
    let mut line = Line::new();
    line.add_text("total sent=");
    line.add_number(sent);
    line.add_text(" moved=");
    line.add_number(moved);
    line.add_text(" refused=");
    line.add_number(refused);
    line.add_text("\n");
    LineText::from_line(&line)
}

/// Adds an address: its four numbers, the first one the highest byte, and its port.
fn add_addr(line: &mut Line<96>, addr: Addr)
    requires { length line.old ≤ 24 }
    ensures text { line.new ≡ line.old ++ addr_text addr }
    ensures short { length line.new ≤ length line.old + 49 }
{
    line.add_number(addr.ip >> 24);
    line.add_text(".");
    line.add_number((addr.ip >> 16) % 256);
    line.add_text(".");
    line.add_number((addr.ip >> 8) % 256);
    line.add_text(".");
    line.add_number(addr.ip % 256);
    line.add_text(":");
    line.add_number(addr.port);
}

/// The way of a correction as it is printed.
fn how_text(how: How) -> &'static str
    ensures { result.now ≡ how_text how }
{
    match how {
        How::Slew => "slew",
        How::Step => "step",
    }
}

/// The reason as it is printed.
fn reason_text(reason: Reason) -> &'static str
    ensures text { result.now ≡ reason_text reason }
    ensures short { length result.now ≤ 10 }
{
    match reason {
        Reason::BadLength => "BadLength",
        Reason::BadSource => "BadSource",
        Reason::BadMode => "BadMode",
        Reason::BadStratum => "BadStratum",
        Reason::NoRequest => "NoRequest",
        Reason::BadKeyId => "BadKeyId",
        Reason::BadDigest => "BadDigest",
        Reason::BadTimes => "BadTimes",
        Reason::TooBig => "TooBig",
    }
}
