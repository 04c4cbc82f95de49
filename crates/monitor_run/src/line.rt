//! The lines of the report.
ghost use Rattle.std.specs.Prelude.{◌≡◌, ◌≤◌, ◌<◌, length};
ghost use Rattle.monitor_run.specs.Lines.{computers_line, line_of, word_text};

use crate::finding::{Finding, Word};
use line_text::{Line, LongLine};
use partner_pick::NameText;

/// The line of a computer with this name, of which this was found. It has its line feed.
pub(crate) fn line_of(name: &NameText, finding: Finding) -> LongLine
    ensures text { result ≡ line_of name.now finding }
    ensures some { 0 < length result }
{
    let mut line = Line::new();
    line.add_bytes(name.as_slice());
    match finding {
        Finding::Answered {
            offset,
            delay,
            stratum,
        } => {
            line.add_text(" offset=");
            line.add_number(offset);
            line.add_text(" delay=");
            line.add_number(delay);
            line.add_text(" stratum=");
            line.add_number(stratum);
        }
        Finding::Wrong(word) => {
            line.add_text(" error=");
            line.add_text(word_text(word));
        }
    }
    line.add_text("\n");
    line
}

/// The last line: how many computers were asked, and how many answered. It has its line feed.
pub(crate) fn computers_line(computers: usize, answered: usize) -> LongLine
    ensures text { result ≡ computers_line computers answered }
    ensures some { 0 < length result }
{
    let mut line = Line::new();
    line.add_text("total computers=");
    line.add_number(computers);
    line.add_text(" answered=");
    line.add_number(answered);
    line.add_text("\n");
    line
}

/// The word as it is printed.
fn word_text(word: Word) -> &'static str
    ensures text { result.now ≡ word_text word }
    ensures short { length result.now ≤ 10 }
{
    match word {
        Word::NoAnswer => "NoAnswer",
        Word::BadLength => "BadLength",
        Word::BadSource => "BadSource",
        Word::BadMode => "BadMode",
        Word::BadStratum => "BadStratum",
        Word::NoRequest => "NoRequest",
        Word::BadTimes => "BadTimes",
    }
}
