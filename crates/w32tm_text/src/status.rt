//! How a command ended.
ghost use Rattle.std.specs.Prelude.{◌≡◌, ◌+◌, ◌<◌, ◌≤◌, [], ◌∷◌, ◌++◌, length, IsTrue};
ghost use Rattle.std.specs.Char.{is_ascii};
ghost use Rattle.std.specs.List.{list_all};
ghost use Rattle.w32tm_text.specs.Status.{code_of, line_of};

use dc_sign::Refusal;
use itoa::Integer;
use line_text::{Line, LineText};

/// How a command ended.
#[derive(Clone, Copy, Debug, PartialEq, Eq)]
pub enum Status {
    /// The command was carried out.
    Done,
    /// The words spell no command.
    BadWords,
    /// The settings text is bad, first at this line, counted from 1.
    BadConfig { line: u32 },
    /// The capture is bad in the record that begins at this byte, counted from 0.
    BadCapture { at: u64 },
    /// A read failed.
    ReadFault,
    /// A write failed.
    WriteFault,
    /// A call of the disk failed.
    DiskFault,
    /// The keeper is of another version.
    BadKeeper,
    /// All counts of stamps are spent.
    StampsSpent,
    /// A reading of the clock failed.
    ClockFault,
    /// No random numbers could be drawn.
    EntropyFault,
    /// The settings name no computer that could be asked.
    NoPartner,
    /// The service that was called asked for the time, with this result, which isn't 0.
    NotResynced { result: u32 },
    /// The service that was called refused, or answered what is no reply.
    PeerRefused,
    /// The request gets no reply, for this reason.
    BadRequest { reason: Refusal },
    /// There was no memory.
    NoMemory,
}

impl Status {
    /// The exit code of the program.
    pub fn code(&self) -> u8
        ensures { result ≡ code_of self.now }
    {
        match self {
            Status::Done => 0,
            Status::BadWords => 1,
            Status::BadConfig { .. } => 2,
            Status::BadCapture { .. } => 3,
            Status::ReadFault => 4,
            Status::WriteFault => 5,
            Status::DiskFault => 6,
            Status::BadKeeper => 7,
            Status::StampsSpent => 8,
            Status::ClockFault => 9,
            Status::EntropyFault => 10,
            Status::NoPartner => 11,
            Status::NotResynced { .. } => 12,
            Status::PeerRefused => 13,
            Status::BadRequest { .. } => 14,
            Status::NoMemory => 15,
        }
    }
}

/// The line on standard error, with its line feed. What was done has none.
pub fn status_line(status: &Status) -> LineText
    ensures { result ≡ line_of status.now }
{
    match status {
        Status::Done => line(""),
        Status::BadWords => line("w32tm: bad words\n"),
        Status::BadConfig { line } => numbered("w32tm: bad settings at line ", *line),
        Status::BadCapture { at } => numbered("w32tm: bad capture at byte ", *at),
        Status::ReadFault => line("w32tm: read fault\n"),
        Status::WriteFault => line("w32tm: write fault\n"),
        Status::DiskFault => line("w32tm: disk fault\n"),
        Status::BadKeeper => line("w32tm: bad keeper\n"),
        Status::StampsSpent => line("w32tm: stamps spent\n"),
        Status::ClockFault => line("w32tm: clock fault\n"),
        Status::EntropyFault => line("w32tm: entropy fault\n"),
        Status::NoPartner => line("w32tm: no partner\n"),
        Status::NotResynced { result } => numbered("w32tm: not resynced, result ", *result),
        Status::PeerRefused => line("w32tm: peer refused\n"),
        Status::BadRequest { reason } => match reason {
            Refusal::BadLength => line("w32tm: bad request, BadLength\n"),
            Refusal::BadVersion => line("w32tm: bad request, BadVersion\n"),
            Refusal::BadMode => line("w32tm: bad request, BadMode\n"),
            Refusal::UnknownAccount => line("w32tm: bad request, UnknownAccount\n"),
            Refusal::NoOldKey => line("w32tm: bad request, NoOldKey\n"),
        },
        Status::NoMemory => line("w32tm: no memory\n"),
    }
}

/// A text and a number behind it.
pub(crate) fn numbered<I: Integer>(text: &str, number: I) -> LineText
    requires within { length text.now + I.MAX_STR_LEN < 96 }
    requires ascii { IsTrue (list_all is_ascii text.now) }
    ensures { result ≡ text.now ++ I.text number ++ 10 ∷ [] }
{
    let mut line = Line::new();
    line.add_text(text);
    line.add_number(number);
    line.add_text("\n");
    LineText::from_line(&line)
}

/// A text that fits a line.
pub(crate) fn line(text: &str) -> LineText
    requires within { length text.now ≤ 96 }
    requires ascii { IsTrue (list_all is_ascii text.now) }
    ensures { result ≡ text.now }
{
    let mut line = Line::new();
    line.add_text(text);
    LineText::from_line(&line)
}
