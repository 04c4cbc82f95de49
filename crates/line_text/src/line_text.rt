//! Texts that are printed as one line.
ghost use Rattle.std.specs.Prelude.{◌≡◌, ◌≤◌, ◌↔◌, length, IsSome, IfSome, IsAscii};
ghost use Rattle.line_text.specs.Line.{FitsLine};

use crate::Line;
use arrayvec::ArrayVec;
use std::marker::Model;

/// The most bytes of a `LineText`, its line feed among them.
pub const LINE_LIMIT: usize = 96;

/// At most 96 bytes of ASCII.
#[derive(Drop)]
pub struct LineText {
    bytes: ArrayVec<u8, 96>,
}

impl Model for LineText {
    ghost use Rattle.std.specs.Prelude.{ℕ, List};
    ghost use Rattle.line_text.specs.Line.{FitsLine};

    ghost Value = { List ℕ };

    ghost view = { λ l. l.bytes.items };

    ghost invariant = { λ l. FitsLine l.bytes.items };
}

impl LineText {
    /// Holds the bytes, and answers None exactly where there are more than 96 or one isn't ASCII.
    pub fn from_slice(bytes: &[u8]) -> Option<LineText>
        ensures held { IfSome result (λ line. line ≡ bytes.now) }
        ensures fits { IsSome result ↔ FitsLine bytes.now }
    {
        if !bytes.is_ascii() {
            return None;
        }
        let bytes = ArrayVec::try_from(bytes).ok()?;
        Some(LineText { bytes })
    }

    /// Holds a line that was written piece by piece.
    pub fn from_line(line: &Line<LINE_LIMIT>) -> LineText
        ensures { result ≡ line.now }
    {
        match LineText::from_slice(line.as_slice()) {
            Some(text) => text,
            None => unreachable!(),
        }
    }

    /// The bytes.
    pub fn as_slice(&self) -> &[u8]
        ensures bytes { result.now ≡ self.now }
        ensures within { length result.now ≤ 96 }
        ensures ascii { IsAscii result.now }
    {
        self.bytes.as_slice()
    }
}
