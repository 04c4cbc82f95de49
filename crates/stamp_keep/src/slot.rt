//! A slot of the disk.
ghost use Rattle.std.specs.Prelude.{◌≡◌};
ghost use Rattle.stamp_keep.specs.Slots.{place};
ghost use Rattle.stamp_keep.specs.Steps.{body};

use byteorder::{BigEndian, ByteOrder};

/// The gate of a slot that counts. Every other value is a closed gate.
pub const OPEN: u8 = 0xA5;

/// The gate that is written to close a slot.
pub const CLOSED: u8 = 0;

/// The version of the slots that are written and read.
pub const VERSION: u8 = 1;

/// Where the mark stands in a slot.
pub const MARK_AT: usize = 4;

/// One of the three slots.
#[derive(Clone, Copy, Debug, PartialEq, Eq)]
pub enum Slot {
    Lowest,
    Middle,
    Highest,
}

impl Slot {
    /// Where its gate stands.
    pub fn at(self) -> usize
        ensures { result ≡ place self }
    {
        match self {
            Slot::Lowest => 0,
            Slot::Middle => 64,
            Slot::Highest => 128,
        }
    }
}

/// What stands behind the gate of a slot with this mark.
pub fn body_of(mark: u32) -> [u8; 7]
    ensures { result ≡ body mark }
{
    let mut body = [VERSION, 0, 0, 0, 0, 0, 0];
    BigEndian::write_u32(&mut body[3..], mark);
    body
}
