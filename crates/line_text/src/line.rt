//! A line that is written piece by piece.
ghost use Rattle.std.specs.Prelude.{◌≡◌, ◌+◌, ◌*◌, ◌≤◌, [], ◌∷◌, ◌++◌, length, IsTrue, IsAscii};
ghost use Rattle.std.specs.Char.{is_ascii};
ghost use Rattle.std.specs.List.{list_all};
ghost use Rattle.hex.specs.Hex.{encode_lower};

use arrayvec::ArrayVec;
use byte_codec::add;
use itoa::{Buffer, Integer};
use std::marker::Model;

/// The most bytes that are added at once as digits: those of the longest checksum.
const HEX_LIMIT: usize = 64;

/// A text of at most `N` bytes of ASCII that is being written.
#[derive(Drop)]
pub struct Line<const N: usize> {
    bytes: ArrayVec<u8, N>,
}

/// A line of a command's output.
pub type LongLine = Line<256>;

impl<const N: usize> Model for Line<N> {
    ghost use Rattle.std.specs.Prelude.{ℕ, ◌≤◌, List, length, IsAscii};

    ghost Value = { List ℕ };

    ghost view = { λ l. l.bytes.items };

    ghost invariant = { λ l. (length l.bytes.items ≤ N) × IsAscii l.bytes.items };
}

impl<const N: usize> Line<N> {
    /// A line without bytes.
    pub fn new() -> Line<N>
        ensures { result ≡ [] }
    {
        Line {
            bytes: ArrayVec::new(),
        }
    }

    /// Adds a text of ASCII, for which there must be room.
    pub fn add_text(&mut self, text: &str)
        requires room { length self.old + length text.now ≤ N }
        requires ascii { IsTrue (list_all is_ascii text.now) }
        ensures text { self.new ≡ self.old ++ text.now }
        ensures len { length self.new ≡ length self.old + length text.now }
    {
        add(&mut self.bytes, text.as_bytes());
    }

    /// Adds bytes of ASCII, as those of a name, for which there must be room.
    pub fn add_bytes(&mut self, bytes: &[u8])
        requires room { length self.old + length bytes.now ≤ N }
        requires ascii { IsAscii bytes.now }
        ensures text { self.new ≡ self.old ++ bytes.now }
        ensures len { length self.new ≡ length self.old + length bytes.now }
    {
        add(&mut self.bytes, bytes);
    }

    /// Adds a number in decimal, with `-` where it is negative. There must be room for the longest number of its type.
    pub fn add_number<I: Integer>(&mut self, number: I)
        requires room { length self.old + I.MAX_STR_LEN ≤ N }
        ensures text { self.new ≡ self.old ++ I.text number }
        ensures len { length self.new ≤ length self.old + I.MAX_STR_LEN }
    {
        let mut buffer = Buffer::new();
        add(&mut self.bytes, buffer.format(number).as_bytes());
    }

    /// Adds at most 64 bytes in lower-case hexadecimal, two digits each, for which there must be room.
    pub fn add_hex(&mut self, bytes: &[u8])
        requires short { length bytes.now ≤ 64 }
        requires room { length self.old + 2 * length bytes.now ≤ N }
        ensures text { self.new ≡ self.old ++ encode_lower bytes.now }
        ensures len { length self.new ≡ length self.old + 2 * length bytes.now }
    {
        let mut digits = [0; 2 * HEX_LIMIT];
        let digits = &mut digits[..2 * bytes.len()];
        write_digits(bytes, digits);
        add(&mut self.bytes, digits);
    }

    /// The bytes.
    pub fn as_slice(&self) -> &[u8]
        ensures bytes { result.now ≡ self.now }
        ensures within { length result.now ≤ N }
        ensures ascii { IsAscii result.now }
    {
        self.bytes.as_slice()
    }
}

/// Writes the digits of bytes over a slice of their length.
fn write_digits(bytes: &[u8], digits: &mut [u8])
    requires { length digits.old ≡ 2 * length bytes.now }
    ensures { digits.new ≡ encode_lower bytes.now }
{
    let _ = hex::encode_to_slice(bytes, digits);
}
