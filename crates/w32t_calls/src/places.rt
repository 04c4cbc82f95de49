//! Numbers at places in bytes.
ghost use Rattle.std.specs.Prelude.{◌≡◌, ◌≤◌, ◌+◌, length};
ghost use Rattle.byte_codec.specs.Numbers.{low_word_at};
ghost use Rattle.rpc_pdu.specs.Header.{low_half_word_at};

use byte_codec::{read_u16_low_first, read_u32_low_first};

/// The number in the two bytes at a place, the least significant byte first.
pub(crate) fn half_word_at(bytes: &[u8], place: usize) -> u16
    requires { place + 2 ≤ length bytes.now }
    ensures { result ≡ low_half_word_at place bytes.now }
{
    let (_, rest) = bytes.split_at(place);
    let (number, _) = read_u16_low_first(rest);
    number
}

/// The number in the four bytes at a place, the least significant byte first.
pub(crate) fn word_at(bytes: &[u8], place: usize) -> u32
    requires { place + 4 ≤ length bytes.now }
    ensures { result ≡ low_word_at place bytes.now }
{
    let (_, rest) = bytes.split_at(place);
    let (number, _) = read_u32_low_first(rest);
    number
}
