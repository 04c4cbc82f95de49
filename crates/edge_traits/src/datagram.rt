//! What is sent, and where to.
ghost use Rattle.std.specs.Prelude.{◌≡◌, ◌<◌, ◌≤◌, All, length, take};

use arrayvec::ArrayVec;
use std::marker::Model;

/// Bytes in a datagram, at most.
pub const DATAGRAM_LEN: usize = 256;

/// An address of the Internet Protocol, first byte highest, and a port.
#[derive(Clone, Copy, Debug, PartialEq, Eq)]
pub struct Addr {
    pub ip: u32,
    pub port: u16,
}

/// At most 256 bytes.
#[derive(Drop)]
pub struct Datagram {
    bytes: ArrayVec<u8, 256>,
}

impl Model for Datagram {
    ghost use Rattle.std.specs.Prelude.{ℕ, List, ◌<◌, ◌≤◌, All, length};

    ghost Value = { List ℕ };

    ghost view = { λ d. d.bytes.items };

    ghost invariant = { λ d. (length d.bytes.items ≤ 256) × All (λ byte. byte < 256) d.bytes.items };
}

impl Datagram {
    /// The first 256 of the bytes.
    pub fn from_slice(bytes: &[u8]) -> Datagram
        ensures { result ≡ take 256 bytes.now }
    {
        let mut kept = ArrayVec::new();
        let _ = kept.try_extend_from_slice(front_of(bytes, DATAGRAM_LEN));
        Datagram { bytes: kept }
    }

    /// The bytes.
    pub fn as_slice(&self) -> &[u8]
        ensures bytes { result.now ≡ self.now }
        ensures within { length result.now ≤ 256 }
        ensures below { All (λ byte. byte < 256) result.now }
    {
        self.bytes.as_slice()
    }

    /// The same bytes once more.
    pub fn copy(&self) -> Datagram
        ensures { result ≡ self.now }
    {
        Datagram::from_slice(self.as_slice())
    }
}

/// At most so many of the first bytes.
fn front_of(bytes: &[u8], most: usize) -> &[u8]
    ensures bytes { result.now ≡ take most bytes.now }
    ensures within { length result.now ≤ most }
{
    if bytes.len() > most {
        &bytes[..most]
    } else {
        bytes
    }
}
