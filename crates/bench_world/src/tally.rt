//! A sink in memory that counts.
use arrayvec::ArrayVec;
use edge_traits::{Put, Sink};

/// The most bytes that are kept.
const KEPT: usize = 256;

/// It takes every piece, counts its bytes, and keeps the first 256 of all.
#[derive(Drop)]
pub struct Tally {
    front: ArrayVec<u8, 256>,
    len: u64,
}

impl Tally {
    /// A sink to which nothing was written.
    pub fn new() -> Tally {
        Tally {
            front: ArrayVec::new(),
            len: 0,
        }
    }

    /// The first bytes.
    pub fn front(&self) -> &[u8] {
        self.front.as_slice()
    }

    /// How many bytes were written.
    pub fn len(&self) -> u64 {
        self.len
    }
}

impl Sink for Tally {
    ghost use Rattle.std.specs.Prelude.{None};

    ghost written = { λ _. None };

    ghost faults = { λ _. 0 };

    fn write(&mut self, piece: &[u8]) -> Put {
        for byte in piece {
            self.len = self.len.saturating_add(1);
            if self.front.len() < KEPT {
                self.front.push(*byte);
            }
        }
        Put::Done
    }
}
