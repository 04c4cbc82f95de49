//! Bytes in memory that are given in pieces.
ghost use Rattle.std.specs.Prelude.{◌≡◌, ◌<◌, ◌≤◌, ◌++◌, ◌==◌, [], All, length, take, drop, min};
ghost use Rattle.edge_io.specs.Pieces.{given_len, piece_len, pieces_after, sizes_behind};

use std::marker::Model;

/// The sizes of the pieces that are still to come.
#[derive(Drop)]
struct Sizes {
    sizes: Vec<usize>,
    at: usize,
}

impl Model for Sizes {
    ghost use Rattle.std.specs.Prelude.{ℕ, List, ◌<◌, ◌≤◌, All, length, drop};

    ghost Value = { List ℕ };

    ghost view = { λ s. drop s.at s.sizes.items };

    ghost invariant = { λ s. (s.at ≤ length s.sizes.items) × All (λ size. 0 < size) s.sizes.items };
}

impl Sizes {
    /// The length of the next piece, of so many bytes that are left.
    fn next(&self, left: usize) -> usize
        ensures len { result ≡ piece_len self.now left }
        ensures some { 0 < left → 0 < result }
        ensures within { result ≤ left }
    {
        match self.sizes.get(self.at) {
            Some(&size) => size.min(left),
            None => left,
        }
    }

    /// Takes so many bytes of the next piece.
    fn take(&mut self, count: usize)
        ensures { self.new ≡ sizes_behind count self.old }
    {
        if self.at < self.sizes.len() {
            let size = self.sizes[self.at];
            if size <= count {
                self.at += 1;
            } else {
                self.sizes[self.at] = size - count;
            }
        }
    }
}

/// Bytes in memory, given in pieces of set sizes, and the rest behind the last size as one piece.
///
/// A piece that the buffer is too small for goes on with the next.
#[derive(Drop)]
pub(crate) struct Pieces {
    bytes: Vec<u8>,
    at: usize,
    sizes: Sizes,
}

impl Model for Pieces {
    ghost use Rattle.std.specs.Prelude.{◌≤◌, length, drop, take};
    ghost use Rattle.edge_io.specs.Pieces.{InPieces};

    ghost Value = { InPieces };

    ghost view = { λ p. record {
      given = take p.at p.bytes.items;
      left = drop p.at p.bytes.items;
      sizes = p.sizes;
    } };

    ghost invariant = { λ p. p.at ≤ length p.bytes.items };
}

impl Pieces {
    /// These bytes, in pieces of these sizes.
    pub(crate) fn new(bytes: Vec<u8>, sizes: Vec<usize>) -> Pieces
        requires { All (λ size. 0 < size) sizes.items }
        ensures { result ≡ record { given = []; left = bytes.items; sizes = sizes.items } }
    {
        Pieces {
            bytes,
            at: 0,
            sizes: Sizes { sizes, at: 0 },
        }
    }

    /// How many bytes were given.
    pub(crate) fn given_len(&self) -> usize
        ensures { result ≡ length self.now.given }
    {
        self.at
    }

    /// Nothing is left.
    pub(crate) fn is_used_up(&self) -> bool
        ensures { result ≡ (length self.now.left == 0) }
    {
        self.at == self.bytes.len()
    }

    /// Gives the next piece, or as much of it as the buffer takes, to the front of the buffer.
    pub(crate) fn give(&mut self, buf: &mut [u8]) -> usize
        requires room { 0 < length buf.old }
        requires left { 0 < length self.old.left }
        ensures count { result ≡ given_len self.old (length buf.old) }
        ensures some { 0 < result }
        ensures within { result ≤ length buf.new }
        ensures buffer { buf.new ≡ take result self.old.left ++ drop result buf.old }
        ensures front { self.old.left ≡ take result buf.new ++ self.new.left }
        ensures script { self.new ≡ pieces_after result self.old }
    {
        let left = self.bytes.len() - self.at;
        let count = self.sizes.next(left).min(buf.len());
        buf[..count].copy_from_slice(&self.bytes[self.at..self.at + count]);
        self.at += count;
        self.sizes.take(count);
        count
    }
}
