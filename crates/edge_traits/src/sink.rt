//! Where bytes go.

/// Whether a call was done that gives nothing else: a write, a send of a link, and each call of a disk.
#[derive(Clone, Copy, Debug, PartialEq, Eq)]
pub enum Put {
    /// It was done, and all of a piece was taken.
    Done,
    /// The call failed. Of a piece that was written a front may have been taken.
    Failed,
}

/// A stream of bytes that is written at its end.
pub trait Sink {
    ghost use Rattle.std.specs.Prelude.{ℕ, List, Option, ◌<◌, length};
    ghost use Rattle.edge_traits.specs.Sink.{PutCounts, Writes};

    /// The bytes written, where the sink tells them.
    ghost written: { Self → Option (List ℕ) };

    /// How often a write has failed.
    ghost faults: { Self → ℕ };

    /// Writes a piece at the end.
    fn write(&mut self, piece: &[u8]) -> Put
        requires { 0 < length piece.now }
        ensures bytes { Writes result piece.now (written self.old) (written self.new) }
        ensures cause { PutCounts result (faults self.old) (faults self.new) };
}
