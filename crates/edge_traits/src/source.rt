//! Where bytes come from.

/// What a read gave.
#[derive(Clone, Copy, Debug, PartialEq, Eq)]
pub enum Take {
    /// This many bytes, at the front of the buffer.
    Bytes(usize),
    /// Nothing is left.
    End,
    /// The read failed. What was left is left still.
    Failed,
}

/// A stream of bytes that is read from its front.
pub trait Source {
    ghost use Rattle.std.specs.Prelude.{ℕ, List, Option, ◌<◌, length};
    ghost use Rattle.edge_traits.specs.Source.{TakeCounts, Gives};

    /// The bytes left, where the source tells them.
    ghost left: { Self → Option (List ℕ) };

    /// How often a read has failed.
    ghost faults: { Self → ℕ };

    /// Reads some of the bytes that are left, and answers `End` exactly where none is left.
    fn read(&mut self, buf: &mut [u8]) -> Take
        requires { 0 < length buf.old }
        ensures bytes { Gives result buf.new (left self.old) (left self.new) }
        ensures cause { TakeCounts result (faults self.old) (faults self.new) };
}
