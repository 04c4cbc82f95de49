//! Random words.

/// What was drawn.
#[derive(Clone, Copy, Debug, PartialEq, Eq)]
pub enum Drawn {
    /// A word of 32 random bits.
    Word(u32),
    /// The draw failed.
    Failed,
}

/// A source of random words.
pub trait Entropy {
    ghost use Rattle.std.specs.Prelude.{ℕ, List, Option};
    ghost use Rattle.edge_traits.specs.Entropy.{DrawnCounts, Draws};

    /// The words given, where the source tells them. It never falls silent.
    ghost words: { Self → Option (List ℕ) };

    /// How often a draw has failed.
    ghost faults: { Self → ℕ };

    /// Draws a word.
    fn word(&mut self) -> Drawn
        ensures gives { Draws result (words self.old) (words self.new) }
        ensures cause { DrawnCounts result (faults self.old) (faults self.new) };
}
