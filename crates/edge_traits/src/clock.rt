//! What the time is.

/// What a clock gave.
#[derive(Clone, Copy, Debug, PartialEq, Eq)]
pub enum Reading {
    /// The moment, in ticks of 100 ns since 1 January 1601: from 0 to 4,000,000,000,000,000,000.
    At(i64),
    /// The reading failed.
    Failed,
}

/// A correction of a clock, in ticks of 100 ns.
#[derive(Clone, Copy, Debug, PartialEq, Eq)]
pub enum Move {
    /// At once.
    Step(i64),
    /// Bit by bit.
    Slew(i64),
}

/// A clock that is read, and that can be corrected.
pub trait Clock {
    ghost use Rattle.std.specs.Prelude.{◌≡◌, ℕ, List, [], ◌∷◌, Option};
    ghost use Rattle.base_specs.specs.Told.{Grew};
    ghost use Rattle.edge_traits.specs.declared.clock.Move.{Move};
    ghost use Rattle.edge_traits.specs.Clock.{ClockCall, Correct, ReadingCounts, Reads};

    /// The readings given and the corrections made, the oldest first, where the clock tells them.
    ghost told: { Self → Option (List ClockCall) };

    /// How often a reading has failed.
    ghost faults: { Self → ℕ };

    /// What the time is.
    fn now(&mut self) -> Reading
        ensures gives { Reads result (told self.old) (told self.new) }
        ensures cause { ReadingCounts result (faults self.old) (faults self.new) };

    /// Moves the clock by this many ticks, at once. It can't fail.
    fn step(&mut self, amount: i64)
        ensures moves { Grew (told self.old) (told self.new) (Correct (Move.Step amount) ∷ []) }
        ensures cause { faults self.new ≡ faults self.old };

    /// Moves the clock by this many ticks, bit by bit. It can't fail.
    fn slew(&mut self, amount: i64)
        ensures moves { Grew (told self.old) (told self.new) (Correct (Move.Slew amount) ∷ []) }
        ensures cause { faults self.new ≡ faults self.old };
}
