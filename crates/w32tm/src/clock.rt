//! What the time is: the machine's clock with the corrections of the run, or without any, where chronyd makes them.
ghost use Rattle.std.specs.Prelude.{◌≡◌, [], ◌∷◌};
ghost use Rattle.edge_io.specs.Clock.{Correct, ReadingCounts, Reads};
ghost use Rattle.edge_io.specs.Told.{Grew};
ghost use Rattle.w32tm.specs.Clock.{is_sampled, of_clock};

use edge_io::{Clock, Move, Reading};

/// A clock of one of two kinds. It tells what its clock tells, and has that clock's count of failed readings.
#[derive(Drop)]
pub(crate) enum MachineClock<M: Clock, S: Clock> {
    /// The machine's clock with the corrections of the run.
    Corrected(M),
    /// The machine's clock; each correction is a sample for chronyd.
    Sampled(S),
}

impl<M: Clock, S: Clock> Clock for MachineClock<M, S> {
    ghost use Rattle.w32tm.specs.Clock.{of_clock};

    ghost told = { of_clock M.told S.told };

    ghost faults = { of_clock M.faults S.faults };

    fn now(&mut self) -> Reading
        ensures gives { let told = of_clock M.told S.told in
            Reads result (told self.old) (told self.new) }
        ensures cause { let faults = of_clock M.faults S.faults in
            ReadingCounts result (faults self.old) (faults self.new) }
        ensures kind { is_sampled self.new ≡ is_sampled self.old }
    {
        match self {
            MachineClock::Corrected(clock) => clock.now(),
            MachineClock::Sampled(clock) => clock.now(),
        }
    }

    fn step(&mut self, amount: i64)
        ensures moves { let told = of_clock M.told S.told in
            Grew (told self.old) (told self.new) (Correct (Move.Step amount) ∷ []) }
        ensures cause { let faults = of_clock M.faults S.faults in
            faults self.new ≡ faults self.old }
        ensures kind { is_sampled self.new ≡ is_sampled self.old }
    {
        match self {
            MachineClock::Corrected(clock) => clock.step(amount),
            MachineClock::Sampled(clock) => clock.step(amount),
        }
    }

    fn slew(&mut self, amount: i64)
        ensures moves { let told = of_clock M.told S.told in
            Grew (told self.old) (told self.new) (Correct (Move.Slew amount) ∷ []) }
        ensures cause { let faults = of_clock M.faults S.faults in
            faults self.new ≡ faults self.old }
        ensures kind { is_sampled self.new ≡ is_sampled self.old }
    {
        match self {
            MachineClock::Corrected(clock) => clock.slew(amount),
            MachineClock::Sampled(clock) => clock.slew(amount),
        }
    }
}

#[cfg(test)]
mod tests {
    use super::*;
    use edge_io::ScriptClock;
    use std::test::Fail;

    // Each kind hands its calls on: two corrections, and a reading that its clock doesn't have.
    #[test]
    fn clocks_of_each_kind(rt: HostRuntime) -> Result<(), Fail> {
        let alloc = rt.alloc();
        for is_sampled in [false, true] {
            let Ok(script) = ScriptClock::new(alloc, Vec::new(alloc), Vec::new(alloc), 2) else {
                return Err(Fail::from("it takes memory for two corrections"));
            };
            let mut clock: MachineClock<ScriptClock, ScriptClock> = if is_sampled {
                MachineClock::Sampled(script)
            } else {
                MachineClock::Corrected(script)
            };
            clock.step(-3);
            clock.slew(5);
            assert_eq!(rt; clock.now(), Reading::Failed);
            match &clock {
                MachineClock::Corrected(script) | MachineClock::Sampled(script) => {
                    assert_eq!(rt; script.moves(), [Move::Step(-3), Move::Slew(5)].as_slice());
                }
            }
        }
        Ok(())
    }
}
