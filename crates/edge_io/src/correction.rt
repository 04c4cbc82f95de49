//! How a clock differs from the machine's: its steps, and what is worked off of its slews.
ghost use Rattle.std.specs.Prelude.{◌≡◌, ◌<◌, ◌^◌, pos, ◌+ℤ◌, None};
ghost use Rattle.std.specs.Option.{SomeIff};
ghost use Rattle.base_specs.specs.Time.{IsReading};
ghost use Rattle.edge_io.specs.Correction.{worked_off};

use std::marker::Model;

/// Ticks of the machine's clock in which one tick of a slew is worked off.
const RATE: u128 = 2_000;

/// The last moment that a clock reads.
const LAST_READING: i128 = 4_000_000_000_000_000_000;

/// The steps and slews of a clock, in ticks of 100 ns.
///
/// The offset of a slew is measured against the corrected clock, so it has in it what is left of the slew before. A
/// slew therefore takes the place of the one before, and a step leaves nothing of it.
///
/// The sum has 128 bits. It takes 2^63 moves of the greatest amount to fill it, and then it stands still at its end.
#[derive(Drop)]
pub(crate) struct Correction {
    /// The steps, and what was worked off of the slews before the last one.
    moved: i128,
    /// The last slew, or 0 after a step.
    slew: i64,
    /// Ticks of the machine's clock since the last slew.
    passed: u128,
    /// What the machine's clock read when it was last looked at.
    seen: Option<u128>,
}

impl Model for Correction {
    ghost use Rattle.edge_io.specs.Correction.{Correction};

    ghost Value = { Correction };

    ghost view = { λ c. record {
      moved = c.moved;
      slew = c.slew;
      passed = c.passed;
      seen = c.seen;
    } };
}

impl Correction {
    ghost use Rattle.std.specs.Prelude.{◌≡◌, ◌<◌, ◌^◌, pos, ◌+ℤ◌, None, FitsSigned};
    ghost use Rattle.std.specs.Int.{w128, saturate_signed};
    ghost use Rattle.std.specs.Option.{SomeIff};
    ghost use Rattle.base_specs.specs.Time.{IsReading};
    ghost use Rattle.edge_io.specs.Correction.{ahead_of, looked_at, slewed_by, stepped_by};

    /// No move at all.
    pub(crate) fn new() -> Correction
        ensures { result ≡ record { moved = pos 0; slew = pos 0; passed = 0; seen = None } }
    {
        Correction {
            moved: 0,
            slew: 0,
            passed: 0,
            seen: None,
        }
    }

    /// Works off what is due when the machine's clock reads so many ticks.
    pub(crate) fn look(&mut self, machine: u128)
        ensures { self.new ≡ looked_at machine self.old }
    {
        let since = match self.seen {
            Some(seen) => machine.saturating_sub(seen),
            None => 0,
        };
        self.passed = self.passed.saturating_add(since);
        self.seen = Some(machine);
    }

    /// Moves the clock at once, and drops what is left of a slew.
    pub(crate) fn step(&mut self, amount: i64)
        ensures { self.new ≡ stepped_by amount self.old }
    {
        self.slew(0);
        self.moved = self.moved.saturating_add(i128::from(amount));
    }

    /// Begins to move the clock bit by bit, in place of what is left of a slew.
    pub(crate) fn slew(&mut self, amount: i64)
        ensures slew { self.new ≡ slewed_by amount self.old }
        // A slew moves nothing at once.
        ensures kept { FitsSigned w128 (ahead_of self.old) → ahead_of self.new ≡ ahead_of self.old }
    {
        self.moved = self.ahead();
        self.slew = amount;
        self.passed = 0;
    }

    /// The moment, where it is one that a clock reads, when the machine's clock reads so many ticks.
    pub(crate) fn reading(&self, machine: u128) -> Option<i64>
        requires { machine < 2 ^ 100 }
        ensures { let moment = pos machine +ℤ ahead_of self.now in
            SomeIff result (IsReading moment) moment }
    {
        reading_of(self.ahead().saturating_add(machine as i128))
    }

    /// By how many ticks the clock is ahead of the machine's.
    fn ahead(&self) -> i128
        ensures { result ≡ saturate_signed w128 (ahead_of self.now) }
    {
        self.moved
            .saturating_add(worked_off(self.slew, self.passed))
    }
}

/// What is worked off of a slew after so many ticks of the machine's clock.
fn worked_off(slew: i64, passed: u128) -> i128
    ensures { result ≡ worked_off slew passed }
{
    let most = (passed / RATE) as i128;
    i128::from(slew).clamp(-most, most)
}

/// The moment, where it is one that a clock reads.
pub(crate) fn reading_of(moment: i128) -> Option<i64>
    ensures { SomeIff result (IsReading moment) moment }
{
    if (0..=LAST_READING).contains(&moment) {
        Some(moment as i64)
    } else {
        None
    }
}

#[cfg(test)]
mod tests {
    use super::*;

    #[test]
    fn slews_are_worked_off_at_one_tick_in_2000(rt: HostRuntime) {
        let rows: [(i64, u128, i128); 11] = [
            (10, 0, 0),
            (10, 1_999, 0),
            (10, 2_000, 1),
            (10, 19_999, 9),
            (10, 20_000, 10),
            (10, 9_000_000, 10),
            (-10, 3_999, -1),
            (-10, 20_001, -10),
            (0, 20_000, 0),
            (i64::MIN, u128::MAX, -9_223_372_036_854_775_808),
            (i64::MAX, 4_000, 2),
        ];
        for (slew, passed, worked) in rows {
            assert_eq!(rt; worked_off(slew, passed), worked, "{slew} after {passed}");
        }
    }

    /// By how much the clock is ahead when the machine's clock reads so many ticks.
    fn ahead_at(correction: &mut Correction, machine: u128) -> i128 {
        correction.look(machine);
        correction.ahead()
    }

    #[test]
    fn a_slew_or_a_step_drops_what_is_left(rt: HostRuntime) {
        let mut clock = Correction::new();
        clock.look(1_000);
        clock.slew(3);
        for (machine, ahead) in [(2_999, 0), (3_000, 1), (5_500, 2)] {
            assert_eq!(rt; ahead_at(&mut clock, machine), ahead, "at {machine}");
        }
        // The third tick is dropped, and the 500 ticks that passed towards it count no more.
        clock.slew(-5);
        for (machine, ahead) in [(7_499, 2), (7_500, 1), (500, 1), (2_500, 0)] {
            assert_eq!(rt; ahead_at(&mut clock, machine), ahead, "at {machine}");
        }
        // So are the last three of these five.
        clock.step(100);
        assert_eq!(rt; ahead_at(&mut clock, 99_000), 100);
        clock.slew(1);
        for (machine, ahead) in [(100_999, 100), (101_000, 101), (999_000, 101)] {
            assert_eq!(rt; ahead_at(&mut clock, machine), ahead, "at {machine}");
        }
    }

    /// The greatest error after the first correction and the last one, of a clock that is asked every 64 seconds and
    /// slewed by its error. It is behind by so many ticks, and the machine's clock loses one tick in so many.
    fn polled(behind: i128, slow: u128) -> (i128, i128)
        requires { 0 < slow }
    {
        let mut clock = Correction::new();
        let mut greatest = 0;
        let mut last = 0;
        for poll in 0..11_000u32 {
            let now = u128::from(poll) * 640_000_000;
            let lost = now / slow;
            let ahead = ahead_at(&mut clock, now - lost);
            last = behind.saturating_add(lost as i128).saturating_sub(ahead);
            if poll > 0 {
                greatest = last.max(greatest);
            }
            clock.slew(i64::try_from(last).unwrap_or(0));
        }
        (greatest, last)
    }

    #[test]
    fn errors_shrink_to_the_drift_of_one_poll(rt: HostRuntime) {
        // In 64 seconds an even clock works off 320,000 ticks. One that is slow by 50 millionths works off 319,984 and
        // loses 32,000.
        let rows: [(i128, u128, (i128, i128)); 6] = [
            (100_000, u128::MAX, (0, 0)),
            (10_000_000, u128::MAX, (9_680_000, 0)),
            (2_990_000_000, u128::MAX, (2_989_680_000, 0)),
            (100_000, 20_000, (32_000, 32_000)),
            (10_000_000, 20_000, (9_712_016, 32_000)),
            (2_990_000_000, 20_000, (2_989_712_016, 32_000)),
        ];
        for (behind, slow, errors) in rows {
            assert_eq!(rt; polled(behind, slow), errors, "{behind} and {slow}");
        }
    }
}
