//! The machine's clock.
ghost use Rattle.std.specs.Prelude.{◌≡◌, ℕ, ◌+◌, ◌/◌, ◌<◌, ◌^◌, [], ◌∷◌, pos, IfSome, None, Option};
ghost use Rattle.std.specs.Duration.{as_nanos};
ghost use Rattle.base_specs.specs.Told.{Grew};
ghost use Rattle.edge_io.specs.CorrectedClock.{ReadsAt, slewed_at, stepped_at};
ghost use Rattle.edge_traits.specs.Clock.{Correct, ReadingCounts, Reads};

use crate::correction::Correction;
use edge_traits::{Clock, Move, Reading};
use std::marker::Model;
use std::rt;
use std::time::{Duration, SystemTime};

/// Ticks from 1 January 1601 to 1 January 1970.
const TICKS_TO_1970: u128 = 116_444_736_000_000_000;

/// Nanoseconds in a tick.
const TICK_NANOS: u128 = 100;

/// The machine's clock with its corrections. It tells nothing, and leaves the machine's clock as it is.
///
/// A reading is what the machine's clock reads, in ticks of 100 ns since 1 January 1601, plus all steps, plus
/// what is worked off of the slews: one tick per 2,000 ticks of the machine's clock. A further slew takes the place
/// of what is left of the one before, and a step leaves nothing of it. A machine's clock that went backwards works
/// off nothing.
///
/// [`laws_of_corrections`](crate::laws_of_corrections) says what that is for: a slew by the exact distance from a
/// reference that runs evenly with the machine's clock brings the clock nearer, and then to it.
///
/// It answers Failed where the machine's clock can't be had (also where it is set before 1970, which the library
/// doesn't give), and where the sum is no reading: below 0 or above 4,000,000,000,000,000,000.
#[derive(Drop)]
pub struct RealClock<R: rt::Clock + Drop> {
    rt: R,
    correction: Correction,
    faults: u64,
}

impl<R: rt::Clock + Drop> Model for RealClock<R> {
    ghost use Rattle.edge_io.specs.CorrectedClock.{CorrectedClock};

    ghost Value = { CorrectedClock };

    ghost view = { λ c. record { correction = c.correction; faults = c.faults } };
}

impl<R: rt::Clock + Drop> RealClock<R> {
    /// The clock of this runtime, without corrections.
    pub fn new(rt: R) -> RealClock<R>
        ensures correction { result ≡ record {
          correction = record { moved = pos 0; slew = pos 0; passed = 0; seen = None };
          faults = 0;
        } }
        ensures told { ⟦<RealClock<R> as Clock>⟧.told result ≡ None }
        ensures faults { ⟦<RealClock<R> as Clock>⟧.faults result ≡ 0 }
    {
        RealClock {
            rt,
            correction: Correction::new(),
            faults: 0,
        }
    }
}

impl<R: rt::Clock + Drop> RealClock<R> {
    /// The reading, where the machine's clock reads so many ticks or can't be had.
    fn read_at(&mut self, machine: Option<u128>) -> Reading
        requires { IfSome machine (λ ticks. ticks < 2 ^ 100) }
        ensures gives { Reads result None None }
        ensures cause { ReadingCounts result self.old.faults self.new.faults }
        ensures corrected { ReadsAt machine result self.old self.new }
    {
        if let Some(machine) = machine {
            self.correction.look(machine);
            if let Some(moment) = self.correction.reading(machine) {
                return Reading::At(moment);
            }
        }
        self.faults = self.faults.saturating_add(1);
        Reading::Failed
    }

    /// Moves the clock at once, where the machine's clock reads so many ticks or can't be had.
    fn step_at(&mut self, machine: Option<u128>, amount: i64)
        ensures { self.new ≡ stepped_at machine amount self.old }
    {
        if let Some(machine) = machine {
            self.correction.look(machine);
        }
        self.correction.step(amount);
    }

    /// Begins to move the clock bit by bit, where the machine's clock reads so many ticks or can't be had.
    fn slew_at(&mut self, machine: Option<u128>, amount: i64)
        ensures { self.new ≡ slewed_at machine amount self.old }
    {
        if let Some(machine) = machine {
            self.correction.look(machine);
        }
        self.correction.slew(amount);
    }
}

impl<R: rt::Clock + Drop> Clock for RealClock<R> {
    ghost use Rattle.std.specs.Prelude.{None};

    ghost told = { λ _. None };

    ghost faults = { λ c. c.faults };

    fn now(&mut self) -> Reading
        ensures gives { Reads result None None }
        ensures cause { ReadingCounts result self.old.faults self.new.faults }
        ensures corrected { (machine : Option ℕ) × ReadsAt machine result self.old self.new }
    {
        let machine = machine_ticks(&self.rt);
        self.read_at(machine)
    }

    // Where the machine's clock can't be had, what was worked off is what was due when it was last looked at.
    fn step(&mut self, amount: i64)
        ensures moves { Grew None None (Correct (Move.Step amount) ∷ []) }
        ensures cause { self.new.faults ≡ self.old.faults }
        ensures correction { (machine : Option ℕ) × (self.new ≡ stepped_at machine amount self.old) }
    {
        let machine = machine_ticks(&self.rt);
        self.step_at(machine, amount);
    }

    // Where the machine's clock can't be had, the slew begins when it was last looked at.
    fn slew(&mut self, amount: i64)
        ensures moves { Grew None None (Correct (Move.Slew amount) ∷ []) }
        ensures cause { self.new.faults ≡ self.old.faults }
        ensures correction { (machine : Option ℕ) × (self.new ≡ slewed_at machine amount self.old) }
    {
        let machine = machine_ticks(&self.rt);
        self.slew_at(machine, amount);
    }
}

/// What the machine's clock reads, where it can be had, in ticks of 100 ns since 1 January 1601.
pub(crate) fn machine_ticks<R: rt::Clock>(rt: &R) -> Option<u128>
    ensures { IfSome result (λ ticks. ticks < 2 ^ 100) }
{
    Some(ticks_since_1601(since_1970(rt)?))
}

/// How long it is since 1 January 1970 on the machine's clock, where that can be had and is no earlier.
pub(crate) fn since_1970<R: rt::Clock>(rt: &R) -> Option<Duration> {
    let now = SystemTime::now(rt).ok()?;
    now.duration_since(SystemTime::UNIX_EPOCH).ok()
}

/// The moment so long after 1 January 1970, in ticks of 100 ns since 1 January 1601.
fn ticks_since_1601(since_1970: Duration) -> u128
    ensures value { result ≡ 116_444_736_000_000_000 + as_nanos since_1970 / 100 }
    ensures within { result < 2 ^ 100 }
{
    TICKS_TO_1970 + since_1970.as_nanos() / TICK_NANOS
}

#[cfg(test)]
mod tests {
    use super::*;
    use std::io;

    /// A machine whose clock is set by hand.
    #[derive(Drop)]
    struct Machine {
        since_1970: Option<Duration>,
    }

    impl rt::Clock for Machine {
        fn monotonic(&self) -> io::Result<Duration> {
            self.since_1970()
        }

        fn since_1970(&self) -> io::Result<Duration> {
            self.since_1970
                .ok_or(io::Error::from(io::ErrorKind::InvalidData))
        }
    }

    /// 1 January 1970 in ticks.
    const EPOCH: i64 = 116_444_736_000_000_000;

    /// A call of a clock, and what a reading is to give.
    #[derive(Clone, Copy)]
    enum Call {
        Read(Reading),
        Step(i64),
        Slew(i64),
    }

    /// Whether the clock does as wanted when the machine's clock reads so many microseconds.
    fn does(clock: &mut RealClock<Machine>, micros: u64, call: Call) -> bool {
        clock.rt.since_1970 = Some(Duration::from_micros(micros));
        match call {
            Call::Read(reading) => return clock.now() == reading,
            Call::Step(amount) => clock.step(amount),
            Call::Slew(amount) => clock.slew(amount),
        }
        true
    }

    /// The place of the first call that isn't as wanted.
    fn first_wrong_call(clock: &mut RealClock<Machine>, calls: &[(u64, Call)]) -> Option<usize> {
        for place in 0..calls.len() {
            let (micros, call) = calls[place];
            if !does(clock, micros, call) {
                return Some(place);
            }
        }
        None
    }

    // A slew begins when it is asked for, and not when the clock was read before. So does one to the other side, of which
    // one tick is worked off here. A further slew takes the place of the last tick, and a step that of the last three.
    const MOVES: &[(u64, Call)] = &[
        (0, Call::Read(Reading::At(EPOCH))),
        (0, Call::Step(-7)),
        (0, Call::Read(Reading::At(EPOCH - 7))),
        (1_000, Call::Slew(3)),
        (1_000, Call::Read(Reading::At(EPOCH + 9_993))),
        (1_199, Call::Read(Reading::At(EPOCH + 11_983))),
        (1_200, Call::Read(Reading::At(EPOCH + 11_994))),
        (2_000, Call::Read(Reading::At(EPOCH + 19_996))),
        (1_400, Call::Read(Reading::At(EPOCH + 13_996))),
        (2_400, Call::Slew(-2)),
        (2_600, Call::Read(Reading::At(EPOCH + 25_995))),
        (2_600, Call::Slew(-5)),
        (3_000, Call::Step(10)),
        (9_000, Call::Read(Reading::At(EPOCH + 90_003))),
    ];

    #[test]
    fn moves_of_a_clock(rt: HostRuntime) {
        let since_1970 = Some(Duration::ZERO);
        let mut clock = RealClock::new(Machine { since_1970 });
        assert_eq!(rt; first_wrong_call(&mut clock, MOVES), None);
        clock.rt.since_1970 = None;
        assert_eq!(rt; (clock.now(), clock.faults), (Reading::Failed, 1));
    }

    const ENDS: &[(u64, Call)] = &[
        (0, Call::Step(-EPOCH)),
        (0, Call::Read(Reading::At(0))),
        (0, Call::Step(-1)),
        (0, Call::Read(Reading::Failed)),
        (0, Call::Step(4_000_000_000_000_000_001)),
        (0, Call::Read(Reading::At(4_000_000_000_000_000_000))),
        (0, Call::Step(1)),
        (0, Call::Read(Reading::Failed)),
        (0, Call::Step(i64::MAX)),
        (0, Call::Step(i64::MAX)),
        (0, Call::Step(i64::MAX)),
        (0, Call::Step(i64::MAX)),
        (0, Call::Step(-i64::MAX)),
        (0, Call::Step(-i64::MAX)),
        (0, Call::Step(-i64::MAX)),
        (0, Call::Step(-i64::MAX)),
        (0, Call::Step(-1)),
        (0, Call::Read(Reading::At(4_000_000_000_000_000_000))),
    ];

    #[test]
    fn readings_at_their_ends(rt: HostRuntime) {
        let since_1970 = Some(Duration::ZERO);
        let mut clock = RealClock::new(Machine { since_1970 });
        let wrong = first_wrong_call(&mut clock, ENDS);
        assert_eq!(rt; (wrong, clock.faults), (None, 2));
    }
}
