//! The judgement of an offset, and the next poll exponent.
ghost use Rattle.std.specs.Prelude.{◌≡◌, ◌↔◌, ◌+◌, ◌*◌, ◌^◌, ◌<◌, ◌≤◌, min, pos, ◌<ℤ◌, unsigned_abs};
ghost use Rattle.phase_rule.specs.Rule.{IsPast, judged, next_poll, ticks_of_seconds};

use crate::{Limits, NO_LIMIT};

/// One second, in ticks of 100 ns.
const SECOND: u64 = 10_000_000;

/// The greatest amount of an offset, in ticks, at which the clock is steady: 100 ms.
const STEADY: u64 = 1_000_000;

/// What is to be done with an offset.
#[derive(Clone, Copy, Debug, PartialEq, Eq)]
pub enum Judged {
    /// The clock is moved slowly, until the offset is worked off.
    Slew,
    /// The clock is set at once.
    Step,
    /// The offset is past the limit of its direction, and the clock is left alone.
    TooBig,
}

/// Judges an offset, in ticks of 100 ns.
///
/// The limit of a positive offset is `max_pos`, that of a negative one `max_neg`. An offset of exactly the
/// limit is allowed, and one of exactly `max_allowed` is a slew (MaxPosPhaseCorrection,
/// MaxNegPhaseCorrection and MaxAllowedPhaseOffset of the Windows Time service).
pub fn judge(offset: i64, limits: &Limits) -> Judged
    requires { unsigned_abs offset ≤ 4 * 10 ^ 18 }
    ensures judged { result ≡ judged limits.now offset }

    // Too big exactly past the limit of its direction.
    ensures ahead { pos 0 <ℤ offset
        → (result ≡ Judged.TooBig) ↔ IsPast limits.now.max_pos (unsigned_abs offset) }
    ensures behind { offset <ℤ pos 0
        → (result ≡ Judged.TooBig) ↔ IsPast limits.now.max_neg (unsigned_abs offset) }
    ensures none { offset ≡ pos 0 → result ≡ Judged.Slew }

    // A slew is at most the greatest amount for one, and a step is above it.
    ensures slew { result ≡ Judged.Slew → unsigned_abs offset ≤ ticks_of_seconds limits.now.max_allowed }
    ensures step { result ≡ Judged.Step → ticks_of_seconds limits.now.max_allowed < unsigned_abs offset }
{
    let amount = offset.unsigned_abs();
    let limit = if offset < 0 {
        limits.max_neg
    } else {
        limits.max_pos
    };
    if limit != NO_LIMIT && amount > u64::from(limit) * SECOND {
        Judged::TooBig
    } else if amount > u64::from(limits.max_allowed) * SECOND {
        Judged::Step
    } else {
        Judged::Slew
    }
}

/// The poll exponent after an accepted offset, in ticks of 100 ns.
///
/// It rises by one, up to `max_poll`, where the amount is at most 100 ms, and becomes `min_poll` otherwise.
pub fn next_poll(poll: u8, offset: i64, limits: &Limits) -> u8
    requires amount { unsigned_abs offset ≤ 4 * 10 ^ 18 }
    requires low { limits.now.min_poll ≤ poll }
    requires high { poll ≤ limits.now.max_poll }
    ensures next { result ≡ next_poll limits.now poll offset }

    ensures at_least { limits.now.min_poll ≤ result }
    ensures at_most { result ≤ limits.now.max_poll }
    ensures steady { unsigned_abs offset ≤ 1000000 → result ≡ min (poll + 1) limits.now.max_poll }
    ensures unsteady { 1000000 < unsigned_abs offset → result ≡ limits.now.min_poll }
{
    if offset.unsigned_abs() > STEADY {
        limits.min_poll
    } else if poll < limits.max_poll {
        poll + 1
    } else {
        poll
    }
}
