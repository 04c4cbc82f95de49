//! The two clocks.
ghost use Rattle.std.specs.Prelude.{◌≡◌, ◌<◌, ◌≤◌, ◌^◌, pos, nat_abs, ◌+ℤ◌, IfSome, IfNone, unsigned_abs};
ghost use Rattle.base_specs.specs.Time.{IsReading};
ghost use Rattle.sntp_world.specs.Steps.{MayPass, nearest_reading, passed};

use crate::setting::{FIRST_AHEAD, FIRST_READING, LAST_READING};

/// The most by which the clocks may run unevenly, all taken together.
const MOST_UNEVEN: u64 = 1_000_000_000_000_000_000;

/// What both clocks read, in ticks of 100 ns since 1 January 1601.
#[derive(Clone, Copy)]
pub(crate) struct Moment {
    pub member: i64,
    pub controller: i64,
    /// The sum of all by which either clock ran unevenly so far.
    pub uneven: u64,
}

impl Moment {
    /// The clocks at first.
    pub(crate) const FIRST: Moment = Moment {
        member: FIRST_READING,
        controller: FIRST_READING + FIRST_AHEAD,
        uneven: 0,
    };

    /// The clocks once the member's has moved on by `d + e` and the controller's by `d + f`. None exactly where one of
    /// them would run backward or past the last reading, or the unevenness would be too great.
    pub(crate) fn after(self, d: u32, e: i32, f: i32) -> Option<Moment>
        requires member { IsReading self.member }
        requires controller { IsReading self.controller }
        requires uneven { self.uneven ≤ 10 ^ 18 }
        ensures may { IfSome result (λ at. MayPass d e f self) }
        ensures passed { IfSome result (λ at. at ≡ passed d e f self) }
        ensures may_not { IfNone result (¬ MayPass d e f self) }
    {
        let member = moved_on(self.member, d, e)?;
        let controller = moved_on(self.controller, d, f)?;
        let uneven = self.uneven + u64::from(e.unsigned_abs()) + u64::from(f.unsigned_abs());
        if uneven > MOST_UNEVEN {
            return None;
        }
        Some(Moment {
            member,
            controller,
            uneven,
        })
    }

    /// The clocks after a correction of the member's, which stays at the nearest reading.
    pub(crate) fn corrected(self, offset: i64) -> Moment
        requires member { IsReading self.member }
        requires small { unsigned_abs offset < 10 ^ 17 }
        ensures { result ≡ record self { member = nearest_reading (self.member +ℤ offset) } }
    {
        Moment {
            member: (self.member + offset).clamp(0, LAST_READING),
            ..self
        }
    }
}

/// A clock's reading once it has moved on by `d + e`. None exactly where it would run backward or past the last reading.
fn moved_on(reading: i64, d: u32, e: i32) -> Option<i64>
    requires { IsReading reading }
    ensures moved { IfSome result (λ now. now ≡ reading +ℤ (pos d +ℤ e)) }
    ensures forward { IfSome result (λ now. nat_abs e ≤ d) }
    ensures reading { IfSome result (λ now. IsReading (reading +ℤ (pos d +ℤ e))) }
    ensures may_not { IfNone result (nat_abs e ≤ d → ¬ IsReading (reading +ℤ (pos d +ℤ e))) }
{
    if e.unsigned_abs() > d {
        return None;
    }
    let now = reading + i64::from(d) + i64::from(e);
    if now > LAST_READING {
        return None;
    }
    Some(now)
}
