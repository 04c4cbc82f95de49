//! The readings that an answer is given by.
ghost use Rattle.std.specs.Prelude.{◌≡◌, [], ◌∷◌, IfNone, IfSome, OnSome};
ghost use Rattle.base_specs.specs.Counts.{Fails};
ghost use Rattle.base_specs.specs.Time.{IsReading};
ghost use Rattle.edge_traits.specs.Clock.{GaveReadings};
ghost use Rattle.dc_sign.specs.Readings.{GaveFewer};

use edge_traits::{Clock, Reading};

/// Reads the clock twice, and answers None where a reading failed. Then the clock isn't read again.
pub fn two_readings<C: Clock>(clock: &mut C) -> Option<(i64, i64)>
    ensures given { IfSome result (λ t.
        GaveReadings (C.told clock.old) (C.told clock.new) (t.0 ∷ t.1 ∷ [])) }
    ensures first { IfSome result (λ t. IsReading t.0) }
    ensures second { IfSome result (λ t. IsReading t.1) }
    ensures no_fault { OnSome result (C.faults clock.new ≡ C.faults clock.old) }

    ensures fewer { IfNone result (GaveFewer 2 (C.told clock.old) (C.told clock.new)) }
    ensures cause { IfNone result (Fails (C.faults clock.old) (C.faults clock.new)) }
{
    let Reading::At(first) = clock.now() else {
        return None;
    };
    let Reading::At(second) = clock.now() else {
        return None;
    };
    Some((first, second))
}
