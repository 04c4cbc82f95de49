//! What holds of the corrections of a clock.
ghost use Rattle.std.specs.Prelude.{ℕ, ℤ};
ghost use Rattle.edge_io.specs.CorrectedClock.{CorrectedClock};
ghost use Rattle.edge_io.specs.Servo.{Arrives, CanSlew, CanStep, Settles};

/// What the corrections of a [`RealClock`](crate::RealClock) are for. There is nothing to do.
///
/// The premise is a reference that runs evenly with the machine's clock, and an offset that is exactly what the clock
/// lacks to it: that of a reply whose two ways took the same time.
pub fn laws_of_corrections()
    ensures arrives { (lead : ℤ) (machine : ℕ) (c : CorrectedClock) → CanStep lead machine c
        → Arrives lead machine c }
    // Between two corrections the clock never goes away from the reference, and it comes to it.
    ensures settles { (lead : ℤ) (machine : ℕ) (c : CorrectedClock) → CanSlew lead machine c
        → Settles lead machine c }
{}
