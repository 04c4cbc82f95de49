//! Timestamps of 64 bits, and ticks of 100 ns since 1 January 1601.
ghost use Rattle.std.specs.Prelude.{◌≡◌, ◌+◌, ◌*◌, ◌%◌, ◌^◌, ◌<◌, ◌≤◌, ℕ, ℤ};
ghost use Rattle.base_specs.specs.Time.{IsPart, IsReading, IsTicksNear, second};
ghost use Rattle.ntp_wire.specs.declared.stamp.Stamp.{Stamp};
ghost use Rattle.ntp_wire.specs.Stamp.{IsInReach, IsStampOf, era, ticks_of};

/// Ticks in a second.
const SECOND: u64 = 10_000_000;

/// Seconds after which timestamps repeat.
const ERA_SECONDS: u64 = 1 << 32;

/// The same in ticks.
const ERA: u64 = ERA_SECONDS * SECOND;

/// Half of it: how far a timestamp may lie from the moment near which it is read.
const HALF_ERA: u64 = ERA / 2;

/// Seconds from 1 January 1601 to 1 January 1900.
const WIRE_EPOCH: u64 = 9_435_484_800;

/// A timestamp of the wire (RFC 1305, section 3.1): seconds since 1 January 1900 modulo 2^32, and a fraction of a
/// second.
#[derive(Clone, Copy, Debug, PartialEq, Eq)]
pub struct Stamp {
    /// Whole seconds since 1 January 1900, modulo 2^32.
    pub seconds: u32,
    /// What is left, in units of 2^-32 seconds.
    pub fraction: u32,
}

/// The timestamp of a moment, which is in ticks of 100 ns since 1 January 1601. The fraction is rounded up, so that
/// reading it gives the same tick back.
pub fn to_ntp(ticks: i64) -> Stamp
    requires { IsReading ticks }
    ensures stamp { IsStampOf ticks result }

    // A moment has one timestamp.
    ensures only { (s : Stamp) → IsStampOf ticks s → s ≡ result }
{
    let ticks = ticks.unsigned_abs();
    let seconds = (ticks / SECOND + (3 * ERA_SECONDS - WIRE_EPOCH)) % ERA_SECONDS;
    Stamp {
        seconds: seconds as u32,
        fraction: fraction_of(ticks % SECOND),
    }
}

/// The moment that a timestamp stands for near a reading: at most 2^31 seconds before it, and less than 2^31 seconds
/// after it. Both are in ticks of 100 ns since 1 January 1601, and the fraction is rounded down.
pub fn to_ticks(stamp: Stamp, near: i64) -> i64
    requires { IsReading near }
    ensures near { IsTicksNear stamp.seconds stamp.fraction near result }
    ensures value { result ≡ ticks_of stamp near }

    // No other moment is near and has the timestamp.
    ensures only { (t : ℤ) → IsTicksNear stamp.seconds stamp.fraction near t → t ≡ result }

    // The timestamp of a moment in reach gives the moment back.
    ensures back { (t : ℤ) → IsStampOf t stamp → IsInReach near t → result ≡ t }
{
    let base = (u64::from(stamp.seconds) + WIRE_EPOCH) * SECOND + part_of(stamp.fraction);
    let near = near.unsigned_abs();
    (near + ahead_of(base, near)) as i64 - HALF_ERA as i64
}

/// The least fraction that isn't below a part of a second, which is in ticks.
fn fraction_of(part: u64) -> u32
    requires { part < second }
    ensures enough { part * 2 ^ 32 ≤ result * second }
    ensures least { (f : ℕ) → part * 2 ^ 32 ≤ f * second → result ≤ f }
{
    (part * ERA_SECONDS).div_ceil(SECOND) as u32
}

/// The greatest part of a second, in ticks, that isn't above a fraction.
fn part_of(fraction: u32) -> u64
    ensures part { IsPart fraction result }
    ensures bound { result < second }
{
    u64::from(fraction) * SECOND / ERA_SECONDS
}

/// How far above the earliest moment in reach of `near`, which is half an era before it, the first one lies that
/// differs from `base` by whole eras.
fn ahead_of(base: u64, near: u64) -> u64
    requires base { base < 2 ^ 60 }
    requires near { near ≤ 4000000000000000000 }
    ensures bound { result < era }
    ensures congruent { (near + result) % era ≡ (base + 2 ^ 31 * second) % era }
{
    // 94 eras are more than any reading, so nothing falls below 0.
    (base + HALF_ERA + 94 * ERA - near) % ERA
}
