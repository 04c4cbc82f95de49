//! The four times of a request and its reply, in ticks of 100 ns since 1 January 1601.
ghost use Rattle.std.specs.Prelude.{◌≡◌, ◌<◌, ◌^◌, ◌≤ℤ◌, ◌+ℤ◌, pos, negsuc, unsigned_abs};
ghost use Rattle.base_specs.specs.Time.{IsReading};
ghost use Rattle.ntp_wire.specs.Stamp.{IsInReach};
ghost use Rattle.time_machine.specs.Verdict.{delay_of, has_bad_times, offset_of};

/// Whether the reply left before the request arrived, or the delay is negative (RFC 1305, section 3.4.4). The request
/// left at a reading, or at most ten seconds before the first one.
pub fn has_bad_times(t1: i64, t2: i64, t3: i64, t4: i64) -> bool
    requires from { negsuc 99999999 ≤ℤ t1 }
    requires until { t1 ≤ℤ pos 4000000000000000000 }
    requires now { IsReading t4 }
    requires received { IsInReach t4 t2 }
    requires sent { IsInReach t4 t3 }
    ensures { result ≡ has_bad_times t1 t2 t3 t4 }
{
    t3 < t2 || delay_of(t1, t2, t3, t4) < 0
}

/// How far the asked clock is ahead, truncated toward zero (RFC 1305, section 3.4.4).
pub fn offset_of(t1: i64, t2: i64, t3: i64, t4: i64) -> i64
    requires from { negsuc 99999999 ≤ℤ t1 }
    requires until { t1 ≤ℤ pos 4000000000000000000 }
    requires now { IsReading t4 }
    requires received { IsInReach t4 t2 }
    requires sent { IsInReach t4 t3 }
    ensures value { result ≡ offset_of t1 t2 t3 t4 }
    ensures amount { t1 ≤ℤ t4 → t4 ≤ℤ (t1 +ℤ pos 100000000) → unsigned_abs result < 10 ^ 17 }
{
    ((t2 - t1) + (t3 - t4)) / 2
}

/// How long both messages were on their way (RFC 1305, section 3.4.4).
pub fn delay_of(t1: i64, t2: i64, t3: i64, t4: i64) -> i64
    requires from { negsuc 99999999 ≤ℤ t1 }
    requires until { t1 ≤ℤ pos 4000000000000000000 }
    requires now { IsReading t4 }
    requires received { IsInReach t4 t2 }
    requires sent { IsInReach t4 t3 }
    ensures { result ≡ delay_of t1 t2 t3 t4 }
{
    (t4 - t1) - (t3 - t2)
}
