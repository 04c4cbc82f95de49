//! The limits of a correction and of the poll exponent.
ghost use Rattle.std.specs.Prelude.{◌≤◌};

/// The value of `max_pos` and of `max_neg` that means that there is no limit.
pub const NO_LIMIT: u32 = 4_294_967_295;

/// The limits of a correction, in seconds, and of the poll exponent.
#[derive(Clone, Copy, Debug, PartialEq, Eq)]
pub struct Limits {
    /// The greatest positive correction, MaxPosPhaseCorrection, or [`NO_LIMIT`].
    pub max_pos: u32,
    /// The greatest amount of a negative correction, MaxNegPhaseCorrection, or [`NO_LIMIT`].
    pub max_neg: u32,
    /// The greatest amount that is worked off slowly, MaxAllowedPhaseOffset. Each value is a number of
    /// seconds here, the greatest too.
    pub max_allowed: u32,
    /// The least poll exponent, MinPollInterval: the interval is 2 to this power, in seconds.
    pub min_poll: u8,
    /// The greatest poll exponent, MaxPollInterval: at most 17, about 36 hours.
    pub max_poll: u8,

    ghost ordered: { min_poll ≤ max_poll },
    ghost bounded: { max_poll ≤ 17 },
}
