//! What a controller says of itself.
ghost use Rattle.std.specs.Prelude.{◌≤◌};

use ntp_wire::{Stamp, to_ntp};

/// What a reply says of the controller that gives it: fields of the header (RFC 1305, appendix A).
#[derive(Clone, Copy, Debug, PartialEq, Eq)]
pub struct ServerInfo {
    /// The leap indicator, 0 to 3.
    pub leap: u8,
    /// How many steps the controller is from a reference clock; 1 is a reference clock.
    pub stratum: u8,
    /// The precision of the clock, as an exponent of 2 in seconds.
    pub precision: i8,
    /// The round trip to the reference clock, in units of 2^-16 seconds.
    pub root_delay: i32,
    /// The greatest error against the reference clock, in units of 2^-16 seconds.
    pub root_dispersion: u32,
    /// What the reference clock is.
    pub reference_id: [u8; 4],
    /// When the clock was last set.
    pub reference: Stamp,
    ghost leap_fits: { leap ≤ 3 },
}

impl ServerInfo {
    ghost use Rattle.std.specs.Prelude.{◌≡◌};
    ghost use Rattle.base_specs.specs.Time.{IsReading};
    ghost use Rattle.dc_sign.specs.declared.info.ServerInfo.{ServerInfo};
    ghost use Rattle.dc_sign.specs.Info.{IsLocalInfo};

    /// The information of a controller that keeps the time by its own clock, at a reading in ticks of 100 ns
    /// since 1601: a reference clock by the name `LOCL`, precise to 2^-23 seconds, which was set at the reading.
    /// These values are this project's own.
    pub fn local(t2: i64) -> ServerInfo
        requires { IsReading t2 }
        ensures local { IsLocalInfo t2 result }

        // A reading has one such information.
        ensures only { (one other : ServerInfo) → IsLocalInfo t2 one → IsLocalInfo t2 other
            → one ≡ other }
    {
        ServerInfo {
            leap: 0,
            stratum: 1,
            precision: -23,
            root_delay: 0,
            root_dispersion: 0,
            reference_id: *b"LOCL",
            reference: to_ntp(t2),
        }
    }
}
