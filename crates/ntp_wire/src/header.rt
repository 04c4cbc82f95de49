//! The header.
ghost use Rattle.std.specs.Prelude.{◌≤◌};

use crate::Stamp;

/// Bytes in a header.
pub const HEADER_LEN: usize = 48;

/// What a header says (RFC 1305, appendix A).
#[derive(Clone, Copy, Debug, PartialEq, Eq)]
pub struct Header {
    /// Leap indicator: 0 to 2 announce how long the last minute of the day is, 3 says that the clock isn't
    /// synchronized.
    pub leap: u8,
    /// Version of the protocol, 0 to 7.
    pub version: u8,
    /// Mode: 1 symmetric active, 2 symmetric passive, 3 client, 4 server, 5 broadcast, 6 control, 7 private,
    /// 0 reserved.
    pub mode: u8,
    /// Stratum: 1 for a primary reference, one more for each server between, 0 where it isn't known.
    pub stratum: u8,
    /// Greatest interval between messages, as the exponent of a power of 2 in seconds.
    pub poll: i8,
    /// Precision of the clock, as the exponent of a power of 2 in seconds.
    pub precision: i8,
    /// Roundtrip delay to the primary reference, in units of 2^-16 seconds.
    pub root_delay: i32,
    /// Greatest error against the primary reference, in units of 2^-16 seconds. It is read as unsigned, which is this
    /// project's own choice.
    pub root_dispersion: u32,
    /// The reference: four letters at stratum 0 and 1, else the address of the server.
    pub reference_id: [u8; 4],
    /// When the clock was last set.
    pub reference: Stamp,
    /// When the request left, by the clock of its sender.
    pub originate: Stamp,
    /// When the request arrived, by the clock of its receiver.
    pub receive: Stamp,
    /// When this message left.
    pub transmit: Stamp,
    ghost leap_fits: { leap ≤ 3 },
    ghost version_fits: { version ≤ 7 },
    ghost mode_fits: { mode ≤ 7 },
}

/// Why bytes are no header.
#[derive(Clone, Copy, Debug, PartialEq, Eq)]
pub enum HeaderFault {
    /// There are fewer than 48.
    Short,
}
