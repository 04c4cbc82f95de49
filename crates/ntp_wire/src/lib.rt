//! The 48-byte header of the Network Time Protocol and its timestamps (RFC 1305). No memory is taken.
//!
//! It stands on `byte_codec` for its bytes and on `base_specs` for what a reading and a timestamp are. The layer
//! above may rely on this: each 48 bytes spell exactly one header, which `read_header` gives and `write_header`
//! writes; each reading has exactly one timestamp, which `to_ntp` gives; and `to_ticks` gives the one moment that a
//! timestamp stands for near a reading, so that the timestamp of a moment from 2^31 seconds before that reading to
//! just below 2^31 seconds after it gives that moment back, to the tick.
//!
//! `specs/Header.antt` has the spelling of a header, `specs/Stamp.antt` the timestamps, and `specs/Fields.antt` the
//! fields that a controller and a member look at, by their places in a message: so a caller may speak of bytes in
//! place of a header.
#![tactic(auto)]

mod codec;
mod header;
mod stamp;
#[cfg(test)]
mod tests;

pub use codec::{read_header, write_header};
pub use header::{HEADER_LEN, Header, HeaderFault};
pub use stamp::{Stamp, to_ntp, to_ticks};
