//! Time messages that carry a checksum under an account's key (MS-SNTP). No memory is taken.
//!
//! A message is a header of `ntp_wire` and a tail: none, the 20 bytes of an Authenticator, or the 72 bytes of an
//! ExtendedAuthenticator. The crate stands on `byte_codec` and `ntp_wire` for its bytes, on `mac_kdf` for checksums,
//! and on `edge_traits` for the datagram that is sent. The layer above may rely on this: each list of 48, 68 or 120
//! bytes spells exactly one message, and no other list spells any; `read_packet` and `write_packet` are each other's
//! inverse; `request` gives the one request of a member; `sign` replaces the checksum of a message of either kind and
//! nothing else, and `check` is true exactly where a message carries the checksum under the key. A `Ready` answers the same
//! for many messages under one key, whose derived key it makes once.
//!
//! `specs/Packet.antt` has the spelling, `specs/Request.antt` the request, `specs/Digest.antt` the checksum,
//! `specs/Ready.antt` what a `Ready` keeps, and `specs/Fields.antt` the fields and the checksum by their places:
//! `read_packet` finds each of them there, so that a caller may speak of bytes in place of a message.
#![tactic(auto)]

mod codec;
mod key_id;
mod packet;
mod ready;
mod requests;
mod signing;
#[cfg(test)]
mod tests;

pub use codec::{read_packet, write_packet};
pub use key_id::{asks_for_previous, short_rid};
pub use packet::{
    BadLength, EXTENDED_LEN, HASH_HINTS, Kind, Packet, SHORT_LEN, SIGNATURE_HASH, Tail,
};
pub use ready::Ready;
pub use requests::request;
pub use signing::{check, sign};
