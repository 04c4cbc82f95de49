//! The checksum of a message.
ghost use Rattle.std.specs.Prelude.{◌≡◌, ◌↔◌, IsTrue};
ghost use Rattle.ntp_wire.specs.Header.{header_bytes};
ghost use Rattle.ms_auth.specs.declared.packet.Packet.{Packet};
ghost use Rattle.ms_auth.specs.Digest.{HasDigest, IsSigned};

use crate::{Packet, Tail};
use mac_kdf::{ext_sum, md5_sum};
use ntp_wire::{HEADER_LEN, Header, write_header};

/// The message with its checksum under the account's key (MS-SNTP, Crypto-Checksum). A plain one stays as it is.
pub fn sign(packet: &Packet, key: &[u8; 16]) -> Packet
    ensures signed { IsSigned key.now packet.now result }

    // A message has one such form.
    ensures only { (p : Packet) → IsSigned key.now packet.now p → p ≡ result }
{
    let header = bytes_of(&packet.header);
    let tail = match packet.tail {
        Tail::Plain => Tail::Plain,
        Tail::Short68 { key_id, .. } => Tail::Short68 {
            key_id,
            sum: md5_sum(key, &header),
        },
        Tail::Ext120 {
            rid,
            reserved,
            flags,
            hints,
            hash,
            ..
        } => Tail::Ext120 {
            rid,
            reserved,
            flags,
            hints,
            hash,
            sum: ext_sum(key, rid, &header),
        },
    };
    Packet {
        header: packet.header,
        tail,
    }
}

/// Whether the message carries the checksum under the account's key. A plain one carries none.
pub fn check(packet: &Packet, key: &[u8; 16]) -> bool
    ensures { IsTrue result ↔ HasDigest key.now packet.now }
{
    let header = bytes_of(&packet.header);
    match packet.tail {
        Tail::Plain => false,
        Tail::Short68 { sum, .. } => sum == md5_sum(key, &header),
        Tail::Ext120 { rid, sum, .. } => sum == ext_sum(key, rid, &header),
    }
}

/// The bytes that a checksum is of.
pub(crate) fn bytes_of(header: &Header) -> [u8; HEADER_LEN]
    ensures { result ≡ header_bytes header.now }
{
    let mut bytes = [0; HEADER_LEN];
    write_header(header, &mut bytes);
    bytes
}
