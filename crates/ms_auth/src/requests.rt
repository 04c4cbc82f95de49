//! The member's request.
ghost use Rattle.std.specs.Prelude.{◌≡◌, ◌≤◌, ◌<◌, ◌^◌};
ghost use Rattle.ms_auth.specs.declared.packet.Kind.{Kind};
ghost use Rattle.ms_auth.specs.declared.packet.Packet.{Packet};
ghost use Rattle.ms_auth.specs.Packet.{SpellsPacket};
ghost use Rattle.ms_auth.specs.Request.{IsRequest, IsRequestHeader, request_bytes};

use crate::{HASH_HINTS, Kind, Packet, Tail};
use ntp_wire::{Header, Stamp};

/// The precision of a clock in ticks of 100 ns, as a power of 2 in seconds.
const PRECISION: i8 = -23;

/// The timestamp that says nothing.
const NO_STAMP: Stamp = Stamp {
    seconds: 0,
    fraction: 0,
};

/// A request for the account with this RID, under its current key (MS-SNTP, client request). `poll` is the exponent
/// of a power of 2 in seconds, and the timestamp is what the reply has to bring back. The checksum is zero bytes: a
/// request isn't signed, and servers ignore what stands there.
pub fn request(kind: Kind, rid: u32, poll: u8, stamp: Stamp) -> Packet
    requires rid { kind ≡ Kind.Short → rid < 2 ^ 31 }
    requires poll { poll ≤ 17 }
    ensures request { IsRequest kind rid poll stamp result }
    ensures spells { SpellsPacket result (request_bytes kind rid poll stamp) }

    // There is one such request.
    ensures only { (p : Packet) → IsRequest kind rid poll stamp p → p ≡ result }
{
    let tail = match kind {
        Kind::Short => Tail::Short68 {
            key_id: rid,
            sum: [0; 16],
        },
        Kind::Extended => Tail::Ext120 {
            rid,
            reserved: 0,
            flags: 0,
            hints: HASH_HINTS,
            hash: 0,
            sum: [0; 64],
        },
    };
    Packet {
        header: request_header(poll, stamp),
        tail,
    }
}

/// The header of a request: leap indicator, version and mode are 3.
fn request_header(poll: u8, stamp: Stamp) -> Header
    requires { poll ≤ 17 }
    ensures { IsRequestHeader poll stamp result }
{
    Header {
        leap: 3,
        version: 3,
        mode: 3,
        stratum: 0,
        poll: poll as i8,
        precision: PRECISION,
        root_delay: 0,
        root_dispersion: 0,
        reference_id: [0; 4],
        reference: NO_STAMP,
        originate: NO_STAMP,
        receive: NO_STAMP,
        transmit: stamp,
    }
}
