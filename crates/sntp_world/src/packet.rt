//! A packet that was sent.
ghost use Rattle.std.specs.Prelude.{◌≡◌, ◌↔◌, IsTrue, IfSome, IfNone, Contains};
ghost use Rattle.sntp_world.specs.declared.packet.Packet.{Packet};
ghost use Rattle.sntp_world.specs.Due.{IsRequestWith};

use crate::moment::Moment;
use edge_traits::Datagram;
use ntp_wire::{Stamp, read_header};

/// Where a packet goes. The member sends to the controller, and the controller answers to the member.
#[derive(Clone, Copy, Debug, PartialEq, Eq)]
pub(crate) enum Destination {
    Controller,
    Member,
}

/// A packet, and when it was sent.
#[derive(Drop)]
pub(crate) struct Packet {
    pub to: Destination,
    pub bytes: Datagram,
    pub at: Moment,
}

impl Packet {
    /// Whether this is the member's request with this timestamp.
    pub(crate) fn is_request(&self, stamp: Stamp) -> bool
        ensures { IsTrue result ↔ IsRequestWith stamp self.now }
    {
        match read_header(self.bytes.as_slice()) {
            Ok(header) => self.to == Destination::Controller && header.transmit == stamp,
            Err(_) => false,
        }
    }
}

/// The member's request with this timestamp, if it is among the packets. The search begins at the last one: an accepted
/// reply answers a request that was sent after the last correction, so each packet is passed once by all of them
/// together.
pub(crate) fn find_request(packets: &[Packet], stamp: Stamp) -> Option<&Packet>
    ensures found { IfSome result (λ p. Contains packets.now p.now) }
    ensures is { IfSome result (λ p. IsRequestWith stamp p.now) }
    ensures none { IfNone result ((p : Packet) → Contains packets.now p → ¬ IsRequestWith stamp p) }
{
    for i in 0..packets.len() {
        let packet = &packets[packets.len() - 1 - i];
        if packet.is_request(stamp) {
            return Some(packet);
        }
    }
    None
}

/// Whether these bytes are one of the packets.
pub(crate) fn has_bytes(packets: &[Packet], bytes: &[u8]) -> bool
    ensures { IsTrue result ↔ ((p : Packet) × Contains packets.now p × (p.bytes ≡ bytes.now)) }
{
    for packet in packets {
        if packet.bytes.as_slice() == bytes {
            return true;
        }
    }
    false
}
