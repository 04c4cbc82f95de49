//! A PDU.

use crate::BodyBytes;

/// The type of a request (C706, 12.6.4).
pub const REQUEST: u8 = 0;

/// The type of a response.
pub const RESPONSE: u8 = 2;

/// The type of a fault.
pub const FAULT: u8 = 3;

/// The type of a bind.
pub const BIND: u8 = 11;

/// The type of a bind_ack.
pub const BIND_ACK: u8 = 12;

/// The type of a bind_nak.
pub const BIND_NAK: u8 = 13;

/// The flags of a PDU that is the first and the last fragment of its call.
pub const WHOLE: u8 = 0x03;

/// The flag of a request whose body has an object identifier.
pub const OBJECT: u8 = 0x80;

/// A PDU, without the fields of its header that say the same in each.
#[derive(Drop)]
pub struct Pdu {
    /// The type: 0 request, 2 response, 3 fault, 11 bind, 12 bind_ack, 13 bind_nak.
    pub kind: u8,
    /// 01 first fragment, 02 last fragment, 80 object identifier in a request.
    pub flags: u8,
    /// The number of the call, which its answer repeats.
    pub call_id: u32,
    /// The bytes behind the header.
    pub body: BodyBytes,
}
