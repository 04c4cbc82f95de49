//! What a client writes.
ghost use Rattle.std.specs.Prelude.{◌≡◌};
ghost use Rattle.w32t_calls.specs.Asking.{bind_pdu, call_pdu};

use crate::Call;
use crate::pdus::{PDU_LEN, pdu_of};
use arrayvec::ArrayVec;
use byte_codec::{add, add_u16_low_first, add_u32_low_first};
use rpc_pdu::{BIND, INTERFACE, NDR, Pdu, REQUEST};

/// Bytes in the body of a bind with one context of one transfer syntax.
const BIND_LEN: usize = 56;

/// Bytes in the body of a request, at most.
const CALL_LEN: usize = 16;

/// The bind.
pub(crate) fn bind_pdu() -> Pdu
    ensures { result ≡ bind_pdu }
{
    let mut out: ArrayVec<u8, BIND_LEN> = ArrayVec::new();
    add_u16_low_first(&mut out, PDU_LEN);
    add_u16_low_first(&mut out, PDU_LEN);
    add_u32_low_first(&mut out, 0);
    add(&mut out, &[1, 0, 0, 0]);
    add_u16_low_first(&mut out, 0);
    add(&mut out, &[1, 0]);
    add(&mut out, &INTERFACE);
    add_u16_low_first(&mut out, 4);
    add_u16_low_first(&mut out, 1);
    add(&mut out, &NDR);
    pdu_of(BIND, 1, out.as_slice())
}

/// The request for a call with this identifier.
pub(crate) fn call_pdu(call_id: u32, call: Call) -> Pdu
    ensures { result ≡ call_pdu call_id call }
{
    let (number, stub_len) = match call {
        Call::Sync { .. } => (0, 8),
        Call::Bits => (1, 0),
        Call::Source => (3, 0),
    };
    let mut out: ArrayVec<u8, CALL_LEN> = ArrayVec::new();
    add_u32_low_first(&mut out, stub_len);
    add_u16_low_first(&mut out, 0);
    add_u16_low_first(&mut out, number);
    if let Call::Sync { wait, flags } = call {
        add_u32_low_first(&mut out, wait);
        add_u32_low_first(&mut out, flags);
    }
    pdu_of(REQUEST, call_id, out.as_slice())
}
