//! Writing PDUs.
ghost use Rattle.std.specs.Prelude.{◌≡◌, ◌<◌, false};
ghost use Rattle.arrayvec.specs.ArrayVec.{array_vec_len};
ghost use Rattle.edge_traits.specs.declared.sink.Put.{Put};
ghost use Rattle.edge_traits.specs.Sink.{PutCounts};
ghost use Rattle.edge_traits.specs.Wire.{WireWrites};
ghost use Rattle.rpc_pdu.specs.Fill.{OpensNone};
ghost use Rattle.rpc_pdu.specs.Pdu.{pdu_bytes};

use crate::Pdu;
use crate::header::{HEADER_LEN, LOW_FIRST, MINOR, PDU_LEN, VERSION};
use arrayvec::ArrayVec;
use byte_codec::{add, add_u16_low_first, add_u32_low_first};
use edge_traits::{Put, Wire};

/// Writes a PDU to the open session, in one write. It fails where no session is open.
///
/// Where the write fails, a front of the PDU may have been written.
pub fn write_pdu<W: Wire>(pdu: &Pdu, wire: &mut W) -> Put
    ensures bytes { WireWrites result (W.is_open wire.old) (pdu_bytes pdu.now)
        (W.told wire.old) (W.told wire.new) }
    ensures sessions { OpensNone (W.told wire.old) (W.told wire.new) }
    ensures no_session { W.is_open wire.old ≡ false → result ≡ Put.Failed }
    ensures open { W.is_open wire.new ≡ W.is_open wire.old }
    ensures cause { PutCounts result (W.write_faults wire.old) (W.write_faults wire.new) }
    ensures reads { W.faults wire.new ≡ W.faults wire.old }
{
    let bytes = bytes_of(pdu);
    wire.write(bytes.as_slice())
}

/// The bytes of a PDU.
#[tactic(auto, unfolding(crate::specs::Pdu::pdu_bytes))]
fn bytes_of(pdu: &Pdu) -> ArrayVec<u8, PDU_LEN>
    ensures bytes { result.items ≡ pdu_bytes pdu.now }
    ensures begun { 0 < array_vec_len result }
{
    let body = pdu.body.as_slice();
    let mut out = ArrayVec::new();
    add(
        &mut out,
        &[VERSION, MINOR, pdu.kind, pdu.flags, LOW_FIRST << 4, 0, 0, 0],
    );
    add_u16_low_first(&mut out, (HEADER_LEN + body.len()) as u16);
    add_u16_low_first(&mut out, 0);
    add_u32_low_first(&mut out, pdu.call_id);
    add(&mut out, body);
    out
}
