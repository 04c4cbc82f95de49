//! PDUs as either side writes them.
ghost use Rattle.std.specs.Prelude.{◌≡◌, ◌≤◌, length};
ghost use Rattle.w32t_calls.specs.Answers.{answer_pdu};

use rpc_pdu::{BodyBytes, Pdu, WHOLE};

/// Bytes in a PDU, at most, that either side sends and takes.
pub(crate) const PDU_LEN: u16 = 5_840;

/// A PDU with this body, whole in one fragment.
pub(crate) fn pdu_of(kind: u8, call_id: u32, body: &[u8]) -> Pdu
    requires { length body.now ≤ 5824 }
    ensures { result ≡ answer_pdu kind call_id body.now }
{
    match BodyBytes::from_slice(body) {
        Some(body) => Pdu {
            kind,
            flags: WHOLE,
            call_id,
            body,
        },
        None => unreachable!(),
    }
}
