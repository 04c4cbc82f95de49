//! What a client makes of the PDU that answers it.
ghost use Rattle.std.specs.Prelude.{◌≡◌, ◌≢◌, ◌+◌, ◌≤◌, ◌<◌, Ok, Err, MatchResult, length};
ghost use Rattle.rpc_pdu.specs.Pdu.{PduFits};
ghost use Rattle.w32t_calls.specs.Replies.{accepted_by, and_if, bound_by, reply_to, stub_in, word_in};
ghost use Rattle.w32t_calls.specs.Stubs.{rounded_to_four};

use crate::CallFault;
use crate::places::{half_word_at, word_at};
use rpc_pdu::{BIND_ACK, BIND_NAK, FAULT, Pdu, PduFault, RESPONSE};

/// Where the secondary address stands in the body of a bind_ack.
const ADDRESS_AT: usize = 10;

/// Where the length of that address stands.
const ADDRESS_LEN_AT: usize = 8;

/// Bytes in a result of a bind_ack.
const RESULT_LEN: usize = 24;

/// Where the stub of a response and the status of a fault stand in the body.
const STUB_AT: usize = 8;

/// The PDU that answers the call with this identifier, by what came at this place.
pub(crate) fn reply_to(
    call_id: u32,
    place: u64,
    first: Result<Option<Pdu>, PduFault>,
) -> Result<Pdu, CallFault>
    ensures { result ≡ reply_to call_id place first }
{
    match first {
        Ok(Some(pdu)) => {
            if pdu.call_id == call_id {
                Ok(pdu)
            } else {
                Err(CallFault::BadReply(place))
            }
        }
        Ok(None) | Err(PduFault::Torn(_)) => Err(CallFault::Torn),
        Err(PduFault::ReadFault) => Err(CallFault::ReadFault),
        Err(_) => Err(CallFault::BadReply(place)),
    }
}

/// Whether the PDU at this place accepts the bind.
#[tactic(auto, unfolding(crate::specs::Replies::bound_by))]
pub(crate) fn bound_by(place: u64, pdu: &Pdu) -> Result<(), CallFault>
    ensures told { result ≡ bound_by place pdu.now }
    ensures no_read { result ≢ Err CallFault.ReadFault }
    ensures no_write { result ≢ Err CallFault.WriteFault }
{
    match pdu.kind {
        BIND_ACK => accepted_by(place, pdu.body.as_slice()),
        BIND_NAK => Err(CallFault::Nak),
        _ => Err(CallFault::BadReply(place)),
    }
}

/// Whether the body of a bind_ack accepts the one context.
#[tactic(auto, unfolding(crate::specs::Replies::accepted_by))]
fn accepted_by(place: u64, body: &[u8]) -> Result<(), CallFault>
    ensures told { result ≡ accepted_by place body.now }
    ensures no_read { result ≢ Err CallFault.ReadFault }
    ensures no_write { result ≢ Err CallFault.WriteFault }
{
    if body.len() < ADDRESS_AT {
        return Err(CallFault::BadReply(place));
    }
    let at = rounded_to_four(ADDRESS_AT + half_word_at(body, ADDRESS_LEN_AT) as usize);
    if body.len() < at + 4 {
        return Err(CallFault::BadReply(place));
    }
    let results = body[at] as usize;
    if body.len() < at + 4 + RESULT_LEN * results {
        return Err(CallFault::BadReply(place));
    }
    if results == 0 || half_word_at(body, at + 4) != 0 {
        return Err(CallFault::Rejected);
    }
    Ok(())
}

/// The number in the response at this place.
#[tactic(auto, unfolding(crate::specs::Replies::word_in))]
pub(crate) fn word_in(place: u64, pdu: &Pdu) -> Result<u32, CallFault>
    requires { PduFits pdu.now }
    ensures told { result ≡ and_if (stub_in place pdu.now) (word_in place) }
    ensures no_read { result ≢ Err CallFault.ReadFault }
    ensures no_write { result ≢ Err CallFault.WriteFault }
{
    let stub = stub_in(place, pdu)?;
    if stub.len() < 4 {
        return Err(CallFault::BadReply(place));
    }
    Ok(word_at(stub, 0))
}

/// The stub of the response at this place.
#[tactic(auto, unfolding(crate::specs::Replies::stub_in), using(crate::proofs::Fields::response_asks, crate::proofs::Fields::fault_asks))]
pub(crate) fn stub_in(place: u64, pdu: &Pdu) -> Result<&[u8], CallFault>
    requires { PduFits pdu.now }
    ensures told { MatchResult result (λ stub. stub_in place pdu.now ≡ Ok stub.now)
        (λ why. stub_in place pdu.now ≡ Err why) }
    ensures no_read { result ≢ Err CallFault.ReadFault }
    ensures no_write { result ≢ Err CallFault.WriteFault }
{
    let body = pdu.body.as_slice();
    match pdu.kind {
        RESPONSE => Ok(&body[STUB_AT..]),
        FAULT => Err(CallFault::Fault(word_at(body, STUB_AT))),
        _ => Err(CallFault::BadReply(place)),
    }
}

/// A place rounded up to a multiple of four.
pub(crate) fn rounded_to_four(place: usize) -> usize
    requires { place ≤ 100000 }
    ensures { result ≡ rounded_to_four place }
{
    (place + 3) / 4 * 4
}
