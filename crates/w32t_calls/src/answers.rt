//! What the server's side answers to a PDU.
ghost use Rattle.std.specs.Prelude.{◌≡◌, ◌≤◌, ◌+◌, ◌*◌, ◌++◌, flat_map, length};
ghost use Rattle.arrayvec.specs.ArrayVec.{array_vec_len};
ghost use Rattle.byte_codec.specs.Numbers.{low_half_word_bytes};
ghost use Rattle.rpc_pdu.specs.Header.{bind_ack_kind, bind_kind, bind_nak_kind, request_kind};
ghost use Rattle.rpc_pdu.specs.Pdu.{PduFits};
ghost use Rattle.w32t_calls.specs.Answers.{ack_body, answer_pdu, context_asked, fault_pdu, is_operation, nak_body, operation_asked};
ghost use Rattle.w32t_calls.specs.Answers.{protocol_error, reaction, reaction_to_bind, reaction_to_request, response_to, result_bytes, stub_asked, stub_place};

use crate::Given;
use crate::accepted::Accepted;
use crate::asked::Asked;
use crate::pdus::{PDU_LEN, pdu_of};
use crate::places::half_word_at;
use crate::reaction::Reaction;
use crate::stubs::{BITS, SOURCE, STUB_LEN, SYNC, SYNC_LEN, call_for, stub_of};
use arrayvec::ArrayVec;
use byte_codec::{add, add_u16_low_first, add_u32_low_first};
use rpc_pdu::{
    BIND, BIND_ACK, BIND_NAK, Bind, Context, ContextList, FAULT, NDR, OBJECT, Pdu, REQUEST,
    RESPONSE, read_bind,
};

/// Contexts that a bind may offer.
const OFFERED: u8 = 8;

/// Bytes in the body of a bind_ack, at most: 16, and 24 for each result.
const ACK_LEN: usize = 208;

/// Bytes in the body of a fault.
const FAULT_LEN: usize = 16;

/// Bytes in the body of a response, at most.
const RESPONSE_LEN: usize = 8 + STUB_LEN;

/// Bytes of a request before its stub, without an object identifier.
const REQUEST_LEN: usize = 8;

/// Bytes of a request before its stub, with an object identifier.
const OBJECT_LEN: usize = 24;

/// No transfer syntax.
const NO_SYNTAX: [u8; 20] = [0; 20];

/// The status of a fault: the operation is out of range (nca_s_op_rng_error).
const UNKNOWN_OPERATION: u32 = 0x1C01_0002;

/// The status of a fault: the context isn't accepted (nca_s_unk_if).
const UNKNOWN_CONTEXT: u32 = 0x1C01_0003;

/// The status of a fault: the PDU or its stub is wrong (nca_s_proto_error).
const PROTOCOL_ERROR: u32 = 0x1C01_000B;

/// What a PDU leads to, with these contexts accepted. It is one that a reader gave.
#[tactic(auto, unfolding(crate::specs::Answers::reaction))]
pub(crate) fn react(pdu: &Pdu, accepted: &Accepted) -> Reaction
    requires fits { PduFits pdu.now }
    ensures { result ≡ reaction accepted.now pdu.now }
{
    match pdu.kind {
        BIND => react_to_bind(pdu),
        REQUEST => react_to_request(pdu, accepted),
        _ => Reaction::Ends(protocol_fault(pdu.call_id)),
    }
}

/// What a bind leads to.
fn react_to_bind(pdu: &Pdu) -> Reaction
    requires kind { pdu.now.kind ≡ bind_kind }
    requires fits { PduFits pdu.now }
    ensures { result ≡ reaction_to_bind pdu.now }
{
    let bind = read_bind(pdu);
    if bind.offered > OFFERED {
        return Reaction::Answers(bind_nak(pdu.call_id));
    }
    let accepted = Accepted::of(&bind.contexts);
    Reaction::Binds(bind_ack(pdu.call_id, &bind), accepted)
}

/// What a request leads to: it is refused for the first reason that applies, or it is a call.
#[tactic(auto, unfolding(crate::specs::Answers::reaction_to_request))]
fn react_to_request(pdu: &Pdu, accepted: &Accepted) -> Reaction
    requires kind { pdu.now.kind ≡ request_kind }
    requires fits { PduFits pdu.now }
    ensures { result ≡ reaction_to_request accepted.now pdu.now }
{
    let (context, operation, stub) = request_of(pdu);
    if !accepted.has(context) {
        return Reaction::Answers(fault(pdu.call_id, context, UNKNOWN_CONTEXT));
    }
    if !is_known(operation) {
        return Reaction::Answers(fault(pdu.call_id, context, UNKNOWN_OPERATION));
    }
    if operation == SYNC && stub.len() < SYNC_LEN {
        return Reaction::Answers(fault(pdu.call_id, context, PROTOCOL_ERROR));
    }
    Reaction::Calls(Asked {
        call: call_for(operation, stub),
        call_id: pdu.call_id,
        context,
    })
}

/// The context, the operation and the stub of a request.
fn request_of(pdu: &Pdu) -> (u16, u16, &[u8])
    requires kind { pdu.now.kind ≡ request_kind }
    requires fits { PduFits pdu.now }
    ensures context { result.0 ≡ context_asked pdu.now }
    ensures operation { result.1 ≡ operation_asked pdu.now }
    ensures stub { result.2.now ≡ stub_asked pdu.now }
{
    let body = pdu.body.as_slice();
    let (_, stub) = body.split_at(stub_place(pdu.flags));
    (half_word_at(body, 4), half_word_at(body, 6), stub)
}

/// Where the stub of a request with these flags begins in its body.
fn stub_place(flags: u8) -> usize
    ensures { result ≡ stub_place flags }
{
    if flags & OBJECT != 0 {
        OBJECT_LEN
    } else {
        REQUEST_LEN
    }
}

/// Whether this operation is known.
fn is_known(operation: u16) -> bool
    ensures { result ≡ is_operation operation }
{
    matches!(operation, SYNC | BITS | SOURCE)
}

/// The bind_nak: too many contexts are offered, and version 5.0 is spoken.
fn bind_nak(call_id: u32) -> Pdu
    ensures { result ≡ answer_pdu bind_nak_kind call_id nak_body }
{
    let mut body: ArrayVec<u8, 5> = ArrayVec::new();
    add_u16_low_first(&mut body, 2);
    add(&mut body, &[1, 5, 0]);
    pdu_of(BIND_NAK, call_id, body.as_slice())
}

/// The bind_ack, with a result for each context.
fn bind_ack(call_id: u32, bind: &Bind) -> Pdu
    requires { length bind.now.contexts ≤ 8 }
    ensures { result ≡ answer_pdu bind_ack_kind call_id (ack_body bind.now.group bind.now.contexts) }
{
    let mut body: ArrayVec<u8, ACK_LEN> = ArrayVec::new();
    add_u16_low_first(&mut body, PDU_LEN);
    add_u16_low_first(&mut body, PDU_LEN);
    add_u32_low_first(&mut body, if bind.group == 0 { 1 } else { bind.group });
    add_u16_low_first(&mut body, 0);
    add(&mut body, &[0, 0, bind.contexts.len() as u8, 0, 0, 0]);
    add_results(&mut body, &bind.contexts);
    pdu_of(BIND_ACK, call_id, body.as_slice())
}

/// Adds a result for each context.
fn add_results(body: &mut ArrayVec<u8, ACK_LEN>, contexts: &ContextList)
    requires { array_vec_len body.old + 24 * length contexts.now ≤ 208 }
    ensures items { body.new.items ≡ body.old.items ++ flat_map result_bytes contexts.now }
    ensures within { array_vec_len body.new ≤ 208 }
{
    for i in 0..contexts.len() {
        add_result(body, contexts.at(i));
    }
}

/// Adds the result of a context.
fn add_result(body: &mut ArrayVec<u8, ACK_LEN>, context: &Context)
    requires { array_vec_len body.old + 24 ≤ 208 }
    ensures items { body.new.items ≡ body.old.items ++ result_bytes context.now }
    ensures length { array_vec_len body.new ≡ array_vec_len body.old + 24 }
{
    let (result, reason, syntax) = result_of(context);
    add_u16_low_first(body, result);
    add_u16_low_first(body, reason);
    add(body, &syntax);
}

/// The result of a context, its reason and its transfer syntax.
fn result_of(context: &Context) -> (u16, u16, [u8; 20])
    ensures { result_bytes context.now ≡ low_half_word_bytes result.0 ++ low_half_word_bytes result.1 ++ result.2 }
{
    if !context.known {
        return (2, 1, NO_SYNTAX);
    }
    if !context.ndr {
        return (2, 2, NO_SYNTAX);
    }
    (0, 0, NDR)
}

/// The fault that answers a PDU that no client sends, or that isn't in order.
pub(crate) fn protocol_fault(call_id: u32) -> Pdu
    ensures { result ≡ fault_pdu call_id 0 protocol_error }
{
    fault(call_id, 0, PROTOCOL_ERROR)
}

/// A fault in a context.
fn fault(call_id: u32, context: u16, status: u32) -> Pdu
    ensures { result ≡ fault_pdu call_id context status }
{
    let mut body: ArrayVec<u8, FAULT_LEN> = ArrayVec::new();
    add_u32_low_first(&mut body, 0);
    add_u16_low_first(&mut body, context);
    add(&mut body, &[0; 2]);
    add_u32_low_first(&mut body, status);
    add_u32_low_first(&mut body, 0);
    pdu_of(FAULT, call_id, body.as_slice())
}

/// The response to a call.
pub(crate) fn response(asked: &Asked, given: &Given) -> Pdu
    ensures { result ≡ response_to asked.now given.now }
{
    let stub = stub_of(given);
    let mut body: ArrayVec<u8, RESPONSE_LEN> = ArrayVec::new();
    add_u32_low_first(&mut body, stub.len() as u32);
    add_u16_low_first(&mut body, asked.context);
    add(&mut body, &[0; 2]);
    add(&mut body, stub.as_slice());
    pdu_of(RESPONSE, asked.call_id, body.as_slice())
}
