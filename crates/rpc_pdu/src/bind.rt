//! What a bind offers.
ghost use Rattle.std.specs.Prelude.{◌≡◌, ◌*◌, ◌<◌, ◌≤◌, ◌↔◌, IfSome, IsSome, IsTrue, Some, length, slice_get, drop};
ghost use Rattle.rpc_pdu.specs.Bind.{AreContexts, HasNdr, IsBind, IsContext};
ghost use Rattle.rpc_pdu.specs.Bind.{bind_need, context_at, context_len, interface_bytes};
ghost use Rattle.rpc_pdu.specs.Header.{bind_kind};
ghost use Rattle.rpc_pdu.specs.Pdu.{PduFits};

use crate::Pdu;
use arrayvec::ArrayVec;
use byte_codec::{read_array, read_u16_low_first, read_u32_low_first};
use std::marker::Model;

/// Contexts that are kept of a bind, at most.
const CONTEXTS: usize = 8;

/// Bytes before the contexts of a bind.
const BIND_LEN: usize = 12;

/// Bytes in a context without its transfer syntaxes.
const CONTEXT_LEN: usize = 24;

/// Bytes in a transfer syntax: an identifier of 16, and a version of 4.
const SYNTAX_LEN: usize = 20;

/// The interface of the time service, 8fb6d884-2388-11d0-8c35-00c04fda2795 (MS-W32T), as it is written.
pub const INTERFACE: [u8; 16] = [
    0x84, 0xD8, 0xB6, 0x8F, 0x88, 0x23, 0xD0, 0x11, 0x8C, 0x35, 0x00, 0xC0, 0x4F, 0xDA, 0x27, 0x95,
];

/// The transfer syntax NDR, 8a885d04-1ceb-11c9-9fe8-08002b104860 version 2 (C706, 14), as it is written.
pub const NDR: [u8; 20] = [
    0x04, 0x5D, 0x88, 0x8A, 0xEB, 0x1C, 0xC9, 0x11, 0x9F, 0xE8, 0x08, 0x00, 0x2B, 0x10, 0x48, 0x60,
    0x02, 0x00, 0x00, 0x00,
];

/// A context that a bind offers (C706, 12.6.3.1).
#[derive(Clone, Copy, Debug, Default, PartialEq, Eq)]
pub struct Context {
    /// The number by which requests name it.
    pub id: u16,
    /// Whether it is for the interface of the time service, version 4.0 or 4.1.
    pub known: bool,
    /// Whether NDR version 2 is among its transfer syntaxes.
    pub ndr: bool,
}

/// The first 8 contexts of a bind, at most.
#[derive(Drop)]
pub struct ContextList {
    contexts: ArrayVec<Context, CONTEXTS>,
}

impl Model for ContextList {
    ghost use Rattle.std.specs.Prelude.{List, ◌≤◌, length};
    ghost use Rattle.rpc_pdu.specs.declared.bind.Context.{Context};

    ghost Value = { List Context };

    ghost view = { λ l. l.contexts.items };

    ghost invariant = { λ l. length l.contexts.items ≤ 8 };
}

impl ContextList {
    /// How many there are.
    pub fn len(&self) -> usize
        ensures count { result ≡ length self.now }
        ensures within { result ≤ 8 }
    {
        self.contexts.len()
    }

    /// The context of a place, counted from 0.
    pub fn at(&self, i: usize) -> &Context
        requires { i < length self.now }
        ensures { slice_get self.now i ≡ Some result.now }
    {
        &self.contexts[i]
    }
}

/// What a bind says (C706, 12.6.4.3).
#[derive(Drop)]
pub struct Bind {
    /// Bytes in a PDU, at most, that the peer will send.
    pub max_xmit: u16,
    /// Bytes in a PDU, at most, that the peer can take.
    pub max_recv: u16,
    /// The group of sessions, 0 for a new one.
    pub group: u32,
    /// How many contexts are offered.
    pub offered: u8,
    /// The first 8 of them.
    pub contexts: ContextList,
}

/// What a bind says. The PDU has to be a bind, as a reader gives it.
pub fn read_bind(pdu: &Pdu) -> Bind
    requires kind { pdu.now.kind ≡ bind_kind }
    requires fits { PduFits pdu.now }
    ensures { IsBind result pdu.now.body }
{
    bind_of(pdu.body.as_slice())
}

/// What the body of a bind says, which has all of its contexts.
fn bind_of(body: &[u8]) -> Bind
    requires { bind_need body.now ≤ length body.now }
    ensures { IsBind result body.now }
{
    let (max_xmit, rest) = read_u16_low_first(body);
    let (max_recv, rest) = read_u16_low_first(rest);
    let (group, rest) = read_u32_low_first(rest);
    let (fixed, rest) = read_array::<4>(rest);
    let offered = fixed[0];
    Bind {
        max_xmit,
        max_recv,
        group,
        offered,
        contexts: first_contexts(offered, rest),
    }
}

/// The first 8 of the contexts with which the bytes begin, at most.
fn first_contexts(offered: u8, bytes: &[u8]) -> ContextList
    requires { context_at offered bytes.now ≤ length bytes.now }
    ensures { AreContexts offered result bytes.now }
{
    let mut contexts = ArrayVec::new();
    let mut rest = bytes;
    for _ in 0..offered.min(CONTEXTS as u8) {
        let (context, behind) = read_context(rest);
        contexts.push(context);
        rest = behind;
    }
    ContextList { contexts }
}

/// The context with which the bytes begin, and what stands behind it.
fn read_context(bytes: &[u8]) -> (Context, &[u8])
    requires { context_len bytes.now ≤ length bytes.now }
    ensures context { IsContext result.0 bytes.now }
    ensures rest { result.1.now ≡ drop (context_len bytes.now) bytes.now }
{
    let (id, rest) = read_u16_low_first(bytes);
    let (counts, rest) = read_array::<2>(rest);
    let count = counts[0];
    let (interface, rest) = read_array(rest);
    let (major, rest) = read_u16_low_first(rest);
    let (minor, rest) = read_u16_low_first(rest);
    let (_, behind) = rest.split_at(count as usize * SYNTAX_LEN);
    let context = Context {
        id,
        known: is_known(interface, major, minor),
        ndr: has_ndr(count, rest),
    };
    (context, behind)
}

/// Whether this is the interface of the time service, version 4.0 or 4.1.
fn is_known(interface: [u8; 16], major: u16, minor: u16) -> bool
    ensures { IsTrue result ↔ ((interface ≡ interface_bytes) × (major ≡ 4) × (minor ≤ 1)) }
{
    interface == INTERFACE && major == 4 && minor <= 1
}

/// Whether NDR is among this many transfer syntaxes.
fn has_ndr(count: u8, syntaxes: &[u8]) -> bool
    requires { 20 * count ≤ length syntaxes.now }
    ensures { IsTrue result ↔ HasNdr count syntaxes.now }
{
    let mut rest = syntaxes;
    for _ in 0..count {
        let (syntax, behind) = read_array(rest);
        if syntax == NDR {
            return true;
        }
        rest = behind;
    }
    false
}

/// Whether the body of a bind has all of its contexts.
pub(crate) fn contexts_fit(body: &[u8]) -> bool
    ensures { IsTrue result ↔ (bind_need body.now ≤ length body.now) }
{
    if body.len() < BIND_LEN {
        return false;
    }
    let (fixed, contexts) = body.split_at(BIND_LEN);
    let mut rest = contexts;
    for _ in 0..fixed[8] {
        let Some(behind) = behind_context(rest) else {
            return false;
        };
        rest = behind;
    }
    true
}

/// What stands behind the context with which the bytes begin, where it is whole.
fn behind_context(bytes: &[u8]) -> Option<&[u8]>
    ensures found { IfSome result (λ rest. rest.now ≡ drop (context_len bytes.now) bytes.now) }
    ensures whole { IsSome result ↔ (context_len bytes.now ≤ length bytes.now) }
{
    if bytes.len() < CONTEXT_LEN {
        return None;
    }
    let len = CONTEXT_LEN + bytes[2] as usize * SYNTAX_LEN;
    if bytes.len() < len {
        return None;
    }
    Some(&bytes[len..])
}
