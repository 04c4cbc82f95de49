//! Reading PDUs one after the other.
ghost use Rattle.std.specs.Prelude.{◌≡◌, ◌≢◌, ◌+◌, ◌<◌, ◌^◌, ℕ, true, false, [], List};
ghost use Rattle.std.specs.Prelude.{Option, None, Ok, Err, IfOk, IfSome, is_ok, length};
ghost use Rattle.edge_traits.specs.Wire.{Entry};
ghost use Rattle.rpc_pdu.specs.declared.fault.PduFault.{PduFault};
ghost use Rattle.rpc_pdu.specs.Header.{header_flaw, header_of};
ghost use Rattle.rpc_pdu.specs.Pdu.{PduFits, pdu_len};
ghost use Rattle.rpc_pdu.specs.Reader.{NextCounts, Takes, as_next};

use crate::body::BODY_LEN;
use crate::fill::{Filled, fill};
use crate::header::{HEADER_LEN, Header, read_header};
use crate::{BodyBytes, Pdu, PduFault};
use edge_traits::Wire;
use std::marker::Model;

/// Reads the PDUs of a session, one after the other. It keeps the place and the last call identifier.
#[derive(Drop)]
pub struct PduReader {
    alive: bool,
    place: u64,
    last_call: Option<u32>,
}

impl Model for PduReader {
    ghost use Rattle.rpc_pdu.specs.Reader.{Reader};

    ghost Value = { Reader };

    ghost view = { λ r. record { alive = r.alive; place = r.place; last_call = r.last_call } };
}

impl PduReader {
    ghost use Rattle.rpc_pdu.specs.declared.pdu.Pdu.{Pdu};
    ghost use Rattle.rpc_pdu.specs.Pdu.{first_pdu};
    ghost use Rattle.rpc_pdu.specs.Fill.{OpensNone};
    ghost use Rattle.rpc_pdu.specs.Reader.{HasRead, IsFresh, Leaves, Nexts, ReadsOn, marked};

    /// A reader at the front of a session.
    pub fn new() -> PduReader
        ensures fresh { result ≡ record { alive = true; place = 0; last_call = None } }
        ensures read { (told : Option (List Entry)) → IsFresh told → HasRead [] result told }
    {
        PduReader {
            alive: true,
            place: 0,
            last_call: None,
        }
    }

    /// Whether the next PDU may be asked for: no call has answered a fault.
    pub fn alive(&self) -> bool
        ensures { result ≡ self.now.alive }
    {
        self.alive
    }

    /// Where the next PDU begins, in bytes from the front of the session.
    pub fn place(&self) -> u64
        ensures { result ≡ self.now.place }
    {
        self.place
    }

    /// The call identifier of the last header that was read whole, also where that header or its body is at fault.
    pub fn last_call(&self) -> Option<u32>
        ensures { result ≡ self.now.last_call }
    {
        self.last_call
    }

    /// The next PDU, or None exactly where the session ended between two PDUs, or none is open. No other session is
    /// opened, and nothing is written.
    ///
    /// The 16 bytes of the header are taken and judged, and then the rest of the PDU, no byte behind it. A fault other
    /// than `ReadFault` is the first of the list that applies; where it is one of the header, no byte behind the header
    /// is taken. `ReadFault` comes only where a read failed that was needed. After a fault the reader is dead, at the
    /// place of that PDU.
    pub fn next<W: Wire>(&mut self, wire: &mut W) -> Result<Option<Pdu>, PduFault>
        requires alive { self.old.alive ≡ true }
        requires place { self.old.place < 2 ^ 60 }
        ensures next { Nexts result self.old self.new
            (W.is_open wire.old) (W.told wire.old) (W.told wire.new) }
        ensures fits { IfOk result (λ next. IfSome next PduFits) }
        ensures lives { self.new.alive ≡ is_ok result }
        ensures cause { NextCounts result (W.faults wire.old) (W.faults wire.new) }
        ensures sessions { OpensNone (W.told wire.old) (W.told wire.new) }
        ensures no_session { W.is_open wire.old ≡ false → result ≡ Ok None }
        ensures open { W.is_open wire.new ≡ W.is_open wire.old }
        ensures writes { W.write_faults wire.new ≡ W.write_faults wire.old }

        // Where the wire tells the bytes left, they decide, unless a read fails.
        ensures told { (bytes : List ℕ) → Leaves (W.is_open wire.old) (W.told wire.old) bytes
            → result ≢ Err PduFault.ReadFault → result ≡ first_pdu self.old.place bytes }

        // A reader that has read these PDUs of the open session goes on from there.
        ensures run { (pdus : List Pdu) → W.is_open wire.old ≡ true
            → HasRead pdus self.old (W.told wire.old)
            → ReadsOn result pdus self.new (W.told wire.new) }
    {
        let next = self.advance(wire);
        self.alive = next.is_ok();
        next
    }

    /// Reads the next PDU, and moves behind it.
    fn advance<W: Wire>(&mut self, wire: &mut W) -> Result<Option<Pdu>, PduFault>
        requires alive { self.old.alive ≡ true }
        requires place { self.old.place < 2 ^ 60 }
        ensures next { Nexts result self.old (marked result self.new)
            (W.is_open wire.old) (W.told wire.old) (W.told wire.new) }
        ensures fits { IfOk result (λ next. IfSome next PduFits) }
        ensures alive { self.new.alive ≡ true }
        ensures cause { NextCounts result (W.faults wire.old) (W.faults wire.new) }
        ensures open { W.is_open wire.new ≡ W.is_open wire.old }
        ensures writes { W.write_faults wire.new ≡ W.write_faults wire.old }
    {
        let mut bytes = [0; HEADER_LEN];
        match fill(wire, &mut bytes) {
            Filled::Whole => {}
            Filled::End(0) => return Ok(None),
            Filled::End(_) => return Err(PduFault::Torn(self.place)),
            Filled::Failed => return Err(PduFault::ReadFault),
        }
        let header = read_header(&bytes);
        self.last_call = Some(header.call_id);
        if let Some(flaw) = header.flaw() {
            return Err(flaw.at(self.place));
        }
        let mut room = [0; BODY_LEN];
        let pdu = read_rest(header, self.place, &mut room, wire)?;
        self.place += u64::from(header.fragment_len);
        Ok(Some(pdu))
    }
}

/// Reads what stands behind the header of the PDU that begins at this place, by way of a buffer with room for each.
fn read_rest<W: Wire>(
    header: Header,
    place: u64,
    room: &mut [u8],
    wire: &mut W,
) -> Result<Pdu, PduFault>
    requires sound { header_flaw header ≡ None }
    requires room { length room.old ≡ 5824 }
    ensures rest { (head : List ℕ) → length head ≡ 16 → header_of head ≡ header
        → Takes (as_next result) place head
        (W.is_open wire.old) (W.told wire.old) (W.told wire.new) }
    ensures pdu { IfOk result (λ pdu. (pdu.call_id ≡ header.call_id)
        × (pdu_len pdu ≡ header.fragment_len)) }
    ensures fits { IfOk result PduFits }
    ensures cause { NextCounts (as_next result) (W.faults wire.old) (W.faults wire.new) }
    ensures open { W.is_open wire.new ≡ W.is_open wire.old }
    ensures writes { W.write_faults wire.new ≡ W.write_faults wire.old }
{
    let len = header.fragment_len as usize - HEADER_LEN;
    read_body(header, place, &mut room[..len], wire)
}

/// Reads the body of the PDU that begins at this place, by way of a buffer of its length.
fn read_body<W: Wire>(
    header: Header,
    place: u64,
    body: &mut [u8],
    wire: &mut W,
) -> Result<Pdu, PduFault>
    requires sound { header_flaw header ≡ None }
    requires room { length body.old + 16 ≡ header.fragment_len }
    ensures rest { (head : List ℕ) → length head ≡ 16 → header_of head ≡ header
        → Takes (as_next result) place head
        (W.is_open wire.old) (W.told wire.old) (W.told wire.new) }
    ensures pdu { IfOk result (λ pdu. (pdu.call_id ≡ header.call_id)
        × (pdu_len pdu ≡ header.fragment_len)) }
    ensures fits { IfOk result PduFits }
    ensures cause { NextCounts (as_next result) (W.faults wire.old) (W.faults wire.new) }
    ensures open { W.is_open wire.new ≡ W.is_open wire.old }
    ensures writes { W.write_faults wire.new ≡ W.write_faults wire.old }
{
    match fill(wire, body) {
        Filled::Whole => {}
        Filled::End(_) => return Err(PduFault::Torn(place)),
        Filled::Failed => return Err(PduFault::ReadFault),
    }
    if header.lacks(body) {
        return Err(PduFault::BadBody(place));
    }
    Ok(Pdu {
        kind: header.kind,
        flags: header.flags,
        call_id: header.call_id,
        body: BodyBytes::holding(body),
    })
}
