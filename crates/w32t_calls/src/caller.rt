//! The client's side of a session.
ghost use Rattle.std.specs.Prelude.{◌≡◌, ◌≢◌, ◌+◌, ◌<◌, ℕ, true, false, List, Option, None, Err, IfOk, is_ok};
ghost use Rattle.edge_traits.specs.Wire.{Entry};
ghost use Rattle.rpc_pdu.specs.declared.fault.PduFault.{PduFault};
ghost use Rattle.rpc_pdu.specs.declared.pdu.Pdu.{Pdu};
ghost use Rattle.rpc_pdu.specs.Fill.{OpensNone};
ghost use Rattle.rpc_pdu.specs.Pdu.{PduFits, first_pdu};
ghost use Rattle.rpc_pdu.specs.Reader.{Leaves};
ghost use Rattle.w32t_calls.specs.Asking.{bind_pdu, call_pdu};
ghost use Rattle.w32t_calls.specs.Calling.{Asks, CallCounts, MayCall};
ghost use Rattle.w32t_calls.specs.Replies.{SourceTold, bind_told, reply_to, word_told};

use crate::asking::{bind_pdu, call_pdu};
use crate::replies::{bound_by, reply_to, word_in};
use crate::source::source_in;
use crate::{Call, CallFault};
use edge_traits::{Put, Wire};
use partner_pick::NameText;
use rpc_pdu::{Pdu, PduReader, write_pdu};
use std::marker::Model;

/// The client's side of one session (C706, connection-oriented RPC). The first call is `bind`; after a call that answered an
/// error no other may follow, and at most 4,294,967,295 calls are made, the bind among them.
#[derive(Drop)]
pub struct Caller {
    reader: PduReader,
    calls: u32,
    bound: bool,
}

impl Model for Caller {
    ghost use Rattle.std.specs.Prelude.{◌≡◌, ◌*◌, ◌≤◌, true, None};
    ghost use Rattle.w32t_calls.specs.Calling.{Client};

    ghost Value = { Client };

    ghost view = { λ c. record { reader = c.reader; calls = c.calls; bound = c.bound } };

    ghost invariant = { λ c. (c.bound ≡ true → c.reader.alive ≡ true)
        × (c.calls ≡ 0 → c.reader.alive ≡ true)
        × (c.reader.place ≤ c.calls * 5840) };
}

impl Caller {
    /// A client of a session that was just opened.
    pub fn new() -> Caller
        ensures { result ≡ record { reader = record { alive = true; place = 0; last_call = None }; calls = 0; bound = false } }
    {
        Caller {
            reader: PduReader::new(),
            calls: 0,
            bound: false,
        }
    }

    /// Binds to the time service: offers one context, and takes the answer.
    ///
    /// `Nak`: a bind_nak came. `Rejected`: the context isn't accepted. `BadReply`: something else came. `Torn`: the stream ended
    /// before the reply was whole. `ReadFault` and `WriteFault`: a read or a write of the wire failed.
    pub fn bind<W: Wire>(&mut self, wire: &mut W) -> Result<(), CallFault>
        requires first { self.old.calls ≡ 0 }

        // The bind is written in one write, and one PDU is taken, which decides.
        ensures asks { Asks bind_pdu (W.is_open wire.old) (W.told wire.old) (W.told wire.new)
            self.old.reader self.new.reader
            (result ≡ Err CallFault.WriteFault) (λ first. result ≡ bind_told self.old.reader.place first) }

        // So the bytes left decide, unless the write or a read fails.
        ensures told { (bytes : List ℕ) → Leaves (W.is_open wire.old) (W.told wire.old) bytes
            → result ≢ Err CallFault.ReadFault → result ≢ Err CallFault.WriteFault
            → result ≡ bind_told self.old.reader.place (first_pdu self.old.reader.place bytes) }
        ensures calls { self.new.calls ≡ 1 }
        ensures bound { self.new.bound ≡ is_ok result }
        ensures cause { CallCounts result (W.faults wire.old) (W.faults wire.new)
            (W.write_faults wire.old) (W.write_faults wire.new) }
        ensures sessions { OpensNone (W.told wire.old) (W.told wire.new) }
        ensures open { W.is_open wire.new ≡ W.is_open wire.old }
    {
        let told = self.ask_to_bind(wire);
        self.bound = told.is_ok();
        told
    }

    /// Asks the computer to synchronize, and gives the result: 0 synchronized, or not waited for or not asked
    /// for; 1 no time data; 3 the change was too big.
    ///
    /// `Fault`: the call was answered by a fault. The other errors are those of `bind` without `Nak` and `Rejected`.
    pub fn sync<W: Wire>(&mut self, wire: &mut W, wait: u32, flags: u32) -> Result<u32, CallFault>
        requires may_call { MayCall self.old }
        ensures asks { Asks (call_pdu (self.old.calls + 1) (Call.Sync wait flags))
            (W.is_open wire.old) (W.told wire.old) (W.told wire.new) self.old.reader self.new.reader
            (result ≡ Err CallFault.WriteFault)
            (λ first. result ≡ word_told (self.old.calls + 1) self.old.reader.place first) }
        ensures told { (bytes : List ℕ) → Leaves (W.is_open wire.old) (W.told wire.old) bytes
            → result ≢ Err CallFault.ReadFault → result ≢ Err CallFault.WriteFault
            → result ≡ word_told (self.old.calls + 1) self.old.reader.place (first_pdu self.old.reader.place bytes) }
        ensures calls { self.new.calls ≡ self.old.calls + 1 }
        ensures bound { self.new.bound ≡ is_ok result }
        ensures cause { CallCounts result (W.faults wire.old) (W.faults wire.new)
            (W.write_faults wire.old) (W.write_faults wire.new) }
        ensures sessions { OpensNone (W.told wire.old) (W.told wire.new) }
        ensures open { W.is_open wire.new ≡ W.is_open wire.old }
    {
        let told = self.ask_for_word(wire, Call::Sync { wait, flags });
        self.bound = told.is_ok();
        told
    }

    /// Asks how the computer announces itself: bits as those of `service_bits`. The errors are those of `sync`.
    pub fn bits<W: Wire>(&mut self, wire: &mut W) -> Result<u32, CallFault>
        requires may_call { MayCall self.old }
        ensures asks { Asks (call_pdu (self.old.calls + 1) Call.Bits)
            (W.is_open wire.old) (W.told wire.old) (W.told wire.new) self.old.reader self.new.reader
            (result ≡ Err CallFault.WriteFault)
            (λ first. result ≡ word_told (self.old.calls + 1) self.old.reader.place first) }
        ensures told { (bytes : List ℕ) → Leaves (W.is_open wire.old) (W.told wire.old) bytes
            → result ≢ Err CallFault.ReadFault → result ≢ Err CallFault.WriteFault
            → result ≡ word_told (self.old.calls + 1) self.old.reader.place (first_pdu self.old.reader.place bytes) }
        ensures calls { self.new.calls ≡ self.old.calls + 1 }
        ensures bound { self.new.bound ≡ is_ok result }
        ensures cause { CallCounts result (W.faults wire.old) (W.faults wire.new)
            (W.write_faults wire.old) (W.write_faults wire.new) }
        ensures sessions { OpensNone (W.told wire.old) (W.told wire.new) }
        ensures open { W.is_open wire.new ≡ W.is_open wire.old }
    {
        let told = self.ask_for_word(wire, Call::Bits);
        self.bound = told.is_ok();
        told
    }

    /// Asks for the source of the computer's time. The errors are those of `sync`.
    pub fn source<W: Wire>(&mut self, wire: &mut W) -> Result<NameText, CallFault>
        requires may_call { MayCall self.old }
        ensures asks { Asks (call_pdu (self.old.calls + 1) Call.Source)
            (W.is_open wire.old) (W.told wire.old) (W.told wire.new) self.old.reader self.new.reader
            (result ≡ Err CallFault.WriteFault)
            (λ first. SourceTold (self.old.calls + 1) self.old.reader.place first result) }
        ensures told { (bytes : List ℕ) → Leaves (W.is_open wire.old) (W.told wire.old) bytes
            → result ≢ Err CallFault.ReadFault → result ≢ Err CallFault.WriteFault
            → SourceTold (self.old.calls + 1) self.old.reader.place (first_pdu self.old.reader.place bytes) result }
        ensures calls { self.new.calls ≡ self.old.calls + 1 }
        ensures bound { self.new.bound ≡ is_ok result }
        ensures cause { CallCounts result (W.faults wire.old) (W.faults wire.new)
            (W.write_faults wire.old) (W.write_faults wire.new) }
        ensures sessions { OpensNone (W.told wire.old) (W.told wire.new) }
        ensures open { W.is_open wire.new ≡ W.is_open wire.old }
    {
        let told = self.ask_for_source(wire);
        self.bound = told.is_ok();
        told
    }

    /// Offers the context, and takes the answer.
    fn ask_to_bind<W: Wire>(&mut self, wire: &mut W) -> Result<(), CallFault>
        requires first { self.old.calls ≡ 0 }
        ensures asks { Asks bind_pdu (W.is_open wire.old) (W.told wire.old) (W.told wire.new)
            self.old.reader self.new.reader
            (result ≡ Err CallFault.WriteFault) (λ first. result ≡ bind_told self.old.reader.place first) }
        ensures calls { self.new.calls ≡ 1 }
        ensures alive { IfOk result (λ done. self.new.reader.alive ≡ true) }
        ensures cause { CallCounts result (W.faults wire.old) (W.faults wire.new)
            (W.write_faults wire.old) (W.write_faults wire.new) }
        ensures sessions { OpensNone (W.told wire.old) (W.told wire.new) }
        ensures open { W.is_open wire.new ≡ W.is_open wire.old }
    {
        let place = self.reader.place();
        let pdu = self.ask(wire, &bind_pdu())?;
        bound_by(place, &pdu)
    }

    /// Makes a call that is answered by a number.
    fn ask_for_word<W: Wire>(&mut self, wire: &mut W, call: Call) -> Result<u32, CallFault>
        requires may_call { MayCall self.old }
        ensures asks { Asks (call_pdu (self.old.calls + 1) call)
            (W.is_open wire.old) (W.told wire.old) (W.told wire.new) self.old.reader self.new.reader
            (result ≡ Err CallFault.WriteFault)
            (λ first. result ≡ word_told (self.old.calls + 1) self.old.reader.place first) }
        ensures calls { self.new.calls ≡ self.old.calls + 1 }
        ensures alive { IfOk result (λ word. self.new.reader.alive ≡ true) }
        ensures cause { CallCounts result (W.faults wire.old) (W.faults wire.new)
            (W.write_faults wire.old) (W.write_faults wire.new) }
        ensures sessions { OpensNone (W.told wire.old) (W.told wire.new) }
        ensures open { W.is_open wire.new ≡ W.is_open wire.old }
    {
        let place = self.reader.place();
        let call_id = self.calls + 1;
        let pdu = self.ask(wire, &call_pdu(call_id, call))?;
        word_in(place, &pdu)
    }

    /// Makes the call that is answered by a name.
    fn ask_for_source<W: Wire>(&mut self, wire: &mut W) -> Result<NameText, CallFault>
        requires may_call { MayCall self.old }
        ensures asks { Asks (call_pdu (self.old.calls + 1) Call.Source)
            (W.is_open wire.old) (W.told wire.old) (W.told wire.new) self.old.reader self.new.reader
            (result ≡ Err CallFault.WriteFault)
            (λ first. SourceTold (self.old.calls + 1) self.old.reader.place first result) }
        ensures calls { self.new.calls ≡ self.old.calls + 1 }
        ensures alive { IfOk result (λ name. self.new.reader.alive ≡ true) }
        ensures cause { CallCounts result (W.faults wire.old) (W.faults wire.new)
            (W.write_faults wire.old) (W.write_faults wire.new) }
        ensures sessions { OpensNone (W.told wire.old) (W.told wire.new) }
        ensures open { W.is_open wire.new ≡ W.is_open wire.old }
    {
        let place = self.reader.place();
        let call_id = self.calls + 1;
        let pdu = self.ask(wire, &call_pdu(call_id, Call::Source))?;
        source_in(place, &pdu)
    }

    /// Counts a call, writes its PDU, and takes the PDU that answers it.
    fn ask<W: Wire>(&mut self, wire: &mut W, pdu: &Pdu) -> Result<Pdu, CallFault>
        requires alive { self.old.reader.alive ≡ true }
        requires left { self.old.calls + 1 < 4294967296 }
        ensures asks { Asks pdu.now (W.is_open wire.old) (W.told wire.old) (W.told wire.new)
            self.old.reader self.new.reader (result ≡ Err CallFault.WriteFault)
            (λ first. result ≡ reply_to pdu.now.call_id self.old.reader.place first) }
        ensures fits { IfOk result PduFits }
        ensures calls { self.new.calls ≡ self.old.calls + 1 }
        ensures alive { IfOk result (λ pdu. self.new.reader.alive ≡ true) }
        ensures cause { CallCounts result (W.faults wire.old) (W.faults wire.new)
            (W.write_faults wire.old) (W.write_faults wire.new) }
        ensures sessions { OpensNone (W.told wire.old) (W.told wire.new) }
        ensures open { W.is_open wire.new ≡ W.is_open wire.old }
    {
        self.bound = false;
        self.calls += 1;
        let place = self.reader.place();
        match write_pdu(pdu, wire) {
            Put::Done => {}
            Put::Failed => return Err(CallFault::WriteFault),
        }
        reply_to(pdu.call_id, place, self.reader.next(wire))
    }
}
