//! The server's side of a session.
ghost use Rattle.std.specs.Prelude.{◌≡◌, ◌≢◌, ◌<◌, ◌≤◌, ◌+◌, ℕ, true, false, [], ◌∷◌, ◌++◌, List, Option, Some, None, Ok, Err, IfOk, is_ok};
ghost use Rattle.edge_traits.specs.Wire.{Entry};
ghost use Rattle.w32t_calls.specs.declared.call.Given.{Given};
ghost use Rattle.rpc_pdu.specs.Fill.{OpensNone};
ghost use Rattle.w32t_calls.specs.Standing.{ServeCounts};
ghost use Rattle.w32t_calls.specs.Steps.{EndsBy, Puts, WriteCounts, unanswered};
ghost use Rattle.w32t_calls.specs.Stubs.{AnswersCall};

use crate::accepted::Accepted;
use crate::answers::{protocol_fault, react, response};
use crate::asked::Asked;
use crate::reaction::Reaction;
use crate::{Call, Given, SessionEnd};
use edge_traits::{Put, Wire};
use rpc_pdu::{Pdu, PduFault, PduReader, write_pdu};
use std::marker::Model;

/// PDUs that are taken of a session, at most.
const PDUS: u32 = 10_000;

/// The server's side of one session (C706, connection-oriented RPC): it hands out the calls that the client asks for, and
/// takes their answers.
#[derive(Drop)]
pub struct Session {
    reader: PduReader,
    accepted: Accepted,
    pdus: u32,
    waiting: Option<Asked>,
    alive: bool,
}

impl Model for Session {
    ghost use Rattle.std.specs.Prelude.{◌≤◌, ◌*◌, ◌≡◌, true};
    ghost use Rattle.w32t_calls.specs.Standing.{Server};

    ghost Value = { Server };

    ghost view = { λ s. record {
      alive = s.alive;
      reader = s.reader;
      accepted = s.accepted;
      pdus = s.pdus;
      waiting = s.waiting;
    } };

    ghost invariant = { λ s. (s.alive ≡ true → s.reader.alive ≡ true)
        × (s.reader.place ≤ 5840 * s.pdus)
        × (s.pdus ≤ 10000) };
}

impl Session {
    ghost use Rattle.rpc_pdu.specs.declared.pdu.Pdu.{Pdu};
    ghost use Rattle.rpc_pdu.specs.Fill.{OpensNone};
    ghost use Rattle.rpc_pdu.specs.Pdu.{PduFits};
    ghost use Rattle.rpc_pdu.specs.Reader.{Leaves};
    ghost use Rattle.w32t_calls.specs.Answers.{reaction};
    ghost use Rattle.w32t_calls.specs.Standing.{Awaits, HasServed, IsIdle, IsNewSession, Replied, ReplyCounts, ServeCounts, ServesOn, goes_on};
    ghost use Rattle.w32t_calls.specs.Steps.{Reacts, StepKeeps, StepTells, StepsOn};

    /// The server's side of a session that was just opened.
    pub fn new() -> Session
        ensures idle { IsIdle result }
        ensures fresh { (told : Option (List Entry)) → IsNewSession told → HasServed [] result told }
    {
        Session {
            reader: PduReader::new(),
            accepted: Accepted::none(),
            pdus: 0,
            waiting: None,
            alive: true,
        }
    }

    /// Answers PDUs until one of them asks for a call, which is handed out and waits for its answer. No call may wait, and
    /// none may have answered an error.
    ///
    /// `Ended`: the stream ended between two PDUs, or no session is open. `BadPdu`: a PDU is outside the grammar, or of a type
    /// that no client sends; it was answered by a fault. `Torn`: the stream ended inside a PDU. `Spent`: 10,000 PDUs were
    /// taken. `ReadFault` and `WriteFault`: a read or a write of the wire failed.
    pub fn next<W: Wire>(&mut self, wire: &mut W) -> Result<Call, SessionEnd>
        requires idle { IsIdle self.old }

        // The bytes left decide, in whatever pieces they come, unless a read or a write fails.
        ensures told { (bytes : List ℕ) → Leaves (W.is_open wire.old) (W.told wire.old) bytes
            → result ≢ Err SessionEnd.ReadFault → result ≢ Err SessionEnd.WriteFault
            → result ≡ (goes_on self.old bytes []).end }

        // What was written to the session is what its bytes and the answers so far come to.
        ensures run { (answers : List Given) → W.is_open wire.old ≡ true
            → HasServed answers self.old (W.told wire.old)
            → ServesOn result answers self.new (W.told wire.old) (W.told wire.new) }

        // A call that is handed out waits for its answer, and after an error nothing more may be asked.
        ensures waits { IfOk result (λ call. (given : Given) → AnswersCall given call → Awaits given self.new) }
        ensures lives { self.new.alive ≡ is_ok result }

        // Before a call is handed out a PDU is taken, so that a session hands out 10,000 at most.
        ensures later { IfOk result (λ call. self.old.pdus < self.new.pdus) }
        ensures within { IfOk result (λ call. self.new.pdus ≤ 10000) }
        ensures no_session { W.is_open wire.old ≡ false → (result ≡ (goes_on self.old [] []).end)
            × (W.told wire.new ≡ W.told wire.old) }
        ensures cause { ServeCounts result (W.faults wire.old) (W.faults wire.new)
            (W.write_faults wire.old) (W.write_faults wire.new) }
        ensures sessions { OpensNone (W.told wire.old) (W.told wire.new) }
        ensures open { W.is_open wire.new ≡ W.is_open wire.old }
    {
        match self.serve(wire) {
            Ok(call) => Ok(call),
            Err(end) => {
                self.alive = false;
                Err(end)
            }
        }
    }

    /// Takes one PDU after the other, until a call is handed out or the session ends.
    fn serve<W: Wire>(&mut self, wire: &mut W) -> Result<Call, SessionEnd>
        requires idle { IsIdle self.old }
        ensures told { (bytes : List ℕ) → Leaves (W.is_open wire.old) (W.told wire.old) bytes
            → result ≢ Err SessionEnd.ReadFault → result ≢ Err SessionEnd.WriteFault
            → result ≡ (goes_on self.old bytes []).end }
        ensures run { (answers : List Given) → W.is_open wire.old ≡ true
            → HasServed answers self.old (W.told wire.old)
            → ServesOn result answers self.new (W.told wire.old) (W.told wire.new) }
        ensures waits { IfOk result (λ call. (given : Given) → AnswersCall given call → Awaits given self.new) }
        ensures lives { IfOk result (λ call. self.new.alive ≡ true) }
        ensures later { IfOk result (λ call. self.old.pdus < self.new.pdus) }
        ensures within { IfOk result (λ call. self.new.pdus ≤ 10000) }
        ensures no_session { W.is_open wire.old ≡ false → (result ≢ Err SessionEnd.ReadFault)
            × (result ≢ Err SessionEnd.WriteFault) × (W.told wire.new ≡ W.told wire.old) }
        ensures cause { ServeCounts result (W.faults wire.old) (W.faults wire.new)
            (W.write_faults wire.old) (W.write_faults wire.new) }
        ensures sessions { OpensNone (W.told wire.old) (W.told wire.new) }
        ensures open { W.is_open wire.new ≡ W.is_open wire.old }
    {
        while self.pdus < PDUS {
            if let Some(call) = self.step(wire)? {
                return Ok(call);
            }
        }
        Err(SessionEnd::Spent)
    }

    /// Takes one PDU. It is answered, or it asks for a call, or it ends the session.
    fn step<W: Wire>(&mut self, wire: &mut W) -> Result<Option<Call>, SessionEnd>
        requires idle { IsIdle self.old }
        requires more { self.old.pdus < 10000 }
        ensures told { (bytes : List ℕ) → Leaves (W.is_open wire.old) (W.told wire.old) bytes
            → result ≢ Err SessionEnd.ReadFault → result ≢ Err SessionEnd.WriteFault
            → StepTells result self.old bytes self.new (W.is_open wire.new) (W.told wire.new) }
        ensures run { (answers : List Given) → W.is_open wire.old ≡ true
            → HasServed answers self.old (W.told wire.old)
            → StepsOn result answers self.new (W.told wire.old) (W.told wire.new) }
        ensures keeps { StepKeeps result self.old self.new }
        ensures counts { IfOk result (λ found. self.new.pdus ≡ self.old.pdus + 1) }
        ensures no_session { W.is_open wire.old ≡ false → (result ≢ Err SessionEnd.ReadFault)
            × (result ≢ Err SessionEnd.WriteFault) × (W.told wire.new ≡ W.told wire.old) }
        ensures cause { ServeCounts result (W.faults wire.old) (W.faults wire.new)
            (W.write_faults wire.old) (W.write_faults wire.new) }
        ensures sessions { OpensNone (W.told wire.old) (W.told wire.new) }
        ensures open { W.is_open wire.new ≡ W.is_open wire.old }
    {
        match self.reader.next(wire) {
            Ok(Some(pdu)) => {
                self.pdus += 1;
                self.take(&pdu, wire)
            }
            Ok(None) => Err(SessionEnd::Ended),
            Err(fault) => {
                // The reader is dead, and so is the session.
                self.alive = false;
                let call_id = self.reader.last_call().unwrap_or(0);
                refuse(fault, call_id, wire)
            }
        }
    }

    /// Does what a PDU leads to.
    fn take<W: Wire>(&mut self, pdu: &Pdu, wire: &mut W) -> Result<Option<Call>, SessionEnd>
        requires fits { PduFits pdu.now }
        ensures reacts { Reacts (reaction self.old.accepted pdu.now) result self.old self.new
            (W.is_open wire.old) (W.told wire.old) (W.told wire.new) }
        ensures cause { ServeCounts result (W.faults wire.old) (W.faults wire.new)
            (W.write_faults wire.old) (W.write_faults wire.new) }
        ensures sessions { OpensNone (W.told wire.old) (W.told wire.new) }
        ensures open { W.is_open wire.new ≡ W.is_open wire.old }
    {
        match react(pdu, &self.accepted) {
            Reaction::Answers(answer) => put(&answer, Ok(None), wire),
            Reaction::Binds(answer, accepted) => {
                self.accepted = accepted;
                put(&answer, Ok(None), wire)
            }
            Reaction::Calls(asked) => {
                self.waiting = Some(asked);
                Ok(Some(asked.call))
            }
            Reaction::Ends(answer) => put(&answer, Err(SessionEnd::BadPdu), wire),
        }
    }

    /// Writes the response to the call that waits, in one write; then no call waits. The answer has to be of the call's
    /// kind. The error is `WriteFault`.
    pub fn reply<W: Wire>(&mut self, wire: &mut W, given: &Given) -> Result<(), SessionEnd>
        requires waits { Awaits given.now self.old }
        ensures run { (answers : List Given) → W.is_open wire.old ≡ true
            → HasServed answers self.old (W.told wire.old)
            → Replied result (answers ++ given.now ∷ []) self.new (W.told wire.old) (W.told wire.new) }
        ensures idle { IfOk result (λ done. IsIdle self.new) }
        ensures lives { self.new.alive ≡ is_ok result }
        ensures same_pdus { self.new.pdus ≡ self.old.pdus }
        ensures cause { ReplyCounts result (W.write_faults wire.old) (W.write_faults wire.new) }
        ensures no_session { W.is_open wire.old ≡ false → (result ≡ Err SessionEnd.WriteFault)
            × (W.told wire.new ≡ W.told wire.old) }
        ensures reads { W.faults wire.new ≡ W.faults wire.old }
        ensures sessions { OpensNone (W.told wire.old) (W.told wire.new) }
        ensures open { W.is_open wire.new ≡ W.is_open wire.old }
    {
        let Some(asked) = self.waiting else {
            unreachable!();
        };
        self.waiting = None;
        match write_pdu(&response(&asked, given), wire) {
            Put::Done => Ok(()),
            Put::Failed => {
                self.alive = false;
                Err(SessionEnd::WriteFault)
            }
        }
    }
}

/// Writes a PDU, and answers what is given then.
fn put<W: Wire>(
    pdu: &Pdu,
    done: Result<Option<Call>, SessionEnd>,
    wire: &mut W,
) -> Result<Option<Call>, SessionEnd>
    requires done { (done ≢ Err SessionEnd.ReadFault) × (done ≢ Err SessionEnd.WriteFault) }
    ensures puts { Puts pdu.now done result (W.is_open wire.old) (W.told wire.old) (W.told wire.new) }
    ensures cause { ServeCounts result (W.faults wire.old) (W.faults wire.new)
        (W.write_faults wire.old) (W.write_faults wire.new) }
    ensures reads { W.faults wire.new ≡ W.faults wire.old }
    ensures sessions { OpensNone (W.told wire.old) (W.told wire.new) }
    ensures open { W.is_open wire.new ≡ W.is_open wire.old }
{
    match write_pdu(pdu, wire) {
        Put::Done => done,
        Put::Failed => Err(SessionEnd::WriteFault),
    }
}

/// Ends a session by a fault of its bytes, which is answered unless they are torn or a read failed.
fn refuse<W: Wire>(fault: PduFault, call_id: u32, wire: &mut W) -> Result<Option<Call>, SessionEnd>
    ensures ends { EndsBy (unanswered fault) call_id result (W.is_open wire.old) (W.told wire.old) (W.told wire.new) }
    ensures reads { W.faults wire.new ≡ W.faults wire.old }
    ensures cause { WriteCounts result (W.write_faults wire.old) (W.write_faults wire.new) }
    ensures sessions { OpensNone (W.told wire.old) (W.told wire.new) }
    ensures open { W.is_open wire.new ≡ W.is_open wire.old }
{
    match fault {
        PduFault::Torn(_) => Err(SessionEnd::Torn),
        PduFault::ReadFault => Err(SessionEnd::ReadFault),
        _ => put(&protocol_fault(call_id), Err(SessionEnd::BadPdu), wire),
    }
}
