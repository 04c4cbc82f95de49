//! How an operation is carried out.
ghost use Rattle.std.specs.Prelude.{◌≡◌, ◌∷◌, List, IfOk, OnOk, OnErr};
ghost use Rattle.sntp_world.specs.declared.due.Due.TheVariants as due;
ghost use Rattle.sntp_world.specs.declared.op.Op.{Op};
ghost use Rattle.sntp_world.specs.Accuracy.{KeepsBounds};
ghost use Rattle.sntp_world.specs.State.{State};
ghost use Rattle.sntp_world.specs.Steps.{Leads, StayNear};
ghost use Rattle.sntp_world.specs.Standing.{Keeps, StandsForOps};
ghost use Rattle.sntp_world.specs.Due.{Does, IsDueBy, reply_of};

use crate::correction::least_with;
use crate::due::Due;
use crate::packet::{Destination, Packet};
use crate::setting::ACCOUNT;
use crate::{Effect, NoMemory, Op, World};
use capture_fmt::Event;
use dc_sign::{Answer, ServerInfo, answer};
use edge_traits::Datagram;
use sntp_core::Outcome;

impl World {
    /// Carries an operation out, unless it may not be, and answers what came of it. After NoMemory the world is as it
    /// was.
    pub fn step(&mut self, op: &Op) -> Result<Effect, NoMemory>
        // What it does to each state that the world may keep.
        ensures leads { (before : State) → Keeps self.old before → IfOk result (λ effect.
            (after : State) × Leads op.now before effect after × Keeps self.new after) }

        // It is the world after one more operation.
        ensures stands { (ops : List Op) → StandsForOps self.old ops
            → OnOk result (StandsForOps self.new (op.now ∷ ops)) }

        // Where the clocks stayed within 68 years of each other until now, each correction is within its bound.
        ensures accurate { (ops : List Op) → StandsForOps self.old ops → StayNear ops
            → OnOk result (KeepsBounds (op.now ∷ ops) self.new) }
        ensures unchanged { OnErr result (self.new ≡ self.old) }
    {
        let due = self.due(op);
        self.carry_out(due)
    }

    /// Does what is due by this world.
    pub(crate) fn carry_out(&mut self, due: Due) -> Result<Effect, NoMemory>
        requires { IsDueBy self.old due }
        ensures done { IfOk result (λ effect. Does self.old due effect self.new) }
        ensures unchanged { OnErr result (self.new ≡ self.old) }
    {
        match due {
            Due::Nothing => Ok(Effect::Skipped),
            Due::Time(moment) => {
                self.clocks = moment;
                Ok(Effect::Passed)
            }
            Due::Answer(bytes) => self.answer(&bytes),
            Due::Take(event) => self.take(&event),
        }
    }

    /// The controller answers, by its own clock.
    fn answer(&mut self, request: &Datagram) -> Result<Effect, NoMemory>
        requires { IsDueBy self.old (due.Answer request.now) }
        ensures done { IfOk result (λ effect. Does self.old (due.Answer request.now) effect self.new) }
        ensures unchanged { OnErr result (self.new ≡ self.old) }
    {
        let now = self.clocks.controller;
        let info = ServerInfo::local(now);
        let given = answer(&ACCOUNT, &info, request.as_slice(), now, now);
        let Some(bytes) = reply_of(&given) else {
            return Ok(Effect::Answered(given));
        };
        let packet = Packet {
            to: Destination::Member,
            bytes,
            at: self.clocks,
        };
        match self.packets.push(packet) {
            Ok(()) => Ok(Effect::Answered(given)),
            Err(_) => Err(NoMemory),
        }
    }

    /// The member takes an event. The memory for a request is taken before it, since the member can't go back.
    fn take(&mut self, event: &Event) -> Result<Effect, NoMemory>
        requires { IsDueBy self.old (due.Take event.now) }
        ensures done { IfOk result (λ effect. Does self.old (due.Take event.now) effect self.new) }
        ensures unchanged { OnErr result (self.new ≡ self.old) }
    {
        if self.packets.reserve(1).is_err() {
            return Err(NoMemory);
        }
        let outcome = self.member.step(event);
        match &outcome {
            Outcome::Started { mark } => {
                self.mark = *mark;
                self.sent = 0;
            }
            Outcome::Sent { bytes, .. } => {
                self.sent += 1;
                // There is room.
                let _ = self.packets.push(Packet {
                    to: Destination::Controller,
                    bytes: bytes.copy(),
                    at: self.clocks,
                });
            }
            Outcome::Moved { offset, .. } => {
                let offset = *offset;
                let packets = self.packets.as_slice();
                self.slack = least_with(self.slack, packets, event, offset, self.clocks);
                self.clocks = self.clocks.corrected(offset);
            }
            Outcome::Idle => {}
            Outcome::Refused(_) => {}
        }
        Ok(Effect::Stepped(outcome))
    }
}

/// The reply in an answer, if there is one.
fn reply_of(answer: &Answer) -> Option<Datagram>
    ensures { result ≡ reply_of answer.now }
{
    match answer {
        Answer::Signed(reply) | Answer::Plain(reply) => Some(reply.copy()),
        Answer::Refused(_) => None,
    }
}
