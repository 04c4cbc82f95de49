//! What is measured.
ghost use Rattle.std.specs.Prelude.{IfSome};
ghost use Rattle.w32t_calls.specs.Stubs.{AnswersCall};

use crate::session::{session, wire_of};
use edge_io::{Opened, ScriptWire, Wire};
use partner_pick::NameText;
use rpc_pdu::PduReader;
use std::alloc::Global;
use w32t_calls::{Call, Given, Session};

/// PDUs of a session, at most.
const PDUS: u32 = 10_000;

/// What is done with a session.
#[derive(Clone, Copy, PartialEq, Eq)]
pub enum Work {
    Wires,
    Reads,
    Serves,
}

impl Work {
    /// The work of this name.
    pub fn named(name: &str) -> Option<Work> {
        match name {
            "wires" => Some(Work::Wires),
            "reads" => Some(Work::Reads),
            "serves" => Some(Work::Serves),
            _ => None,
        }
    }
}

/// What came of all sessions: how many were opened, the PDUs that were read, the calls that got their reply, and the bytes
/// written.
#[derive(Clone, Copy, Default)]
pub struct Counts {
    pub sessions: u64,
    pub pdus: u64,
    pub calls: u64,
    pub written: u64,
}

/// Does the work with so many sessions, each on a wire of its own.
pub fn done(alloc: Global, work: Work, sessions: u32) -> anyhow::Result<Counts> {
    let bytes = session(alloc)?;
    let mut counts = Counts::default();
    for _ in 0..sessions {
        let mut wire = wire_of(alloc, &bytes)?;
        if wire.next_session() == Opened::Session {
            counts.sessions = counts.sessions.saturating_add(1);
            match work {
                Work::Wires => {}
                Work::Reads => counts.pdus = counts.pdus.saturating_add(read(&mut wire)),
                Work::Serves => counts.calls = counts.calls.saturating_add(serve(&mut wire)),
            }
            counts.written = counts.written.saturating_add(written(&wire));
        }
    }
    Ok(counts)
}

/// Reads the PDUs of the open session: how many there are.
fn read(wire: &mut ScriptWire) -> u64 {
    let mut reader = PduReader::new();
    for count in 0..PDUS {
        if !reader.alive() || reader.place() >= 1 << 60 {
            return u64::from(count);
        }
        if !matches!(reader.next(wire), Ok(Some(_))) {
            return u64::from(count);
        }
    }
    u64::from(PDUS)
}

/// Serves the open session: how many calls got their reply.
fn serve(wire: &mut ScriptWire) -> u64 {
    let mut session = Session::new();
    for count in 0..PDUS {
        let Ok(call) = session.next(wire) else {
            return u64::from(count);
        };
        let Some(given) = answer_to(call) else {
            return u64::from(count);
        };
        if session.reply(wire, &given).is_err() {
            return u64::from(count);
        }
    }
    u64::from(PDUS)
}

/// The answer to a call: synchronized, all bits of a controller, and a name.
fn answer_to(call: Call) -> Option<Given>
    ensures { IfSome result (λ given. AnswersCall given call) }
{
    match call {
        Call::Sync { .. } => Some(Given::Synced(0)),
        Call::Bits => Some(Given::Bits(0x240)),
        Call::Source => NameText::from_slice(b"DC1").map(Given::Source),
    }
}

/// Bytes written to the open session.
fn written(wire: &ScriptWire) -> u64 {
    if wire.opened() > 0 {
        wire.written(0).len() as u64
    } else {
        0
    }
}
