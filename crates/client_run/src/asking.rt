//! One call to a remote computer.
ghost use Rattle.std.specs.Prelude.{◌≡◌, true, IfOk};
ghost use Rattle.w32t_calls.specs.Asking.{call_pdu};
ghost use Rattle.w32t_calls.specs.Calling.{Asks, CallCounts};
ghost use Rattle.w32t_calls.specs.Stubs.{AnswersCall};
ghost use Rattle.client_run.specs.Asking.{AnswerIs, AskCounts, AsksOnce, Talks};

use edge_traits::{Opened, Wire};
use w32t_calls::{Call, CallFault, Caller, Given};

/// Why a call got no answer.
#[derive(Clone, Copy, Debug, PartialEq, Eq)]
pub enum AskFault {
    /// No session came; or the reply to the bind or to the call refused it, was none of this profile, or broke off.
    Refused,
    /// The request for a session, or a read of it, failed.
    ReadFault,
    /// A write failed.
    WriteFault,
}

impl From<CallFault> for AskFault {
    ghost use Rattle.std.specs.Prelude.{◌≡◌};
    ghost use Rattle.client_run.specs.Asking.{asked_fault};

    ghost from_gives = { λ why fault. fault ≡ asked_fault why };

    fn from(why: CallFault) -> AskFault {
        match why {
            CallFault::ReadFault => AskFault::ReadFault,
            CallFault::WriteFault => AskFault::WriteFault,
            CallFault::Nak
            | CallFault::Rejected
            | CallFault::Fault(_)
            | CallFault::BadReply(_)
            | CallFault::Torn => AskFault::Refused,
        }
    }
}

/// Opens one session, binds to the time service (MS-W32T), and makes the call.
///
/// `Refused`: no session came, the bind or the call was refused, or the reply to one of them is wrong or not whole.
/// `ReadFault` and `WriteFault`: the request for the session, a read or a write failed, and that ended the call.
pub fn ask<W: Wire>(call: Call, wire: &mut W) -> Result<Given, AskFault>
    // One session is asked for. Its bytes decide the answer, how many of them are taken, and what is written.
    ensures asks { AsksOnce call result (W.told wire.old) (W.told wire.new) }

    // An answer is one to this call.
    ensures kind { IfOk result (λ given. AnswersCall given call) }

    // A count rises where its fault is answered, and nowhere else.
    ensures cause { AskCounts result (W.faults wire.old) (W.faults wire.new)
        (W.write_faults wire.old) (W.write_faults wire.new) }
{
    match wire.next_session() {
        Opened::Session => Ok(ask_in(call, wire)?),
        Opened::NoMore => Err(AskFault::Refused),
        Opened::Failed => Err(AskFault::ReadFault),
    }
}

/// Binds in the session that was just opened, and makes the call.
fn ask_in<W: Wire>(call: Call, wire: &mut W) -> Result<Given, CallFault>
    requires open { W.is_open wire.old ≡ true }
    ensures talks { Talks call result (W.told wire.old) (W.told wire.new) }
    ensures kind { IfOk result (λ given. AnswersCall given call) }
    ensures cause { CallCounts result (W.faults wire.old) (W.faults wire.new)
        (W.write_faults wire.old) (W.write_faults wire.new) }
{
    let mut caller = Caller::new();
    caller.bind(wire)?;
    answer_to(call, &mut caller, wire)
}

/// Makes the first call after the bind.
fn answer_to<W: Wire>(call: Call, caller: &mut Caller, wire: &mut W) -> Result<Given, CallFault>
    requires bound { caller.old.bound ≡ true }
    requires first { caller.old.calls ≡ 1 }
    ensures asks { Asks (call_pdu 2 call) (W.is_open wire.old) (W.told wire.old) (W.told wire.new)
        caller.old.reader caller.new.reader (result ≡ Err CallFault.WriteFault)
        (λ first. AnswerIs call caller.old.reader.place first result) }
    ensures kind { IfOk result (λ given. AnswersCall given call) }
    ensures cause { CallCounts result (W.faults wire.old) (W.faults wire.new)
        (W.write_faults wire.old) (W.write_faults wire.new) }
{
    match call {
        Call::Sync { wait, flags } => Ok(Given::Synced(caller.sync(wire, wait, flags)?)),
        Call::Bits => Ok(Given::Bits(caller.bits(wire)?)),
        Call::Source => Ok(Given::Source(caller.source(wire)?)),
    }
}
