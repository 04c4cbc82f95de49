//! Serving the requests that come over a link.
ghost use Rattle.std.specs.Prelude.{◌≡◌, ◌≤◌, [], ◌∷◌, IfNone, IfSome};
ghost use Rattle.base_specs.specs.Counts.{Rose};
ghost use Rattle.base_specs.specs.Told.{Grew};
ghost use Rattle.edge_traits.specs.Link.{Send};
ghost use Rattle.edge_traits.specs.Sink.{PutCounts};
ghost use Rattle.edge_seen.specs.Seen.{Seen};
ghost use Rattle.dc_sign.specs.declared.tally.ServeWhy.{ServeWhy};
ghost use Rattle.dc_sign.specs.Sending.{Sends};
ghost use Rattle.dc_sign.specs.Serving.{Serves, StopsUnread, serving};
ghost use Rattle.dc_sign.specs.Turns.{TakesOne};

use crate::tally::TurnOutcome;
use crate::{Answer, ServeEnd, ServeWhy, ServerInfo, answer, two_readings};
use edge_traits::{Addr, Clock, Datagram, Link, Put, Receipt};
use key_book::Keys;

/// Serves so many turns. Each takes one receipt. For a datagram the clock is read twice, and the answer by the local
/// information (see [`answer`] and [`ServerInfo::local`]) is sent to its sender, or nothing where it is refused. A
/// failed send or receive is counted, and the run goes on. A failed reading ends the run: nothing is sent or counted
/// for the datagram that came.
pub fn serve<L: Link, C: Clock, K: Keys>(
    turns: u32,
    link: &mut L,
    clock: &mut C,
    keys: &K,
) -> ServeEnd
    // Whatever the devices tell that are not asked.
    ensures serves { (others : Seen) → Serves (K.accounts keys.now) turns
        (serving others (L.told link.old) (L.faults link.old) (C.told clock.old) (C.faults clock.old))
        (serving others (L.told link.new) (L.faults link.new) (C.told clock.new) (C.faults clock.new)) result }

    // The clock's fault has its cause, and no other ends a run.
    ensures cause { result.why ≡ ServeWhy.ClockFault
        → Rose (C.faults clock.old) (C.faults clock.new) }
    ensures complete { ¬ Rose (C.faults clock.old) (C.faults clock.new)
        → result.why ≡ ServeWhy.Done }

    // No count falls.
    ensures link_count { L.faults link.old ≤ L.faults link.new }
    ensures clock_count { C.faults clock.old ≤ C.faults clock.new }
{
    let mut end = ServeEnd::nothing();
    for _ in 0..turns {
        let Some(outcome) = take_turn(link, clock, keys) else {
            end.why = ServeWhy::ClockFault;
            return end;
        };
        end.count(outcome);
    }
    end
}

/// Takes one receipt, and answers it. None where a reading failed.
fn take_turn<L: Link, C: Clock, K: Keys>(
    link: &mut L,
    clock: &mut C,
    keys: &K,
) -> Option<TurnOutcome>
    ensures turn { IfSome result (λ outcome. (others : Seen) → TakesOne (K.accounts keys.now)
        (serving others (L.told link.old) (L.faults link.old) (C.told clock.old) (C.faults clock.old))
        (serving others (L.told link.new) (L.faults link.new) (C.told clock.new) (C.faults clock.new)) outcome) }
    ensures broken_off { IfNone result ((others : Seen) → StopsUnread
        (serving others (L.told link.old) (L.faults link.old) (C.told clock.old) (C.faults clock.old))
        (serving others (L.told link.new) (L.faults link.new) (C.told clock.new) (C.faults clock.new))) }
{
    match link.recv() {
        Receipt::Got(from, request) => {
            let (t2, t3) = two_readings(clock)?;
            let info = ServerInfo::local(t2);
            let answer = answer(keys, &info, request.as_slice(), t2, t3);
            Some(send_answer(link, from, &answer))
        }
        Receipt::Quiet => Some(TurnOutcome::Quiet),
        Receipt::Failed => Some(TurnOutcome::Lost),
    }
}

/// Sends an answer, where it is a reply.
fn send_answer<L: Link>(link: &mut L, to: Addr, answer: &Answer) -> TurnOutcome
    ensures { Sends to answer.now (L.told link.old) (L.told link.new)
        (L.faults link.old) (L.faults link.new) result }
{
    match answer {
        Answer::Signed(reply) => TurnOutcome::Signed(send_reply(link, to, reply)),
        Answer::Plain(reply) => TurnOutcome::Plain(send_reply(link, to, reply)),
        Answer::Refused(reason) => TurnOutcome::Refused(*reason),
    }
}

/// Sends a reply whole.
fn send_reply<L: Link>(link: &mut L, to: Addr, reply: &Datagram) -> Put
    ensures told { Grew (L.told link.old) (L.told link.new)
        (Send (record { to = to; bytes = reply.now; put = result }) ∷ []) }
    ensures counts { PutCounts result (L.faults link.old) (L.faults link.new) }
{
    link.send(to, reply.as_slice())
}
