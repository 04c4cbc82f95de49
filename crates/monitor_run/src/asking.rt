//! Asking a computer.
ghost use Rattle.std.specs.Prelude.{◌≡◌, IfErr, IfOk, OnOk};
ghost use Rattle.base_specs.specs.Told.{Added};
ghost use Rattle.edge_seen.specs.Seen.{Seen};
ghost use Rattle.monitor_run.specs.Asking.{asking, words_of};
ghost use Rattle.monitor_run.specs.Progress.{Asks, DrawsFewer, Hears, HearsUnread, StopsShort};

use crate::MonitorWhy;
use crate::request::plain_request;
use edge_traits::{Addr, Clock, Datagram, Drawn, Entropy, Link, Put, Reading, Receipt};
use ntp_wire::Stamp;

/// What came back.
#[derive(Drop)]
pub(crate) enum Heard {
    /// A datagram, its sender, and the reading at its arrival.
    Came(Addr, Datagram, i64),
    /// Nothing.
    Quiet,
    /// A failed receive.
    Lost,
}

/// A request that was sent, and what came back.
#[derive(Drop)]
pub(crate) struct Ask {
    /// The reading at the sending.
    pub at: i64,
    /// Its timestamp, drawn at random.
    pub stamp: Stamp,
    /// The answer of the send.
    pub put: Put,
    /// What came back.
    pub heard: Heard,
}

/// Asks the computer at this address: reads the clock, draws a timestamp, sends the request, takes one receipt, and
/// reads the clock again where a datagram came. A failed send or receive is no end.
pub(crate) fn ask_computer<L: Link, C: Clock, E: Entropy>(
    to: Addr,
    link: &mut L,
    clock: &mut C,
    entropy: &mut E,
) -> Result<Ask, MonitorWhy>
    ensures asked { IfOk result (λ ask. (others : Seen) → Asks to
        (asking others (L.told link.old) (L.faults link.old) (C.told clock.old) (C.faults clock.old)
        (E.words entropy.old) (E.faults entropy.old))
        (asking others (L.told link.new) (L.faults link.new) (C.told clock.new) (C.faults clock.new)
        (E.words entropy.new) (E.faults entropy.new)) ask) }
    ensures cut_short { IfErr result (λ why. (others : Seen) → StopsShort to
        (asking others (L.told link.old) (L.faults link.old) (C.told clock.old) (C.faults clock.old)
        (E.words entropy.old) (E.faults entropy.old))
        (asking others (L.told link.new) (L.faults link.new) (C.told clock.new) (C.faults clock.new)
        (E.words entropy.new) (E.faults entropy.new)) why) }
{
    let Reading::At(at) = clock.now() else {
        return Err(MonitorWhy::ClockFault);
    };
    let stamp = draw_stamp(entropy)?;
    let put = link.send(to, &plain_request(stamp));
    let heard = hear(link, clock)?;
    Ok(Ask {
        at,
        stamp,
        put,
        heard,
    })
}

/// Draws a timestamp: the seconds, then the fraction. After a failed draw no other is made.
fn draw_stamp<E: Entropy>(entropy: &mut E) -> Result<Stamp, MonitorWhy>
    ensures drew { IfOk result (λ stamp.
        Added (E.words entropy.old) (E.words entropy.new) (words_of stamp)) }
    ensures no_fault { OnOk result (E.faults entropy.new ≡ E.faults entropy.old) }
    ensures fewer { IfErr result (λ why. DrawsFewer why
        (E.words entropy.old) (E.words entropy.new) (E.faults entropy.old) (E.faults entropy.new)) }
{
    let Drawn::Word(seconds) = entropy.word() else {
        return Err(MonitorWhy::EntropyFault);
    };
    let Drawn::Word(fraction) = entropy.word() else {
        return Err(MonitorWhy::EntropyFault);
    };
    Ok(Stamp { seconds, fraction })
}

/// Takes one receipt, and reads the clock where it is a datagram.
fn hear<L: Link, C: Clock>(link: &mut L, clock: &mut C) -> Result<Heard, MonitorWhy>
    ensures heard { IfOk result (λ heard. Hears heard
        (L.told link.old) (L.told link.new) (L.faults link.old) (L.faults link.new)
        (C.told clock.old) (C.told clock.new) (C.faults clock.old) (C.faults clock.new)) }
    ensures unread { IfErr result (λ why. HearsUnread why
        (L.told link.old) (L.told link.new) (L.faults link.old) (L.faults link.new)
        (C.told clock.old) (C.told clock.new) (C.faults clock.old) (C.faults clock.new)) }
{
    match link.recv() {
        Receipt::Got(from, bytes) => match clock.now() {
            Reading::At(at) => Ok(Heard::Came(from, bytes, at)),
            Reading::Failed => Err(MonitorWhy::ClockFault),
        },
        Receipt::Quiet => Ok(Heard::Quiet),
        Receipt::Failed => Ok(Heard::Lost),
    }
}
