//! One session of a service.
ghost use Rattle.std.specs.Prelude.{◌≡◌, ◌<◌, true, All, IsErrOf, OnOk, length};
ghost use Rattle.edge_seen.specs.Seen.{Seen};
ghost use Rattle.rpc_pdu.specs.Fill.{OpensNone};
ghost use Rattle.slot_disk.specs.Calls.{LeavesOnly};
ghost use Rattle.stamp_keep.specs.Keep.{KeepsMarks, KeepsUnused};
ghost use Rattle.time_machine.specs.Events.{History};
ghost use Rattle.sntp_core.specs.Standing.{StandsForHistory, conf_of};
ghost use Rattle.run_deeds.specs.declared.life_end.Why.{Why};
ghost use Rattle.run_deeds.specs.Devices.{faults, living};
ghost use Rattle.run_deeds.specs.Marks.{Covers, KeepsLoadable, StopCovers};
ghost use Rattle.member_run.specs.Running.{IsGoing, greatest_of, kept_of, member_of, totals_of};
ghost use Rattle.service_run.specs.One.{EndCounts, IsFresh, KeepsOne, ServesOne};
ghost use Rattle.service_run.specs.Profile.{profile_of};

use crate::answers::answer;
use edge_traits::{Clock, Entropy, Link, Sink, Wire};
use member_run::{Running, Why};
use slot_disk::Disk;
use w32t_calls::{Session, SessionEnd};
use w32t_settings::Settings;

/// Serves the session that was just opened to its end, call by call. Where a fault of the run stops it, the call that
/// failed has no answer.
pub(crate) fn serve_session<L: Link, C: Clock, D: Disk, E: Entropy, O: Sink, W: Wire>(
    running: &mut Running,
    settings: &Settings,
    ranked: &[usize],
    link: &mut L,
    clock: &mut C,
    disk: &mut D,
    entropy: &mut E,
    out: &mut O,
    capture: &mut O,
    wire: &mut W,
) -> Result<SessionEnd, Why>
    requires going { IsGoing (D.told disk.old) running.old }
    requires places { All (λ place. place < length settings.now.directory) ranked.now }
    requires open { W.is_open wire.old ≡ true }
    requires fresh { IsFresh (W.told wire.old) }
    ensures serves { (others : Seen) (history : History) → StandsForHistory (member_of running.old) history
        → (one : ServesOne (conf_of (member_of running.old)) (profile_of settings.now ranked.now) history
        (living others (L.told link.old) (C.told clock.old) (E.words entropy.old) (O.written capture.old)
        (O.written out.old) (L.faults link.old)
        (faults (C.faults clock.old) (E.faults entropy.old) (D.faults disk.old)
        (O.faults capture.old) (O.faults out.old)))
        (living others (L.told link.new) (C.told clock.new) (E.words entropy.new) (O.written capture.new)
        (O.written out.new) (L.faults link.new)
        (faults (C.faults clock.new) (E.faults entropy.new) (D.faults disk.new)
        (O.faults capture.new) (O.faults out.new)))
        (member_of running.new) (kept_of running.old) (kept_of running.new)
        (totals_of running.old) (totals_of running.new) (W.told wire.old) (W.told wire.new) result)
        × KeepsOne (conf_of (member_of running.old)) history one.part (D.told disk.old) (D.told disk.new) }
    ensures going { OnOk result (IsGoing (D.told disk.new) running.new) }
    ensures counts { EndCounts result (W.faults wire.old) (W.faults wire.new)
        (W.write_faults wire.old) (W.write_faults wire.new) }
    ensures sessions { OpensNone (W.told wire.old) (W.told wire.new) }
    ensures least { KeepsMarks (D.told disk.old) (D.told disk.new) }
    ensures still_loads { KeepsLoadable (D.told disk.old) (D.told disk.new) }
    ensures unused { LeavesOnly (D.told disk.old) (D.told disk.new) (KeepsUnused (D.told disk.old)) }
    ensures covers { Covers (D.told disk.new) (greatest_of running.new) }
    ensures stopped { IsErrOf result Why.DiskFault
        → StopCovers (D.told disk.old) (D.told disk.new) (greatest_of running.new) }
    ensures never { (IsErrOf result Why.Done → ⊥) × (IsErrOf result Why.BadVersion → ⊥) }
{
    let mut session = Session::new();
    loop {
        let call = match session.next(wire) {
            Ok(call) => call,
            Err(end) => return Ok(end),
        };
        let given = answer(
            call, running, settings, ranked, link, clock, disk, entropy, out, capture,
        )?;
        if let Err(end) = session.reply(wire, &given) {
            return Ok(end);
        }
    }
}
