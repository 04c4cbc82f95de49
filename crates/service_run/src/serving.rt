//! A whole run of a service.
ghost use Rattle.std.specs.Prelude.{◌≡◌, ◌⊎◌, ◌<◌, ◌≤◌, All, IfSome, IsErrOf, length};
ghost use Rattle.edge_seen.specs.Seen.{Seen};
ghost use Rattle.partner_pick.specs.Ranking.{IsRanked};
ghost use Rattle.slot_disk.specs.Calls.{LeavesOnly};
ghost use Rattle.stamp_keep.specs.Keep.{KeepsMarks, KeepsUnused};
ghost use Rattle.stamp_keep.specs.Slots.{HasOtherVersion};
ghost use Rattle.time_machine.specs.Events.{History};
ghost use Rattle.sntp_core.specs.Standing.{StandsForHistory, conf_of};
ghost use Rattle.run_deeds.specs.declared.life_end.Why.{Why};
ghost use Rattle.run_deeds.specs.Devices.{NoneRose, faults, living};
ghost use Rattle.run_deeds.specs.Marks.{Covers, KeepsLoadable, StopCovers};
ghost use Rattle.member_run.specs.Running.{IsGoing, greatest_of, kept_of, member_of, totals_of};
ghost use Rattle.w32tm_text.specs.Conf.{IsConfOf};
ghost use Rattle.w32tm_text.specs.declared.status.Status.{Status};
ghost use Rattle.service_run.specs.Profile.{profile_of};
ghost use Rattle.service_run.specs.Serving.{Serves, ServesAll, serving, status_of_stop, why_of_stop};
ghost use Rattle.service_run.specs.declared.serving.Stop.{Stop};

use crate::lines::write_session_line;
use crate::session::serve_session;
use edge_traits::{Clock, Entropy, Link, Opened, Sink, Wire};
use member_run::{Running, Why};
use slot_disk::Disk;
use sntp_core::Conf;
use w32t_settings::Settings;
use w32tm_text::Status;

/// Why no further session is served.
#[derive(Clone, Copy, Debug, PartialEq, Eq)]
enum Stop {
    /// The request for a session failed.
    Unopened,
    /// A device of the member's run failed.
    Fault(Why),
}

impl From<Why> for Stop {
    ghost use Rattle.std.specs.Prelude.{◌≡◌};
    ghost use Rattle.service_run.specs.declared.serving.Stop.{Stop};

    ghost from_gives = { λ why stop. stop ≡ Stop.Fault why };

    fn from(why: Why) -> Stop {
        Stop::Fault(why)
    }
}

/// Serves up to so many sessions of the wire, one after the other, with a member that is set to this and whose requests are
/// asked for by the sessions' calls. It takes no memory.
///
/// `ranked` are the places of the partners in the settings' directory, in rank. It is `Done` where all sessions were served,
/// or no more would come, and the closing lines were written. A session's failed read or write ends that session alone.
pub fn serve_sessions<L: Link, C: Clock, D: Disk, E: Entropy, O: Sink, W: Wire>(
    conf: Conf,
    settings: &Settings,
    ranked: &[usize],
    sessions: u32,
    link: &mut L,
    clock: &mut C,
    disk: &mut D,
    entropy: &mut E,
    out: &mut O,
    capture: &mut O,
    wire: &mut W,
) -> Status
    requires conf { IsConfOf settings.now conf }
    requires ranked { IsRanked settings.now.role settings.now.name settings.now.directory ranked.now }
    requires some { 0 < length ranked.now }
    requires sessions { sessions ≤ 10000 }

    // Whatever the devices tell that are not asked.
    ensures serves { (others : Seen) → Serves conf (profile_of settings.now ranked.now) sessions (D.told disk.old) (D.told disk.new)
        (serving others (L.told link.old) (C.told clock.old) (E.words entropy.old) (O.written capture.old)
        (O.written out.old) (L.faults link.old)
        (faults (C.faults clock.old) (E.faults entropy.old) (D.faults disk.old)
        (O.faults capture.old) (O.faults out.old))
        (W.told wire.old) (W.faults wire.old) (W.write_faults wire.old))
        (serving others (L.told link.new) (C.told clock.new) (E.words entropy.new) (O.written capture.new)
        (O.written out.new) (L.faults link.new)
        (faults (C.faults clock.new) (E.faults entropy.new) (D.faults disk.new)
        (O.faults capture.new) (O.faults out.new))
        (W.told wire.new) (W.faults wire.new) (W.write_faults wire.new))
        result }

    // Where no call failed but those of the link and those in sessions, it is done, whatever the peers send, but for a request
    // for a session that failed, for a disk of another version and for counts that are used up, each of which comes exactly as
    // `serves` says.
    ensures complete { NoneRose
        (faults (C.faults clock.old) (E.faults entropy.old) (D.faults disk.old)
        (O.faults capture.old) (O.faults out.old))
        (faults (C.faults clock.new) (E.faults entropy.new) (D.faults disk.new)
        (O.faults capture.new) (O.faults out.new))
        → (result ≡ Status.Done) ⊎ (result ≡ Status.ReadFault) ⊎ (result ≡ Status.BadKeeper) ⊎ (result ≡ Status.StampsSpent) }

    // Where the disk is of another version, no other device is called.
    ensures untouched { result ≡ Status.BadKeeper → (link.new ≡ link.old) × (clock.new ≡ clock.old)
        × (entropy.new ≡ entropy.old) × (out.new ≡ out.old) × (capture.new ≡ capture.old) × (wire.new ≡ wire.old) }
    ensures version { result ≡ Status.BadKeeper → IfSome (D.told disk.old).content HasOtherVersion }

    // No count falls.
    ensures link_count { L.faults link.old ≤ L.faults link.new }
    ensures clock_count { C.faults clock.old ≤ C.faults clock.new }
    ensures entropy_count { E.faults entropy.old ≤ E.faults entropy.new }
    ensures disk_count { D.faults disk.old ≤ D.faults disk.new }
    ensures out_count { O.faults out.old ≤ O.faults out.new }
    ensures capture_count { O.faults capture.old ≤ O.faults capture.new }
    ensures read_count { W.faults wire.old ≤ W.faults wire.new }
    ensures write_count { W.write_faults wire.old ≤ W.write_faults wire.new }
{
    let mut running = match Running::start(conf, clock, disk, out, capture) {
        Ok(running) => running,
        Err(why) => return status_of(Stop::Fault(why)),
    };
    let served = serve_all(
        &mut running,
        settings,
        ranked,
        sessions,
        link,
        clock,
        disk,
        entropy,
        out,
        capture,
        wire,
    );
    if let Err(stop) = served {
        return status_of(stop);
    }
    match running.close(out) {
        Ok(()) => Status::Done,
        Err(why) => status_of(Stop::Fault(why)),
    }
}

/// Serves up to so many sessions, each with its line.
fn serve_all<L: Link, C: Clock, D: Disk, E: Entropy, O: Sink, W: Wire>(
    running: &mut Running,
    settings: &Settings,
    ranked: &[usize],
    sessions: u32,
    link: &mut L,
    clock: &mut C,
    disk: &mut D,
    entropy: &mut E,
    out: &mut O,
    capture: &mut O,
    wire: &mut W,
) -> Result<(), Stop>
    requires going { IsGoing (D.told disk.old) running.old }
    requires places { All (λ place. place < length settings.now.directory) ranked.now }
    ensures serves { (others : Seen) (history : History) → StandsForHistory (member_of running.old) history
        → ServesAll (conf_of (member_of running.old)) (profile_of settings.now ranked.now) sessions history
        (living others (L.told link.old) (C.told clock.old) (E.words entropy.old) (O.written capture.old)
        (O.written out.old) (L.faults link.old)
        (faults (C.faults clock.old) (E.faults entropy.old) (D.faults disk.old)
        (O.faults capture.old) (O.faults out.old)))
        (living others (L.told link.new) (C.told clock.new) (E.words entropy.new) (O.written capture.new)
        (O.written out.new) (L.faults link.new)
        (faults (C.faults clock.new) (E.faults entropy.new) (D.faults disk.new)
        (O.faults capture.new) (O.faults out.new)))
        (member_of running.new) (kept_of running.old) (kept_of running.new)
        (totals_of running.old) (totals_of running.new) (D.told disk.old) (D.told disk.new)
        (W.told wire.old) (W.told wire.new) (W.faults wire.old) (W.faults wire.new)
        (W.write_faults wire.old) (W.write_faults wire.new) result }

    // The run may go on where none of its devices failed.
    ensures going { why_of_stop result ≡ Why.Done → IsGoing (D.told disk.new) running.new }
    ensures least { KeepsMarks (D.told disk.old) (D.told disk.new) }
    ensures still_loads { KeepsLoadable (D.told disk.old) (D.told disk.new) }
    ensures unused { LeavesOnly (D.told disk.old) (D.told disk.new) (KeepsUnused (D.told disk.old)) }
    ensures covers { Covers (D.told disk.new) (greatest_of running.new) }
    ensures stopped { IsErrOf result (Stop.Fault Why.DiskFault)
        → StopCovers (D.told disk.old) (D.told disk.new) (greatest_of running.new) }
    ensures never { (IsErrOf result (Stop.Fault Why.Done) → ⊥) × (IsErrOf result (Stop.Fault Why.BadVersion) → ⊥) }
{
    for served in 0..sessions {
        match wire.next_session() {
            Opened::Session => {
                let end = serve_session(
                    running, settings, ranked, link, clock, disk, entropy, out, capture, wire,
                )?;
                write_session_line(served + 1, end, out)?;
            }
            Opened::NoMore => return Ok(()),
            Opened::Failed => return Err(Stop::Unopened),
        }
    }
    Ok(())
}

/// The status of a run that stopped so.
fn status_of(stop: Stop) -> Status
    ensures { result ≡ status_of_stop stop }
{
    match stop {
        Stop::Unopened => Status::ReadFault,
        Stop::Fault(Why::Done) => Status::Done,
        Stop::Fault(Why::DiskFault) => Status::DiskFault,
        Stop::Fault(Why::BadVersion) => Status::BadKeeper,
        Stop::Fault(Why::StampsSpent) => Status::StampsSpent,
        Stop::Fault(Why::ClockFault) => Status::ClockFault,
        Stop::Fault(Why::EntropyFault) => Status::EntropyFault,
        Stop::Fault(Why::SinkFault) => Status::WriteFault,
    }
}
