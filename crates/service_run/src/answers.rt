//! What one call is answered.
ghost use Rattle.std.specs.Prelude.{◌≡◌, ◌<◌, ◌≤◌, ◌↔◌, All, IfOk, IsErrOf, OnOk, length};
ghost use Rattle.edge_seen.specs.Seen.{Seen};
ghost use Rattle.slot_disk.specs.Calls.{LeavesOnly};
ghost use Rattle.stamp_keep.specs.Keep.{KeepsMarks, KeepsUnused};
ghost use Rattle.time_machine.specs.Events.{History};
ghost use Rattle.sntp_core.specs.Standing.{StandsForHistory, conf_of};
ghost use Rattle.run_deeds.specs.declared.life_end.Why.{Why};
ghost use Rattle.run_deeds.specs.Devices.{faults, living};
ghost use Rattle.run_deeds.specs.Marks.{Covers, KeepsLoadable, StopCovers};
ghost use Rattle.member_run.specs.Running.{CallsWhereDue, IsGoing, IsUsedUp, RisesWhereDue};
ghost use Rattle.member_run.specs.Running.{greatest_of, kept_of, member_of, totals_of};
ghost use Rattle.w32t_calls.specs.declared.call.Call.{Call};
ghost use Rattle.w32t_calls.specs.Stubs.{AnswersCall};
ghost use Rattle.service_run.specs.Answering.{AnswersOne, IsSync};
ghost use Rattle.service_run.specs.Profile.{profile_of, source_name};

use edge_traits::{Clock, Entropy, Link, Sink};
use member_run::{Running, Why};
use partner_pick::NameText;
use slot_disk::Disk;
use w32t_calls::{Call, Given, service_bits};
use w32t_settings::Settings;

/// The source of a clock that no partner corrected.
const LOCAL_CLOCK: &[u8] = b"Local CMOS Clock";

/// Answers one call: a request of the member with its round, the bits of the settings, or the name of the source. The error
/// is never `Done` or `BadVersion`.
pub(crate) fn answer<L: Link, C: Clock, D: Disk, E: Entropy, O: Sink>(
    call: Call,
    running: &mut Running,
    settings: &Settings,
    ranked: &[usize],
    link: &mut L,
    clock: &mut C,
    disk: &mut D,
    entropy: &mut E,
    out: &mut O,
    capture: &mut O,
) -> Result<Given, Why>
    requires going { IsGoing (D.told disk.old) running.old }
    requires places { All (λ place. place < length settings.now.directory) ranked.now }
    ensures answers { (others : Seen) (history : History) → StandsForHistory (member_of running.old) history
        → AnswersOne (conf_of (member_of running.old)) (profile_of settings.now ranked.now) call history
        (living others (L.told link.old) (C.told clock.old) (E.words entropy.old) (O.written capture.old)
        (O.written out.old) (L.faults link.old)
        (faults (C.faults clock.old) (E.faults entropy.old) (D.faults disk.old)
        (O.faults capture.old) (O.faults out.old)))
        (living others (L.told link.new) (C.told clock.new) (E.words entropy.new) (O.written capture.new)
        (O.written out.new) (L.faults link.new)
        (faults (C.faults clock.new) (E.faults entropy.new) (D.faults disk.new)
        (O.faults capture.new) (O.faults out.new)))
        (member_of running.new) (kept_of running.old) (kept_of running.new)
        (totals_of running.old) (totals_of running.new) result }
    ensures kind { IfOk result (λ given. AnswersCall given call) }
    ensures going { OnOk result (IsGoing (D.told disk.new) running.new) }

    // The other calls call no device, and the run stays as it was.
    ensures idle { (IsSync call → ⊥) → (disk.new ≡ disk.old) × (running.new ≡ running.old) }

    // The disk fails, and no mark is left, only at a request, and where the counts that were reserved are used up.
    ensures disk { IsErrOf result Why.DiskFault → IsSync call × IsUsedUp running.old }
    ensures spent { IsErrOf result Why.StampsSpent
        ↔ (IsSync call × IsUsedUp running.old × (4294967231 < kept_of running.old)) }
    ensures spent_still { IsErrOf result Why.StampsSpent → disk.new ≡ disk.old }
    ensures calls { CallsWhereDue running.old (D.told disk.old) (D.told disk.new) }
    ensures least { KeepsMarks (D.told disk.old) (D.told disk.new) }
    ensures most { RisesWhereDue running.old (D.told disk.old) (D.told disk.new) }
    ensures unused { LeavesOnly (D.told disk.old) (D.told disk.new) (KeepsUnused (D.told disk.old)) }
    ensures still_loads { KeepsLoadable (D.told disk.old) (D.told disk.new) }
    ensures covers { Covers (D.told disk.new) (greatest_of running.new) }
    ensures stopped { IsErrOf result Why.DiskFault
        → StopCovers (D.told disk.old) (D.told disk.new) (greatest_of running.new) }
    ensures never { (IsErrOf result Why.Done → ⊥) × (IsErrOf result Why.BadVersion → ⊥) }
{
    match call {
        Call::Sync { wait, flags } => {
            let result = running.resync(wait, flags, link, clock, disk, entropy, out, capture)?;
            Ok(Given::Synced(result))
        }
        Call::Bits => Ok(Given::Bits(service_bits(settings.announce, settings.role))),
        Call::Source => Ok(Given::Source(source_name(running, settings, ranked))),
    }
}

/// The name of the partner whose reply was accepted last in this life, or of the clock that no partner corrected.
fn source_name(running: &Running, settings: &Settings, ranked: &[usize]) -> NameText
    requires places { All (λ place. place < length settings.now.directory) ranked.now }
    ensures { (history : History) → StandsForHistory (member_of running.now) history
        → result ≡ source_name (conf_of (member_of running.now)) (profile_of settings.now ranked.now) history }
{
    match running.source() {
        Some(rank) if rank < ranked.len() => name_of(
            settings.directory.at(ranked[rank]).name.as_slice(),
        ),
        _ => name_of(LOCAL_CLOCK),
    }
}

/// These bytes as a name.
fn name_of(bytes: &[u8]) -> NameText
    requires within { length bytes.now ≤ 63 }
    requires ascii { All (λ byte. byte < 128) bytes.now }
    ensures { result ≡ bytes.now }
{
    NameText::from_slice(bytes).unwrap()
}
