//! A whole run.
ghost use Rattle.std.specs.Prelude.{◌≡◌, ◌⊎◌, ◌+◌, ◌≤◌, ℕ, List, Some};
ghost use Rattle.edge_seen.specs.Seen.{Seen};
ghost use Rattle.stamp_keep.specs.Image.{mark_of_image};
ghost use Rattle.stamp_keep.specs.Keep.{IsLoadable};
ghost use Rattle.run_deeds.specs.declared.life_end.Why.{Why};
ghost use Rattle.run_deeds.specs.Counting.{with_why};
ghost use Rattle.run_deeds.specs.Devices.{NoneRose, faults, living};
ghost use Rattle.run_deeds.specs.Lives.{Lives};
ghost use Rattle.run_deeds.specs.Parts.{why_of};
ghost use Rattle.member_run.specs.Running.{totals_of};

use crate::Running;
use edge_traits::{Clock, Entropy, Link, Sink};
use run_deeds::{LifeEnd, Why};
use slot_disk::Disk;
use sntp_core::Conf;

/// A whole run of so many turns: its start, its turns, and the closing lines. It takes no memory.
///
/// It is `Done` exactly where all turns were taken and the closing lines written; a failed call is the last, but for a
/// send or a receive. The order of one device's calls is in `lives`; over several devices it is tested, in `test_orders`.
pub fn live<L: Link, C: Clock, D: Disk, E: Entropy, O: Sink>(
    conf: Conf,
    turns: u32,
    link: &mut L,
    clock: &mut C,
    disk: &mut D,
    entropy: &mut E,
    out: &mut O,
    capture: &mut O,
) -> LifeEnd
    // Whatever the devices tell that are not asked.
    ensures lives { (others : Seen) → Lives conf turns (D.told disk.old) (D.told disk.new)
        (living others (L.told link.old) (C.told clock.old) (E.words entropy.old) (O.written capture.old)
        (O.written out.old) (L.faults link.old)
        (faults (C.faults clock.old) (E.faults entropy.old) (D.faults disk.old)
        (O.faults capture.old) (O.faults out.old)))
        (living others (L.told link.new) (C.told clock.new) (E.words entropy.new) (O.written capture.new)
        (O.written out.new) (L.faults link.new)
        (faults (C.faults clock.new) (E.faults entropy.new) (D.faults disk.new)
        (O.faults capture.new) (O.faults out.new)))
        result }

    // Where no call failed, it is done, but for a disk of another version and for counts that are used up, each of
    // which comes exactly as `lives` says.
    ensures complete { NoneRose
        (faults (C.faults clock.old) (E.faults entropy.old) (D.faults disk.old)
        (O.faults capture.old) (O.faults out.old))
        (faults (C.faults clock.new) (E.faults entropy.new) (D.faults disk.new)
        (O.faults capture.new) (O.faults out.new))
        → (result.why ≡ Why.Done) ⊎ (result.why ≡ Why.BadVersion) ⊎ (result.why ≡ Why.StampsSpent) }

    // Where the disk's content is told and of this version, its mark and the turns together are 4,294,967,232 at most, so
    // that each block that may be due fits, and no call failed, it is done.
    ensures enough { (content : List ℕ) → (D.told disk.old).content ≡ Some content → IsLoadable content
        → mark_of_image content + turns ≤ 4294967232
        → NoneRose
        (faults (C.faults clock.old) (E.faults entropy.old) (D.faults disk.old)
        (O.faults capture.old) (O.faults out.old))
        (faults (C.faults clock.new) (E.faults entropy.new) (D.faults disk.new)
        (O.faults capture.new) (O.faults out.new))
        → result.why ≡ Why.Done }

    // Where the disk is of another version, no other device is called.
    ensures untouched { result.why ≡ Why.BadVersion → (link.new ≡ link.old) × (clock.new ≡ clock.old)
        × (entropy.new ≡ entropy.old) × (out.new ≡ out.old) × (capture.new ≡ capture.old) }

    // No count falls.
    ensures link_count { L.faults link.old ≤ L.faults link.new }
    ensures clock_count { C.faults clock.old ≤ C.faults clock.new }
    ensures entropy_count { E.faults entropy.old ≤ E.faults entropy.new }
    ensures disk_count { D.faults disk.old ≤ D.faults disk.new }
    ensures out_count { O.faults out.old ≤ O.faults out.new }
    ensures capture_count { O.faults capture.old ≤ O.faults capture.new }
{
    let mut running = match Running::start(conf, clock, disk, out, capture) {
        Ok(running) => running,
        Err(why) => return LifeEnd::nothing(why),
    };
    let turned = running.take_turns(turns, link, clock, disk, entropy, out, capture);
    let ended = match turned {
        Ok(()) => running.close(out),
        Err(why) => Err(why),
    };
    end_of(&running, ended)
}

impl Running {
    ghost use Rattle.std.specs.Prelude.{IsErrOf, OnOk};
    ghost use Rattle.edge_seen.specs.Seen.{Seen};
    ghost use Rattle.slot_disk.specs.Calls.{LeavesOnly};
    ghost use Rattle.stamp_keep.specs.Keep.{KeepsMarks, KeepsUnused};
    ghost use Rattle.time_machine.specs.Events.{History};
    ghost use Rattle.sntp_core.specs.Standing.{StandsForHistory};
    ghost use Rattle.run_deeds.specs.declared.life_end.Why.{Why};
    ghost use Rattle.run_deeds.specs.Devices.{faults, living};
    ghost use Rattle.run_deeds.specs.Marks.{Covers, KeepsLoadable, StopCovers};
    ghost use Rattle.run_deeds.specs.Parts.{why_of};
    ghost use Rattle.member_run.specs.Running.{IsGoing, greatest_of, member_of};
    ghost use Rattle.member_run.specs.Turning.{TakesTurns};

    /// So many turns.
    fn take_turns<L: Link, C: Clock, D: Disk, E: Entropy, O: Sink>(
        &mut self,
        turns: u32,
        link: &mut L,
        clock: &mut C,
        disk: &mut D,
        entropy: &mut E,
        out: &mut O,
        capture: &mut O,
    ) -> Result<(), Why>
        requires going { IsGoing (D.told disk.old) self.old }
        ensures turns { (others : Seen) (history : History) → StandsForHistory (member_of self.old) history
            → TakesTurns turns history self.old self.new (D.told disk.old) (D.told disk.new)
            (living others (L.told link.old) (C.told clock.old) (E.words entropy.old) (O.written capture.old)
            (O.written out.old) (L.faults link.old)
            (faults (C.faults clock.old) (E.faults entropy.old) (D.faults disk.old)
            (O.faults capture.old) (O.faults out.old)))
            (living others (L.told link.new) (C.told clock.new) (E.words entropy.new) (O.written capture.new)
            (O.written out.new) (L.faults link.new)
            (faults (C.faults clock.new) (E.faults entropy.new) (D.faults disk.new)
            (O.faults capture.new) (O.faults out.new)))
            (why_of result) }
        ensures going { OnOk result (IsGoing (D.told disk.new) self.new) }
        ensures least { KeepsMarks (D.told disk.old) (D.told disk.new) }
        ensures still_loads { KeepsLoadable (D.told disk.old) (D.told disk.new) }
        ensures unused { LeavesOnly (D.told disk.old) (D.told disk.new) (KeepsUnused (D.told disk.old)) }
        ensures covers { Covers (D.told disk.new) (greatest_of self.new) }
        ensures stopped { IsErrOf result Why.DiskFault
            → StopCovers (D.told disk.old) (D.told disk.new) (greatest_of self.new) }
        ensures never { (IsErrOf result Why.Done → ⊥) × (IsErrOf result Why.BadVersion → ⊥) }
    {
        for _ in 0..turns {
            self.turn(link, clock, disk, entropy, out, capture)?;
        }
        Ok(())
    }
}

/// What a run came to that ended so.
fn end_of(running: &Running, ended: Result<(), Why>) -> LifeEnd
    ensures { result ≡ with_why (why_of ended) (totals_of running.now) }
{
    let why = match ended {
        Ok(()) => Why::Done,
        Err(why) => why,
    };
    LifeEnd {
        why,
        ..running.totals()
    }
}
