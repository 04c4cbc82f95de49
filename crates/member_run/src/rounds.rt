//! Requests that were asked for, and their rounds.
ghost use Rattle.std.specs.Prelude.{◌≡◌};
ghost use Rattle.run_deeds.specs.Rounds.{is_moved, is_too_big};

use crate::Running;
use crate::devices::{Devices, Tells, draw, read};
use capture_fmt::Event;
use edge_traits::{Clock, Entropy, Link, Receipt, Sink};
use run_deeds::Why;
use slot_disk::Disk;
use sntp_core::{Outcome, Reason};

/// How many receipts a round takes at most.
const ROUND: u32 = 16;

/// The flag of a call that asks for the result of its round.
const WITH_RESULT: u32 = 2;

/// The result of a call after which the clock was corrected, or which asked for no result.
const DONE: u32 = 0;

/// The result of a call after which no time was available.
const NO_DATA: u32 = 1;

/// The result of a call after which the correction would have been too big.
const TOO_BIG: u32 = 3;

impl Running {
    ghost use Rattle.std.specs.Prelude.{◌↔◌, ◌<◌, ◌≤◌, ℕ, [], List, Option, IfErr, IsErrOf, OnOk};
    ghost use Rattle.edge_seen.specs.Seen.{Seen};
    ghost use Rattle.slot_disk.specs.Calls.{LeavesOnly};
    ghost use Rattle.stamp_keep.specs.Image.{mark_of_image};
    ghost use Rattle.stamp_keep.specs.Keep.{KeepsMarks, KeepsUnused};
    ghost use Rattle.time_machine.specs.Events.{History};
    ghost use Rattle.sntp_core.specs.Standing.{StandsForHistory, conf_of};
    ghost use Rattle.run_deeds.specs.declared.life_end.Why.{Why};
    ghost use Rattle.run_deeds.specs.Devices.{faults, living};
    ghost use Rattle.run_deeds.specs.Marks.{Covers, KeepsLoadable, StopCovers};
    ghost use Rattle.run_deeds.specs.Parts.{why_of};
    ghost use Rattle.run_deeds.specs.Rounds.{Answers, RoundAnswers};
    ghost use Rattle.run_deeds.specs.Weaving.{behind_request, one_call};
    ghost use Rattle.member_run.specs.Running.{CallsWhereDue, IsBegun, IsGoing, IsOfReceipt};
    ghost use Rattle.member_run.specs.Running.{IsPart, IsUsedUp, RisesWhereDue, SendsNone};
    ghost use Rattle.member_run.specs.Running.{greatest_of, kept_of, member_of, totals_of};
    ghost use Rattle.member_run.specs.Borrowing.{SameBorrows};

    /// A request that was asked for, with these flags. Where `wait` is not 0, a round of at most 16 receipts follows,
    /// which an accepted arrival or a quiet receipt ends. The result is 0 where `wait` is 0 or the flags lack 2, and
    /// where a reply was accepted. Else it is 3 where one was refused as too big, and 1 in all other cases. The error is
    /// never `Done` or `BadVersion`.
    pub fn resync<L: Link, C: Clock, D: Disk, E: Entropy, O: Sink>(
        &mut self,
        wait: u32,
        flags: u32,
        link: &mut L,
        clock: &mut C,
        disk: &mut D,
        entropy: &mut E,
        out: &mut O,
        capture: &mut O,
    ) -> Result<u32, Why>
        requires going { IsGoing (D.told disk.old) self.old }
        ensures answers { (others : Seen) (history : History) → StandsForHistory (member_of self.old) history
            → Answers (conf_of (member_of self.old)) wait flags history
            (living others (L.told link.old) (C.told clock.old) (E.words entropy.old) (O.written capture.old)
            (O.written out.old) (L.faults link.old)
            (faults (C.faults clock.old) (E.faults entropy.old) (D.faults disk.old)
            (O.faults capture.old) (O.faults out.old)))
            (living others (L.told link.new) (C.told clock.new) (E.words entropy.new) (O.written capture.new)
            (O.written out.new) (L.faults link.new)
            (faults (C.faults clock.new) (E.faults entropy.new) (D.faults disk.new)
            (O.faults capture.new) (O.faults out.new)))
            (member_of self.new) (kept_of self.old) (kept_of self.new)
            (totals_of self.old) (totals_of self.new) result }
        ensures going { OnOk result (IsGoing (D.told disk.new) self.new) }
        ensures disk { IsErrOf result Why.DiskFault → IsUsedUp self.old }
        ensures spent { IsErrOf result Why.StampsSpent
            ↔ (IsUsedUp self.old × (4294967231 < kept_of self.old)) }
        ensures spent_still { IsErrOf result Why.StampsSpent → disk.new ≡ disk.old }
        ensures calls { CallsWhereDue self.old (D.told disk.old) (D.told disk.new) }
        ensures least { KeepsMarks (D.told disk.old) (D.told disk.new) }
        ensures most { RisesWhereDue self.old (D.told disk.old) (D.told disk.new) }
        ensures unused { LeavesOnly (D.told disk.old) (D.told disk.new) (KeepsUnused (D.told disk.old)) }
        ensures still_loads { KeepsLoadable (D.told disk.old) (D.told disk.new) }
        ensures covers { Covers (D.told disk.new) (greatest_of self.new) }

        // At each moment of the call, so between two calls of the disk too, each image stands for at least the mark up to
        // which counts were reserved before. Where the disk failed, each covers all counts sent, just before that call too.
        ensures any_moment { LeavesOnly (D.told disk.old) (D.told disk.new) (λ image. kept_of self.old ≤ mark_of_image image) }
        ensures stopped { IsErrOf result Why.DiskFault
            → StopCovers (D.told disk.old) (D.told disk.new) (greatest_of self.new) }
        ensures never { (IsErrOf result Why.Done → ⊥) × (IsErrOf result Why.BadVersion → ⊥) }
    {
        let mut devices = Devices {
            link,
            clock,
            disk,
            entropy,
            out,
            capture,
        };
        self.request(flags, &mut devices)?;
        if wait == 0 {
            return Ok(DONE);
        }
        let result = self.round(&mut devices)?;
        Ok(if flags & WITH_RESULT == 0 {
            DONE
        } else {
            result
        })
    }

    /// A reading and a word make a Resync, which is taken.
    fn request<'l, 'c, 'd, 'e, 'o, 'k, L: Link, C: Clock, D: Disk, E: Entropy, O: Sink>(
        &mut self,
        flags: u32,
        devices: &mut Devices<'l, 'c, 'd, 'e, 'o, 'k, L, C, D, E, O>,
    ) -> Result<(), Why>
        requires going { IsGoing (D.told devices.old.disk.now) self.old }
        ensures borrows { SameBorrows devices.old devices.new }
        ensures part { let seen = ⟦<Devices<'l, 'c, 'd, 'e, 'o, 'k, L, C, D, E, O> as Tells>⟧.seen in
            (others : Seen) (wait : ℕ)
            → IsPart self.old self.new (one_call wait flags) (behind_request wait [])
            (seen others devices.old)
            (seen others devices.new)
            (why_of result) }
        ensures going { OnOk result (IsGoing (D.told devices.new.disk.now) self.new) }
        ensures disk { IsErrOf result Why.DiskFault → IsUsedUp self.old }
        ensures spent { IsErrOf result Why.StampsSpent
            ↔ (IsUsedUp self.old × (4294967231 < kept_of self.old)) }
        ensures spent_still { IsErrOf result Why.StampsSpent → devices.new.disk.now ≡ devices.old.disk.now }
        ensures calls { CallsWhereDue self.old (D.told devices.old.disk.now) (D.told devices.new.disk.now) }
        ensures least { KeepsMarks (D.told devices.old.disk.now) (D.told devices.new.disk.now) }
        ensures most { RisesWhereDue self.old (D.told devices.old.disk.now) (D.told devices.new.disk.now) }
        ensures unused { LeavesOnly (D.told devices.old.disk.now) (D.told devices.new.disk.now)
            (KeepsUnused (D.told devices.old.disk.now)) }
        ensures still_loads { KeepsLoadable (D.told devices.old.disk.now) (D.told devices.new.disk.now) }
        ensures covers { Covers (D.told devices.new.disk.now) (greatest_of self.new) }
        ensures any_moment { LeavesOnly (D.told devices.old.disk.now) (D.told devices.new.disk.now)
            (λ image. kept_of self.old ≤ mark_of_image image) }
        ensures stopped { IsErrOf result Why.DiskFault
            → StopCovers (D.told devices.old.disk.now) (D.told devices.new.disk.now) (greatest_of self.new) }
        ensures never { (IsErrOf result Why.Done → ⊥) × (IsErrOf result Why.BadVersion → ⊥) }
    {
        self.ensure_count(devices.disk)?;
        let now = read(devices.clock)?;
        let word = draw(devices.entropy)?;
        self.take(&Event::Resync { now, word, flags }, devices)?;
        Ok(())
    }

    /// The round of a call, and its result.
    fn round<'l, 'c, 'd, 'e, 'o, 'k, L: Link, C: Clock, D: Disk, E: Entropy, O: Sink>(
        &mut self,
        devices: &mut Devices<'l, 'c, 'd, 'e, 'o, 'k, L, C, D, E, O>,
    ) -> Result<u32, Why>
        requires begun { IsBegun self.old }
        ensures borrows { SameBorrows devices.old devices.new }
        ensures disk_alone { devices.new.disk ≡ devices.old.disk }
        ensures entropy_alone { devices.new.entropy ≡ devices.old.entropy }
        ensures round { let seen = ⟦<Devices<'l, 'c, 'd, 'e, 'o, 'k, L, C, D, E, O> as Tells>⟧.seen in
            (others : Seen) (history : History)
            → StandsForHistory (member_of self.old) history
            → RoundAnswers (conf_of (member_of self.old)) history
            (seen others devices.old)
            (seen others devices.new)
            (member_of self.new) (kept_of self.old) (totals_of self.old)
            (totals_of self.new) result }
        ensures begun { OnOk result (IsBegun self.new) }
        ensures sends_none { SendsNone self.old self.new }
        ensures never { IfErr result IsOfReceipt }
    {
        let mut result = NO_DATA;
        for _ in 0..ROUND {
            match devices.link.recv() {
                Receipt::Got(from, bytes) => {
                    let outcome = self.arrive(from, bytes, devices)?;
                    if is_moved(&outcome) {
                        return Ok(DONE);
                    }
                    if is_too_big(&outcome) {
                        result = TOO_BIG;
                    }
                }
                Receipt::Quiet => {
                    self.totals.count_quiet();
                    return Ok(result);
                }
                Receipt::Failed => self.totals.count_lost(),
            }
        }
        Ok(result)
    }
}

/// A reply was accepted.
fn is_moved(outcome: &Outcome) -> bool
    ensures { result ≡ is_moved outcome.now }
{
    matches!(outcome, Outcome::Moved { .. })
}

/// A reply was refused for its offset alone.
fn is_too_big(outcome: &Outcome) -> bool
    ensures { result ≡ is_too_big outcome.now }
{
    matches!(outcome, Outcome::Refused(Reason::TooBig))
}
