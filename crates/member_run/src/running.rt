//! A run between two calls.
use crate::closing::write_closing_lines;
use crate::devices::{Devices, Tells, draw, read};
use crate::reserving::load;
use capture_fmt::Event;
use edge_traits::{Addr, Clock, Datagram, Entropy, Link, Receipt, Sink};
use run_deeds::{LifeEnd, Why};
use slot_disk::Disk;
use sntp_core::{Conf, Member, Outcome};
use stamp_keep::Keeper;

/// A run of a member between two calls. After a call that answered an error no other may follow.
#[derive(Drop)]
pub struct Running {
    pub(crate) member: Member,
    pub(crate) keeper: Keeper,
    /// The count of the last request of this life, or its mark where there was none.
    pub(crate) last: u32,
    pub(crate) totals: LifeEnd,
}

impl Running {
    ghost use Rattle.std.specs.Prelude.{[], ◌∷◌};
    ghost use Rattle.std.specs.Prelude.{◌≡◌, ◌↔◌, ◌+◌, ◌<◌, ◌≤◌, suc, ℕ, List, Option, IfOk, IfErr};
    ghost use Rattle.std.specs.Prelude.{IfSome, IsErrOf, OnOk};
    ghost use Rattle.edge_traits.specs.Link.{LinkCall, Receive, ReceiptCounts, ReceiptFits};
    ghost use Rattle.base_specs.specs.Told.{Grew};
    ghost use Rattle.edge_traits.specs.declared.link.Receipt.{Receipt};
    ghost use Rattle.edge_seen.specs.Seen.{Seen};
    ghost use Rattle.capture_fmt.specs.declared.event.Event.{Event};
    ghost use Rattle.slot_disk.specs.Calls.{LeavesOnly};
    ghost use Rattle.stamp_keep.specs.Image.{mark_of_image};
    ghost use Rattle.stamp_keep.specs.Keep.{IsLeft, IsLoadable, KeepsMarks, KeepsUnused, StandsAsBefore};
    ghost use Rattle.stamp_keep.specs.Slots.{HasOtherVersion};
    ghost use Rattle.time_machine.specs.Events.{History};
    ghost use Rattle.time_machine.specs.Machine.{source_of};
    ghost use Rattle.sntp_core.specs.Standing.{StandsForHistory, conf_of};
    ghost use Rattle.run_deeds.specs.declared.life_end.Why.{Why};
    ghost use Rattle.run_deeds.specs.Counting.{ended};
    ghost use Rattle.run_deeds.specs.Devices.{faults, living};
    ghost use Rattle.run_deeds.specs.Marks.{Covers, KeepsLoadable, StopCovers};
    ghost use Rattle.run_deeds.specs.Parts.{why_of};
    ghost use Rattle.run_deeds.specs.Weaving.{Need, Turns, ReceiptNow};
    ghost use Rattle.member_run.specs.Running.{CallsWhereDue, IsBegun, IsGoing, IsOfReceipt};
    ghost use Rattle.member_run.specs.Running.{IsPart, IsUsedUp, RisesWhereDue, SendsNone};
    ghost use Rattle.member_run.specs.Running.{greatest_of, kept_of, member_of, totals_of};
    ghost use Rattle.member_run.specs.Closing.{Closes};
    ghost use Rattle.member_run.specs.Reserving.{IsLoadedFrom};
    ghost use Rattle.member_run.specs.Taking.{TakesAt, TakesTo};
    ghost use Rattle.member_run.specs.Borrowing.{SameBorrows};
    ghost use Rattle.member_run.specs.Starting.{Begins, IsOfStart, starting};

    /// The first part of a run: the keeper is loaded, the clock is read, and the Life is taken, whose mark is what the
    /// disk stands for. The error is never `Done`, `EntropyFault` or `StampsSpent`.
    pub fn start<C: Clock, D: Disk, O: Sink>(
        conf: Conf,
        clock: &mut C,
        disk: &mut D,
        out: &mut O,
        capture: &mut O,
    ) -> Result<Running, Why>
        // Whatever the run needs behind its Life, and whatever the devices tell that are not asked.
        ensures begins { (others : Seen) (next : Need)
            → Begins conf next (D.told disk.old)
            (starting others (C.told clock.old) (O.written capture.old) (O.written out.old)
            (C.faults clock.old) (D.faults disk.old) (O.faults capture.old) (O.faults out.old))
            (starting others (C.told clock.new) (O.written capture.new) (O.written out.new)
            (C.faults clock.new) (D.faults disk.new) (O.faults capture.new) (O.faults out.new))
            result }
        ensures going { IfOk result (IsGoing (D.told disk.new)) }

        // A disk of another version is refused exactly where it is one, and is left as it was, as is every other device.
        ensures version { IsErrOf result Why.BadVersion
            → IfSome (D.told disk.old).content HasOtherVersion }
        ensures refused { IsErrOf result Why.BadVersion
            → IsLeft (D.told disk.old) (D.told disk.new) }
        ensures untouched { IsErrOf result Why.BadVersion
            → (clock.new ≡ clock.old) × (out.new ≡ out.old) × (capture.new ≡ capture.old) }
        ensures loadable { (IsErrOf result Why.BadVersion → ⊥) → (IsErrOf result Why.DiskFault → ⊥)
            → IfSome (D.told disk.old).content IsLoadable }
        ensures loaded { (IsErrOf result Why.BadVersion → ⊥) → (IsErrOf result Why.DiskFault → ⊥)
            → IsLoadedFrom (D.told disk.old) (D.told disk.new) }

        // Whatever it answers, no image stands for less than one at entry, and a load refuses none that it took at entry.
        // A crash at any moment leaves a mark that an image at entry stood for, and the unused bytes of one.
        ensures least { KeepsMarks (D.told disk.old) (D.told disk.new) }
        ensures any_moment { LeavesOnly (D.told disk.old) (D.told disk.new) (StandsAsBefore (D.told disk.old)) }
        ensures unused { LeavesOnly (D.told disk.old) (D.told disk.new) (KeepsUnused (D.told disk.old)) }
        ensures still_loads { KeepsLoadable (D.told disk.old) (D.told disk.new) }
        ensures calls { (D.told disk.new).time ≤ (D.told disk.old).time + 4 }
        ensures stopped { IsErrOf result Why.DiskFault → StopCovers (D.told disk.old) (D.told disk.new) 0 }
        ensures never { IfErr result IsOfStart }
    {
        let keeper = load(disk)?;
        let mut running = Running {
            member: Member::new(conf),
            keeper,
            last: 0,
            totals: LifeEnd::nothing(Why::Done),
        };
        let now = read(clock)?;
        let mark = running.keeper.mark();
        running.take_life(&Event::Life { now, mark }, out, capture)?;
        Ok(running)
    }

    /// One turn: a block of counts is reserved where none is left, a reading and a word make a Tick, which is taken, and
    /// one receipt is taken. A datagram with the next reading makes an Arrive, which is taken. The error is never `Done`
    /// or `BadVersion`.
    pub fn turn<L: Link, C: Clock, D: Disk, E: Entropy, O: Sink>(
        &mut self,
        link: &mut L,
        clock: &mut C,
        disk: &mut D,
        entropy: &mut E,
        out: &mut O,
        capture: &mut O,
    ) -> Result<(), Why>
        requires going { IsGoing (D.told disk.old) self.old }
        ensures part { (others : Seen) (left : ℕ) → IsPart self.old self.new (Turns (suc left)) (Turns left)
            (living others (L.told link.old) (C.told clock.old) (E.words entropy.old) (O.written capture.old)
            (O.written out.old) (L.faults link.old)
            (faults (C.faults clock.old) (E.faults entropy.old) (D.faults disk.old)
            (O.faults capture.old) (O.faults out.old)))
            (living others (L.told link.new) (C.told clock.new) (E.words entropy.new) (O.written capture.new)
            (O.written out.new) (L.faults link.new)
            (faults (C.faults clock.new) (E.faults entropy.new) (D.faults disk.new)
            (O.faults capture.new) (O.faults out.new)))
            (why_of result) }
        ensures going { OnOk result (IsGoing (D.told disk.new) self.new) }

        // The disk fails, and no mark is left, only where the counts that were reserved are used up. Where none is left,
        // the disk isn't called.
        ensures disk { IsErrOf result Why.DiskFault → IsUsedUp self.old }
        ensures spent { IsErrOf result Why.StampsSpent
            ↔ (IsUsedUp self.old × (4294967231 < kept_of self.old)) }
        ensures spent_still { IsErrOf result Why.StampsSpent → disk.new ≡ disk.old }
        ensures calls { CallsWhereDue self.old (D.told disk.old) (D.told disk.new) }

        // Whatever it answers, no image stands for less than one at entry, or than the greatest count sent, and a load
        // refuses none. A crash at any moment leaves no more than a block that was due, and the unused bytes of an image at
        // entry.
        ensures least { KeepsMarks (D.told disk.old) (D.told disk.new) }
        ensures most { RisesWhereDue self.old (D.told disk.old) (D.told disk.new) }
        ensures unused { LeavesOnly (D.told disk.old) (D.told disk.new) (KeepsUnused (D.told disk.old)) }
        ensures still_loads { KeepsLoadable (D.told disk.old) (D.told disk.new) }
        ensures covers { Covers (D.told disk.new) (greatest_of self.new) }

        // At each moment of the call, so between two calls of the disk too, each image stands for at least the mark up to
        // which counts were reserved before. Where the disk failed, each covers all counts sent, just before that call too.
        ensures any_moment { LeavesOnly (D.told disk.old) (D.told disk.new) (λ image. kept_of self.old ≤ mark_of_image image) }
        ensures stopped { IsErrOf result Why.DiskFault
            → StopCovers (D.told disk.old) (D.told disk.new) (greatest_of self.new) }
        ensures never { (IsErrOf result Why.Done → ⊥) × (IsErrOf result Why.BadVersion → ⊥) }
    {
        let mut devices = Devices {
            link,
            clock,
            disk,
            entropy,
            out,
            capture,
        };
        self.tick(&mut devices)?;
        let receipt = devices.link.recv();
        self.receive(receipt, &mut devices)
    }

    /// The place in rank, from 0, of the partner whose reply was last accepted in this run.
    pub fn source(&self) -> Option<usize>
        ensures { (history : History) → StandsForHistory (member_of self.now) history
            → result ≡ source_of (conf_of (member_of self.now)) history }
    {
        self.member.source()
    }

    /// What the run came to so far. Its `why` is `Done`.
    pub fn totals(&self) -> LifeEnd
        ensures { result ≡ totals_of self.now }
    {
        self.totals
    }

    /// The first part of a turn, up to the receipt.
    pub(crate) fn tick<'l, 'c, 'd, 'e, 'o, 'k, L: Link, C: Clock, D: Disk, E: Entropy, O: Sink>(
        &mut self,
        devices: &mut Devices<'l, 'c, 'd, 'e, 'o, 'k, L, C, D, E, O>,
    ) -> Result<(), Why>
        requires going { IsGoing (D.told devices.old.disk.now) self.old }
        ensures borrows { SameBorrows devices.old devices.new }
        ensures part { let seen = ⟦<Devices<'l, 'c, 'd, 'e, 'o, 'k, L, C, D, E, O> as Tells>⟧.seen in
            (others : Seen) (left : ℕ) → IsPart self.old self.new (Turns (suc left)) (ReceiptNow left)
            (seen others devices.old)
            (seen others devices.new)
            (why_of result) }
        ensures going { OnOk result (IsGoing (D.told devices.new.disk.now) self.new) }
        ensures disk { IsErrOf result Why.DiskFault → IsUsedUp self.old }
        ensures spent { IsErrOf result Why.StampsSpent
            ↔ (IsUsedUp self.old × (4294967231 < kept_of self.old)) }
        ensures spent_still { IsErrOf result Why.StampsSpent → devices.new.disk.now ≡ devices.old.disk.now }
        ensures calls { CallsWhereDue self.old (D.told devices.old.disk.now) (D.told devices.new.disk.now) }
        ensures least { KeepsMarks (D.told devices.old.disk.now) (D.told devices.new.disk.now) }
        ensures most { RisesWhereDue self.old (D.told devices.old.disk.now) (D.told devices.new.disk.now) }
        ensures unused { LeavesOnly (D.told devices.old.disk.now) (D.told devices.new.disk.now)
            (KeepsUnused (D.told devices.old.disk.now)) }
        ensures still_loads { KeepsLoadable (D.told devices.old.disk.now) (D.told devices.new.disk.now) }
        ensures covers { Covers (D.told devices.new.disk.now) (greatest_of self.new) }
        ensures any_moment { LeavesOnly (D.told devices.old.disk.now) (D.told devices.new.disk.now)
            (λ image. kept_of self.old ≤ mark_of_image image) }
        ensures stopped { IsErrOf result Why.DiskFault
            → StopCovers (D.told devices.old.disk.now) (D.told devices.new.disk.now) (greatest_of self.new) }
        ensures never { (IsErrOf result Why.Done → ⊥) × (IsErrOf result Why.BadVersion → ⊥) }
    {
        self.ensure_count(devices.disk)?;
        let now = read(devices.clock)?;
        let word = draw(devices.entropy)?;
        self.take(&Event::Tick { now, word }, devices)?;
        Ok(())
    }

    /// A receipt of a turn, which the link gave at its last call: what arrived in it is taken, and any other is counted.
    pub(crate) fn receive<'l, 'c, 'd, 'e, 'o, 'k, L: Link, C: Clock, D: Disk, E: Entropy, O: Sink>(
        &mut self,
        receipt: Receipt,
        devices: &mut Devices<'l, 'c, 'd, 'e, 'o, 'k, L, C, D, E, O>,
    ) -> Result<(), Why>
        requires begun { IsBegun self.old }
        requires fits { ReceiptFits receipt }
        ensures borrows { SameBorrows devices.old devices.new }
        ensures disk_alone { devices.new.disk ≡ devices.old.disk }
        ensures entropy_alone { devices.new.entropy ≡ devices.old.entropy }
        ensures part { let seen = ⟦<Devices<'l, 'c, 'd, 'e, 'o, 'k, L, C, D, E, O> as Tells>⟧.seen in
            (others : Seen) (left : ℕ)
            (told : Option (List LinkCall)) (faults_told : ℕ)
            → Grew told (L.told devices.old.link.now) (Receive receipt ∷ [])
            → ReceiptCounts receipt faults_told (L.faults devices.old.link.now)
            → IsPart self.old self.new (ReceiptNow left) (Turns left)
            (record (seen others devices.old) { link = told; link_faults = faults_told })
            (seen others devices.new)
            (why_of result) }
        ensures begun { OnOk result (IsBegun self.new) }
        ensures sends_none { SendsNone self.old self.new }
        ensures never { IfErr result IsOfReceipt }
    {
        match receipt {
            Receipt::Got(from, bytes) => {
                self.arrive(from, bytes, devices)?;
                Ok(())
            }
            Receipt::Quiet => {
                self.totals.count_quiet();
                Ok(())
            }
            Receipt::Failed => {
                self.totals.count_lost();
                Ok(())
            }
        }
    }

    /// A datagram that was received: with the next reading it makes an Arrive, which is taken.
    pub(crate) fn arrive<'l, 'c, 'd, 'e, 'o, 'k, L: Link, C: Clock, D: Disk, E: Entropy, O: Sink>(
        &mut self,
        from: Addr,
        bytes: Datagram,
        devices: &mut Devices<'l, 'c, 'd, 'e, 'o, 'k, L, C, D, E, O>,
    ) -> Result<Outcome, Why>
        requires begun { IsBegun self.old }
        requires fits { ReceiptFits (Receipt.Got from bytes) }
        ensures borrows { SameBorrows devices.old devices.new }
        ensures disk_alone { devices.new.disk ≡ devices.old.disk }
        ensures entropy_alone { devices.new.entropy ≡ devices.old.entropy }
        ensures takes { let seen = ⟦<Devices<'l, 'c, 'd, 'e, 'o, 'k, L, C, D, E, O> as Tells>⟧.seen in
            (others : Seen) (history : History)
            → StandsForHistory (member_of self.old) history
            → TakesAt (conf_of (member_of self.old)) history (λ now. Event.Arrive now from bytes)
            (seen others devices.old)
            (seen others devices.new)
            (member_of self.new) (totals_of self.old) (totals_of self.new) (why_of result) }
        // The answer is what it led to.
        ensures outcome { let seen = ⟦<Devices<'l, 'c, 'd, 'e, 'o, 'k, L, C, D, E, O> as Tells>⟧.seen in
            IfOk result (λ outcome. (others : Seen)
            (history : History) → StandsForHistory (member_of self.old) history
            → TakesTo (conf_of (member_of self.old)) history (λ now. Event.Arrive now from bytes)
            (seen others devices.old)
            (seen others devices.new)
            (member_of self.new) (totals_of self.old) (totals_of self.new) outcome) }
        ensures begun { IsBegun self.new }
        ensures sends_none { SendsNone self.old self.new }
        ensures never { IfErr result IsOfReceipt }
    {
        let now = read(devices.clock)?;
        self.take(&Event::Arrive { now, from, bytes }, devices)
    }

    /// Writes the closing lines of a run: the numbers of what it came to, and the line of the link. The error is
    /// `SinkFault`.
    pub fn close<O: Sink>(&self, out: &mut O) -> Result<(), Why>
        ensures { Closes (totals_of self.now) (why_of result)
            (O.written out.old) (O.written out.new) (O.faults out.old) (O.faults out.new) }
    {
        write_closing_lines(&self.totals, out)
    }
}
