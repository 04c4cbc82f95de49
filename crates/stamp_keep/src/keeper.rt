//! The keeper of the mark.
ghost use Rattle.std.specs.Prelude.{◌≡◌, ◌⊎◌, ◌+◌, ◌<◌, ◌≤◌, IfOk, IfSome, IsErrOf, OnErr, OnOk, true, false};
ghost use Rattle.slot_disk.specs.Calls.{LeavesOnly, WasCalled, Written};
ghost use Rattle.stamp_keep.specs.Image.{mark_of_image};
ghost use Rattle.stamp_keep.specs.Keep.{Fits, IsLeft, IsLoadable, KeepCounts, KeepsMarks, KeepsUnused};
ghost use Rattle.stamp_keep.specs.Keep.{LeavesFromFirst, RefusedAsBefore, StandsAsBefore, StandsAsRead};
ghost use Rattle.stamp_keep.specs.Keep.{StandsForEither, kept_mark};
ghost use Rattle.stamp_keep.specs.Slots.{HasOtherVersion, IsOurs, IsTarget, Remembers, place};
ghost use Rattle.stamp_keep.specs.Steps.{AllStaged, IsMadeFrom, IsMadeOr, IsOnlyImage, KeepsSettled, TurnedContent};
ghost use Rattle.stamp_keep.specs.Steps.{body, closing, next};
ghost use Rattle.stamp_keep.specs.Written.{LoadedContent, LoadedIn, MadeCalls, ReservedContent, ShutContent, ShutIn};
ghost use Rattle.stamp_keep.specs.Written.{gate_calls, reserve_calls};

use crate::slot::{CLOSED, OPEN, Slot, VERSION, body_of};
use crate::steps::{read_synced, turn_gates, write_and_sync};
use crate::survey::{Held, survey};
use slot_disk::Disk;

/// Counts that one reserve adds to the mark.
const BLOCK: u32 = 64;

/// The greatest mark from which a block more fits.
const LAST_MARK: u32 = u32::MAX - BLOCK;

/// Why a keeper could not be loaded, or no counts reserved.
#[derive(Clone, Copy, Debug, PartialEq, Eq)]
pub enum KeepFault {
    /// A call of the disk failed.
    DiskFault,
    /// The open slot with the greatest mark, of equals the lowest, has a version other than 1.
    BadVersion,
    /// The mark is above 4,294,967,231.
    StampsSpent,
}

/// What a life knows of its disk. It fits the disk after a load or a reserve that answered Ok, as long as nobody
/// writes there.
#[derive(Clone, Copy, Debug, PartialEq, Eq)]
pub struct Keeper {
    /// The mark up to which counts are reserved; 0 where no slot is open.
    mark: u32,
    /// The open slot with the greatest mark, of equals the lowest, if one is open.
    newest: Slot,
    /// Whether that slot is open. Where it isn't, none is.
    newest_open: bool,
    /// The slot that is written next. A load and a reserve leave it closed.
    target: Slot,
    /// The slot that is left.
    third: Slot,
    /// Whether that slot is open.
    third_open: bool,
}

impl Keeper {
    /// The keeper with these slots.
    pub(crate) fn of_slots(newest: Held, target: Held, third: Held) -> Keeper
        ensures newest { (result.newest ≡ newest.slot) × (result.newest_open ≡ newest.is_open) }
        ensures mark { newest.is_open ≡ true → result.mark ≡ newest.mark }
        ensures no_mark { newest.is_open ≡ false → result.mark ≡ 0 }
        ensures target { result.target ≡ target.slot }
        ensures third { (result.third ≡ third.slot) × (result.third_open ≡ third.is_open) }
    {
        Keeper {
            mark: if newest.is_open { newest.mark } else { 0 },
            newest: newest.slot,
            newest_open: newest.is_open,
            target: target.slot,
            third: third.slot,
            third_open: third.is_open,
        }
    }

    /// The keeper of what the disk stands for. It begins with a sync, and makes at most four calls. A disk of
    /// another version is refused and nothing is written; after a fault of the disk it must be loaded again.
    #[tactic(auto, using(crate::proofs::Loading::load_rules))]
    pub fn load<D: Disk>(disk: &mut D) -> Result<Keeper, KeepFault>
        ensures mark { IfOk result (λ k. IfSome (D.told disk.old).content (λ c. kept_mark k ≡ mark_of_image c)) }

        // Then every image stands for the keeper's mark, and can be loaded.
        ensures fits { IfOk result (Fits (D.told disk.new)) }

        // It writes nothing but the closed gate of the slot that is written next, where that one is open.
        ensures written { IfOk result (λ k.
            LoadedContent k (D.told disk.old).content (D.told disk.new).content) }
        ensures made { IfOk result (λ k. LoadedIn k (D.told disk.old) (D.told disk.new)) }

        // The first call is a sync: from its end on each image stands for what the content stands for.
        ensures begins { LeavesFromFirst (D.told disk.old) (D.told disk.new) (StandsAsRead (D.told disk.old)) }

        // A crash at any moment of the call leaves an image that stands for a mark that one at its entry stood for,
        // has another version only where one at its entry had it, and has its unused bytes from there.
        ensures any_moment { LeavesOnly (D.told disk.old) (D.told disk.new) (StandsAsBefore (D.told disk.old)) }
        ensures loadable { LeavesOnly (D.told disk.old) (D.told disk.new) (RefusedAsBefore (D.told disk.old)) }
        ensures unused { LeavesOnly (D.told disk.old) (D.told disk.new) (KeepsUnused (D.told disk.old)) }
        ensures least { KeepsMarks (D.told disk.old) (D.told disk.new) }
        ensures calls { (D.told disk.new).time ≤ (D.told disk.old).time + 4 }
        ensures called { WasCalled (D.told disk.old) (D.told disk.new) }

        // Another version is refused exactly where the newest open slot has it, and then nothing was written.
        ensures version { IsErrOf result KeepFault.BadVersion → IfSome (D.told disk.old).content HasOtherVersion }
        ensures version_ok { OnOk result (IfSome (D.told disk.old).content IsLoadable) }
        ensures refused { IsErrOf result KeepFault.BadVersion → IsLeft (D.told disk.old) (D.told disk.new) }

        ensures never_spent { IsErrOf result KeepFault.StampsSpent → ⊥ }
        ensures cause { KeepCounts result (D.faults disk.old) (D.faults disk.new) }
    {
        let image = read_synced(disk)?;
        let keeper = Keeper::of_image(&image)?;
        keeper.shut_target(disk, &image)?;
        Ok(keeper)
    }

    /// The mark up to which counts are reserved.
    pub fn mark(&self) -> u32
        ensures { result ≡ kept_mark self.now }
    {
        self.mark
    }

    /// Reserves 64 counts, and gives the new mark. It makes at most five calls. After a fault of the disk the
    /// keeper must be loaded again.
    pub fn reserve<D: Disk>(&mut self, disk: &mut D) -> Result<u32, KeepFault>
        requires { Fits (D.told disk.old) self.old }

        ensures mark { IfOk result (λ mark. (mark ≡ kept_mark self.old + 64) × (kept_mark self.new ≡ mark)) }

        // Then the content and every image stand for the new mark, and can be loaded.
        ensures fits { OnOk result (Fits (D.told disk.new) self.new) }

        // The slot that was to be written holds the mark, the third one is closed, and every other byte is as before.
        // Then the third slot is written next.
        ensures written { IfOk result (λ mark.
            ReservedContent self.old mark (D.told disk.old).content (D.told disk.new).content) }
        ensures turns { IfOk result (λ mark. self.new ≡ next self.old mark) }
        ensures made { OnOk result (MadeCalls (reserve_calls self.old)
            (D.told disk.old) (D.told disk.new)) }

        // A crash at any moment of the call leaves an image that stands for the old mark or the new one, can be
        // loaded, and has its unused bytes from an image at entry.
        ensures any_moment { LeavesOnly
            (D.told disk.old)
            (D.told disk.new)
            (StandsForEither (kept_mark self.old) (kept_mark self.old + 64)) }
        ensures loadable { LeavesOnly (D.told disk.old) (D.told disk.new) IsLoadable }
        ensures unused { LeavesOnly (D.told disk.old) (D.told disk.new) (KeepsUnused (D.told disk.old)) }

        // Whatever it answers, no image stands for less than one at entry.
        ensures least { KeepsMarks (D.told disk.old) (D.told disk.new) }
        ensures calls { (D.told disk.new).time ≤ (D.told disk.old).time + 5 }
        ensures called { IsErrOf result KeepFault.StampsSpent ⊎ WasCalled (D.told disk.old) (D.told disk.new) }

        ensures spent { IsErrOf result KeepFault.StampsSpent → (4294967231 < kept_mark self.old) × (disk.new ≡ disk.old) }
        ensures not_spent { 4294967231 < kept_mark self.old → IsErrOf result KeepFault.StampsSpent }
        ensures never_version { IsErrOf result KeepFault.BadVersion → ⊥ }
        ensures err { OnErr result (self.new ≡ self.old) }
        ensures cause { KeepCounts result (D.faults disk.old) (D.faults disk.new) }
    {
        if self.mark > LAST_MARK {
            return Err(KeepFault::StampsSpent);
        }
        let mark = self.mark + BLOCK;
        self.write_mark(disk, mark)?;
        Ok(mark)
    }

    /// The keeper of an image, whose target may still be open.
    fn of_image(image: &[u8; 256]) -> Result<Keeper, KeepFault>
        ensures remembers { IfOk result (λ k. Remembers k image.now) }
        ensures target { IfOk result (λ k. IsTarget image.now k.target) }
        ensures ours { IfOk result (λ k. IsOurs k image.now) }
        ensures version_ok { OnOk result (IsLoadable image.now) }
        ensures version { OnErr result (HasOtherVersion image.now) }
        ensures only_version { OnErr result (result ≡ Err KeepFault.BadVersion) }
    {
        let keeper = survey(image);
        if keeper.newest_open && image[keeper.newest.at() + 1] != VERSION {
            return Err(KeepFault::BadVersion);
        }
        Ok(keeper)
    }

    /// Closes the target, where it is open. The image is the one that was read.
    fn shut_target<D: Disk>(&self, disk: &mut D, image: &[u8; 256]) -> Result<(), KeepFault>
        requires remembers { Remembers self.now image.now }
        requires ours { IsOurs self.now image.now }
        requires only { IsOnlyImage image.now (D.told disk.old) }
        ensures moments { LeavesOnly (D.told disk.old) (D.told disk.new) (IsMadeFrom (D.told disk.old)) }
        ensures fits { OnOk result (Fits (D.told disk.new) self.now) }
        ensures written { OnOk result (ShutContent self.now.target
            (D.told disk.old).content (D.told disk.new).content) }
        ensures made { OnOk result (ShutIn self.now.target image.now (D.told disk.old) (D.told disk.new)) }
        ensures calls { (D.told disk.new).time ≤ (D.told disk.old).time + 2 }
        ensures only_fault { OnErr result (result ≡ Err KeepFault.DiskFault) }
        ensures cause { KeepCounts result (D.faults disk.old) (D.faults disk.new) }
    {
        if image[self.target.at()] == OPEN {
            write_and_sync(disk, self.target.at(), &[CLOSED])
        } else {
            Ok(())
        }
    }

    /// Writes a greater mark, and remembers the slot that holds it as the newest.
    fn write_mark<D: Disk>(&mut self, disk: &mut D, mark: u32) -> Result<(), KeepFault>
        requires fits { Fits (D.told disk.old) self.old }
        requires grows { kept_mark self.old < mark }
        ensures mark { OnOk result (kept_mark self.new ≡ mark) }
        ensures written { OnOk result (ReservedContent self.old mark
            (D.told disk.old).content (D.told disk.new).content) }
        ensures turns { OnOk result (self.new ≡ next self.old mark) }
        ensures made { OnOk result (MadeCalls (reserve_calls self.old)
            (D.told disk.old) (D.told disk.new)) }
        ensures fits { OnOk result (Fits (D.told disk.new) self.new) }
        ensures any_moment { LeavesOnly (D.told disk.old) (D.told disk.new) (StandsForEither (kept_mark self.old) mark) }
        ensures loadable { LeavesOnly (D.told disk.old) (D.told disk.new) IsLoadable }
        ensures unused { LeavesOnly (D.told disk.old) (D.told disk.new) (KeepsUnused (D.told disk.old)) }
        ensures least { KeepsMarks (D.told disk.old) (D.told disk.new) }
        ensures calls { (D.told disk.new).time ≤ (D.told disk.old).time + 5 }
        ensures err { OnErr result (self.new ≡ self.old) }
        ensures called { WasCalled (D.told disk.old) (D.told disk.new) }
        ensures only_fault { OnErr result (result ≡ Err KeepFault.DiskFault) }
        ensures cause { KeepCounts result (D.faults disk.old) (D.faults disk.new) }
    {
        self.stage(disk, mark)?;
        self.switch(disk, mark)?;
        *self = self.next(mark);
        Ok(())
    }

    /// Puts the version and the mark behind the gate of the target, which stays closed.
    #[tactic(auto, using(crate::proofs::Staging::stage_holds, crate::proofs::Staging::stage_moments))]
    fn stage<D: Disk>(&self, disk: &mut D, mark: u32) -> Result<(), KeepFault>
        requires { Fits (D.told disk.old) self.now }
        ensures moments { KeepsSettled self.now (D.told disk.old) (D.told disk.new) }
        ensures staged { OnOk result (AllStaged (D.told disk.new) self.now mark) }
        ensures written { OnOk result (Written (place self.now.target + 1) (body mark)
            (D.told disk.old).content (D.told disk.new).content) }
        ensures made { OnOk result (MadeCalls 2 (D.told disk.old) (D.told disk.new)) }
        ensures calls { (D.told disk.new).time ≤ (D.told disk.old).time + 2 }
        ensures called { WasCalled (D.told disk.old) (D.told disk.new) }
        ensures only_fault { OnErr result (result ≡ Err KeepFault.DiskFault) }
        ensures cause { KeepCounts result (D.faults disk.old) (D.faults disk.new) }
    {
        write_and_sync(disk, self.target.at() + 1, &body_of(mark))
    }

    /// Opens the target, which holds the mark, and closes the third slot, where it is open.
    fn switch<D: Disk>(&self, disk: &mut D, mark: u32) -> Result<(), KeepFault>
        requires staged { AllStaged (D.told disk.old) self.now mark }
        requires grows { kept_mark self.now < mark }
        ensures moments { LeavesOnly (D.told disk.old) (D.told disk.new) (IsMadeOr mark (D.told disk.old)) }
        ensures fits { OnOk result (Fits (D.told disk.new) (next self.now mark)) }
        ensures turned { OnOk result (TurnedContent (place self.now.target) (closing self.now)
            (D.told disk.old).content (D.told disk.new).content) }
        ensures made { OnOk result (MadeCalls (gate_calls (closing self.now))
            (D.told disk.old) (D.told disk.new)) }
        ensures calls { (D.told disk.new).time ≤ (D.told disk.old).time + 3 }
        ensures called { WasCalled (D.told disk.old) (D.told disk.new) }
        ensures only_fault { OnErr result (result ≡ Err KeepFault.DiskFault) }
        ensures cause { KeepCounts result (D.faults disk.old) (D.faults disk.new) }
    {
        turn_gates(disk, self.target.at(), self.to_close())
    }

    /// The gate to be closed in a reserve.
    #[tactic(auto, unfolding(crate::specs::Steps::closing))]
    fn to_close(&self) -> Option<usize>
        ensures to_close { result ≡ closing self.now }
        ensures within { IfSome result (λ at. at < 256) }
    {
        if self.third_open {
            Some(self.third.at())
        } else {
            None
        }
    }

    /// The keeper after this mark was written.
    fn next(&self, mark: u32) -> Keeper
        ensures { result ≡ next self.now mark }
    {
        Keeper {
            mark,
            newest: self.target,
            newest_open: true,
            target: self.third,
            third: self.newest,
            third_open: self.newest_open,
        }
    }
}
