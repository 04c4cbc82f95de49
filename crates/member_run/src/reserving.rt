//! Counts are reserved before they are sent.
ghost use Rattle.std.specs.Prelude.{◌≡◌, ◌+◌, ◌≤◌, IfOk, IfSome, IsErrOf, OnOk};
ghost use Rattle.stamp_keep.specs.Image.{mark_of_image};
ghost use Rattle.slot_disk.specs.Calls.{LeavesOnly, WasCalled};
ghost use Rattle.stamp_keep.specs.Keep.{Fits, IsLeft, KeepsMarks, KeepsUnused, StandsAsBefore};
ghost use Rattle.stamp_keep.specs.Keep.{kept_mark};
ghost use Rattle.run_deeds.specs.declared.life_end.Why.{Why};
ghost use Rattle.run_deeds.specs.Marks.{KeepsLoadable};
ghost use Rattle.member_run.specs.Reserving.{DiskBlamed, IsLoadedFrom, LoadedBy, why_of_fault};

use crate::Running;
use run_deeds::Why;
use slot_disk::Disk;
use stamp_keep::{KeepFault, Keeper};

/// The keeper of a disk.
pub(crate) fn load<D: Disk>(disk: &mut D) -> Result<Keeper, Why>
    ensures fits { IfOk result (Fits (D.told disk.new)) }
    ensures mark { IfOk result (λ k. IfSome (D.told disk.old).content
        (λ c. kept_mark k ≡ mark_of_image c)) }
    ensures loads { LoadedBy result (D.told disk.old) }
    ensures loaded { OnOk result (IsLoadedFrom (D.told disk.old) (D.told disk.new)) }

    // A disk of another version is left as it was.
    ensures refused { IsErrOf result Why.BadVersion → IsLeft (D.told disk.old) (D.told disk.new) }

    ensures least { KeepsMarks (D.told disk.old) (D.told disk.new) }
    ensures still_loads { KeepsLoadable (D.told disk.old) (D.told disk.new) }
    ensures any_moment { LeavesOnly (D.told disk.old) (D.told disk.new) (StandsAsBefore (D.told disk.old)) }
    ensures unused { LeavesOnly (D.told disk.old) (D.told disk.new) (KeepsUnused (D.told disk.old)) }
    ensures calls { (D.told disk.new).time ≤ (D.told disk.old).time + 4 }
    ensures called { WasCalled (D.told disk.old) (D.told disk.new) }
    ensures cause { DiskBlamed result (D.faults disk.old) (D.faults disk.new) }
    ensures never_spent { IsErrOf result Why.StampsSpent → ⊥ }
{
    match Keeper::load(disk) {
        Ok(keeper) => Ok(keeper),
        Err(fault) => Err(why_of_fault(fault)),
    }
}

impl Running {
    ghost use Rattle.std.specs.Prelude.{◌≡◌, ◌↔◌, ◌<◌, ◌≤◌, ◌^◌, IsErrOf, OnErr, OnOk};
    ghost use Rattle.stamp_keep.specs.Image.{mark_of_image};
    ghost use Rattle.slot_disk.specs.Calls.{LeavesOnly};
    ghost use Rattle.stamp_keep.specs.Keep.{KeepsMarks, KeepsUnused};
    ghost use Rattle.run_deeds.specs.declared.life_end.Why.{Why};
    ghost use Rattle.run_deeds.specs.Marks.{KeepsLoadable, StopCovers};
    ghost use Rattle.member_run.specs.Running.{CallsWhereDue, IsGoing, IsUsedUp, RisesWhereDue, greatest_of, kept_of};
    ghost use Rattle.member_run.specs.Reserving.{DiskBlamed, Reserves};

    /// Reserves a block of counts, where none is left.
    pub(crate) fn ensure_count<D: Disk>(&mut self, disk: &mut D) -> Result<(), Why>
        requires going { IsGoing (D.told disk.old) self.old }
        ensures going { OnOk result (IsGoing (D.told disk.new) self.new) }
        ensures same { self.new ≡ record self.old { keeper = self.new.keeper } }

        // Then one count more is there.
        ensures room { OnOk result (self.new.last < kept_of self.new) }
        ensures below { OnOk result (kept_of self.new < 2 ^ 32) }
        ensures reserves { OnOk result
            (Reserves self.old.last (kept_of self.old) (kept_of self.new)) }
        ensures least { KeepsMarks (D.told disk.old) (D.told disk.new) }
        ensures still_loads { KeepsLoadable (D.told disk.old) (D.told disk.new) }
        ensures most { RisesWhereDue self.old (D.told disk.old) (D.told disk.new) }
        ensures unused { LeavesOnly (D.told disk.old) (D.told disk.new) (KeepsUnused (D.told disk.old)) }
        ensures calls { CallsWhereDue self.old (D.told disk.old) (D.told disk.new) }

        // At each moment each image stands for at least the mark up to which counts were reserved before.
        ensures any_moment { LeavesOnly (D.told disk.old) (D.told disk.new) (λ image. kept_of self.old ≤ mark_of_image image) }
        ensures stopped { IsErrOf result Why.DiskFault
            → StopCovers (D.told disk.old) (D.told disk.new) (greatest_of self.new) }

        ensures spent { IsErrOf result Why.StampsSpent
            ↔ (IsUsedUp self.old × (4294967231 < kept_of self.old)) }
        ensures spent_still { IsErrOf result Why.StampsSpent → disk.new ≡ disk.old }
        ensures due { OnErr result (IsUsedUp self.old) }
        ensures cause { DiskBlamed result (D.faults disk.old) (D.faults disk.new) }
        ensures never_version { IsErrOf result Why.BadVersion → ⊥ }
        ensures err { OnErr result (self.new ≡ self.old) }
    {
        if self.last < self.keeper.mark() {
            return Ok(());
        }
        match self.keeper.reserve(disk) {
            Ok(_) => Ok(()),
            Err(fault) => Err(why_of_fault(fault)),
        }
    }
}

/// The answer of a run to a fault of its keeper.
fn why_of_fault(fault: KeepFault) -> Why
    ensures { result ≡ why_of_fault fault }
{
    match fault {
        KeepFault::DiskFault => Why::DiskFault,
        KeepFault::BadVersion => Why::BadVersion,
        KeepFault::StampsSpent => Why::StampsSpent,
    }
}
