//! What the keeper does to the disk, a few calls at a time.
ghost use Rattle.std.specs.Prelude.{◌≡◌, ◌+◌, ◌<◌, ◌≤◌, length, IfOk, IfSome, OnErr, OnOk};
ghost use Rattle.slot_disk.specs.Calls.{IsSynced, LeavesOnly, WasCalled, Written};
ghost use Rattle.stamp_keep.specs.Keep.{KeepCounts, LeavesFromFirst};
ghost use Rattle.stamp_keep.specs.Steps.{HasRead, HasTurned, IsContent, LeavesTorn, TurnedContent};
ghost use Rattle.stamp_keep.specs.Written.{MadeCalls, gate_calls};

use crate::keeper::KeepFault;
use crate::slot::{CLOSED, OPEN};
use slot_disk::{Disk, Put};

/// Syncs the disk, and reads it.
#[tactic(auto, using(crate::proofs::Moments::one_call, crate::proofs::Moments::sync_then_read))]
pub fn read_synced<D: Disk>(disk: &mut D) -> Result<[u8; 256], KeepFault>
    ensures moments { LeavesOnly (D.told disk.old) (D.told disk.new) (D.told disk.old).may_leave }
    ensures begins { LeavesFromFirst (D.told disk.old) (D.told disk.new) (IsContent (D.told disk.old)) }
    ensures read { IfOk result (λ image. HasRead image (D.told disk.old) (D.told disk.new)) }
    ensures calls { (D.told disk.new).time ≤ (D.told disk.old).time + 2 }
    ensures called { WasCalled (D.told disk.old) (D.told disk.new) }
    ensures only_fault { OnErr result (result ≡ Err KeepFault.DiskFault) }
    ensures cause { KeepCounts result (D.faults disk.old) (D.faults disk.new) }
{
    done(disk.sync())?;
    let mut image = [0; 256];
    done(disk.read(&mut image))?;
    Ok(image)
}

/// Writes a piece and syncs.
pub fn write_and_sync<D: Disk>(disk: &mut D, at: usize, piece: &[u8]) -> Result<(), KeepFault>
    requires { at + length piece.now ≤ 256 }
    ensures moments { LeavesTorn at piece.now (D.told disk.old) (D.told disk.new) }
    ensures written { OnOk result (Written at piece.now (D.told disk.old).content (D.told disk.new).content) }
    ensures durable { OnOk result (IsSynced (D.told disk.new)) }
    ensures made { OnOk result (MadeCalls 2 (D.told disk.old) (D.told disk.new)) }
    ensures calls { (D.told disk.new).time ≤ (D.told disk.old).time + 2 }
    ensures called { WasCalled (D.told disk.old) (D.told disk.new) }
    ensures only_fault { OnErr result (result ≡ Err KeepFault.DiskFault) }
    ensures cause { KeepCounts result (D.faults disk.old) (D.faults disk.new) }
{
    done(disk.write_at(at, piece))?;
    done(disk.sync())
}

/// Opens a gate, closes another if there is one, and syncs.
#[tactic(auto, using(crate::proofs::Gates::both_turn, crate::proofs::Gates::one_turns))]
pub fn turn_gates<D: Disk>(disk: &mut D, gate: usize, other: Option<usize>) -> Result<(), KeepFault>
    requires gate { gate < 256 }
    requires other { IfSome other (λ k. k < 256) }
    ensures moments { LeavesOnly (D.told disk.old) (D.told disk.new) (HasTurned (D.told disk.old) gate other) }
    ensures turned { OnOk result (TurnedContent gate other (D.told disk.old).content (D.told disk.new).content) }
    ensures durable { OnOk result (IsSynced (D.told disk.new)) }
    ensures made { OnOk result (MadeCalls (gate_calls other) (D.told disk.old) (D.told disk.new)) }
    ensures calls { (D.told disk.new).time ≤ (D.told disk.old).time + 3 }
    ensures called { WasCalled (D.told disk.old) (D.told disk.new) }
    ensures only_fault { OnErr result (result ≡ Err KeepFault.DiskFault) }
    ensures cause { KeepCounts result (D.faults disk.old) (D.faults disk.new) }
{
    done(disk.write_at(gate, &[OPEN]))?;
    match other {
        Some(at) => {
            done(disk.write_at(at, &[CLOSED]))?;
            done(disk.sync())
        }
        None => done(disk.sync()),
    }
}

/// A call that failed is a fault of the disk.
pub fn done(put: Put) -> Result<(), KeepFault>
    ensures ok { OnOk result (put ≡ Put.Done) }
    ensures err { OnErr result (put ≡ Put.Failed) }
    ensures fault { OnErr result (result ≡ Err KeepFault.DiskFault) }
{
    match put {
        Put::Done => Ok(()),
        Put::Failed => Err(KeepFault::DiskFault),
    }
}
