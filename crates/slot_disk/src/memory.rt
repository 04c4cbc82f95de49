//! A disk in memory. It keeps what it was before each call, as far as its room goes.
ghost use Rattle.std.specs.Prelude.{◌≡◌, ◌<◌, ◌≤◌, length, vec_capacity};

use crate::moment::Moment;
use crate::ranges::{image_of, tear, write};
use crate::{Disk, NoMemory, Put};
use std::alloc::Global;

/// A disk of 256 bytes in memory, which tells all that a disk can tell.
///
/// The calls whose numbers it was given fail, counted from 1. Past its room every call fails, and changes
/// nothing but the count of faults and the time. Until a sync, a write within the room may be torn, whether it was
/// done or failed.
#[derive(Drop)]
pub struct MemoryDisk {
    state: Moment,
    past: Vec<Moment>,
    fails: Vec<u64>,
    room: usize,
    beyond: u64,
    faults: u64,
    ghost memory: { room ≤ vec_capacity past },
    ghost within: { length past.items ≤ room },
    ghost full: { 0 < beyond → room ≤ length past.items },
}

/// What becomes of a call.
#[derive(Clone, Copy)]
enum Turn {
    Passes,
    Fails,
    Beyond,
}

impl MemoryDisk {
    ghost use Rattle.std.specs.Prelude.{◌+◌, ◌⊎◌, IfOk, MatchBool, Some, false, true};
    ghost use Rattle.edge_traits.specs.Sink.{PutCounts};
    ghost use Rattle.slot_disk.specs.Calls.{Elapses, IsSynced, IsUnchanged, Reads, Syncs, Writes};
    ghost use Rattle.slot_disk.specs.Memory.{GoesByPlan, KeepsMoment, TearsByPlan, TurnCounts, TurnsByPlan};
    ghost use Rattle.slot_disk.specs.Memory.{is_listed, memory_faults, memory_tells, plan_of};

    /// A disk that begins with this content, where the calls of these numbers fail, with room for so many
    /// calls. It takes the memory of its room, and answers NoMemory where that can't be had.
    pub fn new(
        alloc: Global,
        content: [u8; 256],
        fails: Vec<u64>,
        room: usize,
    ) -> Result<MemoryDisk, NoMemory>
        ensures content { IfOk result (λ disk. (memory_tells disk).content ≡ Some content) }
        ensures synced { IfOk result (λ disk. IsSynced (memory_tells disk)) }
        ensures unused { IfOk result (λ disk. ((memory_tells disk).time ≡ 0) × (memory_faults disk ≡ 0)) }
        ensures plan { IfOk result (λ disk. plan_of disk ≡ record { fails = fails.items; room = room }) }
    {
        match Vec::with_capacity(alloc, room) {
            Ok(past) => Ok(MemoryDisk {
                state: Moment::synced(content),
                past,
                fails,
                room,
                beyond: 0,
                faults: 0,
            }),
            Err(_) => Err(NoMemory),
        }
    }

    /// What a read gives.
    pub fn content(&self) -> &[u8; 256]
        ensures { (memory_tells self.now).content ≡ Some result.now }
    {
        &self.state.bytes
    }

    /// One of the images that a crash may leave now, chosen by `n`. 0 is the content.
    pub fn pick(&self, n: u32) -> [u8; 256]
        ensures image { (memory_tells self.now).may_leave result }
        ensures content { n ≡ 0 → (memory_tells self.now).content ≡ Some result }
    {
        image_of(&self.state, n)
    }

    /// Whether the call of this number fails, within the room.
    fn fails_at(&self, stopped: bool, number: u64) -> bool
        ensures { MatchBool
            result
            ((is_listed (plan_of self.now) number ≡ true) ⊎ (stopped ≡ true))
            ((is_listed (plan_of self.now) number ≡ false) × (stopped ≡ false)) }
    {
        stopped || self.fails.contains(&number)
    }

    /// Counts a call, and keeps what the disk is before it.
    fn begin(&mut self, stopped: bool) -> Turn
        ensures state { self.new.state ≡ self.old.state }
        ensures moment { KeepsMoment result self.old self.new }
        ensures plan { TurnsByPlan (plan_of self.old) stopped (memory_tells self.old).time result }
        ensures same_plan { plan_of self.new ≡ plan_of self.old }
        ensures cause { TurnCounts result (memory_faults self.old) (memory_faults self.new) }
    {
        if self.past.len() < self.room && self.past.push(self.state).is_ok() {
            if self.fails_at(stopped, self.past.len() as u64) {
                self.faults = self.faults.saturating_add(1);
                Turn::Fails
            } else {
                Turn::Passes
            }
        } else {
            self.beyond = self.beyond.saturating_add(1);
            self.faults = self.faults.saturating_add(1);
            Turn::Beyond
        }
    }

    /// A read, which fails where it is stopped.
    pub(crate) fn read_unless(&mut self, stopped: bool, buf: &mut [u8; 256]) -> Put
        ensures reads { Reads result buf.new (memory_tells self.old) (memory_tells self.new) }
        ensures elapses { Elapses (memory_tells self.old) (memory_tells self.new) }
        ensures cause { PutCounts result (memory_faults self.old) (memory_faults self.new) }
        ensures plan { GoesByPlan (plan_of self.old) stopped (memory_tells self.old).time result }
        ensures same_plan { plan_of self.new ≡ plan_of self.old }
    {
        match self.begin(stopped) {
            Turn::Passes => {
                *buf = self.state.bytes;
                Put::Done
            }
            Turn::Fails => Put::Failed,
            Turn::Beyond => Put::Failed,
        }
    }

    /// A write, which fails where it is stopped.
    pub(crate) fn write_unless(&mut self, stopped: bool, at: usize, piece: &[u8]) -> Put
        requires { at + length piece.now ≤ 256 }
        ensures writes { Writes result at piece.now (memory_tells self.old) (memory_tells self.new) }
        ensures elapses { Elapses (memory_tells self.old) (memory_tells self.new) }
        ensures cause { PutCounts result (memory_faults self.old) (memory_faults self.new) }
        ensures plan { GoesByPlan (plan_of self.old) stopped (memory_tells self.old).time result }
        ensures same_plan { plan_of self.new ≡ plan_of self.old }
        ensures tears { TearsByPlan
            (plan_of self.old)
            at
            (length piece.now)
            (memory_tells self.old)
            (memory_tells self.new) }
    {
        match self.begin(stopped) {
            Turn::Passes => {
                write(&mut self.state, at, piece);
                Put::Done
            }
            Turn::Fails => {
                tear(&mut self.state, at, piece.len());
                Put::Failed
            }
            Turn::Beyond => Put::Failed,
        }
    }

    /// A sync, which fails where it is stopped.
    pub(crate) fn sync_unless(&mut self, stopped: bool) -> Put
        ensures syncs { Syncs result (memory_tells self.old) (memory_tells self.new) }
        ensures elapses { Elapses (memory_tells self.old) (memory_tells self.new) }
        ensures cause { PutCounts result (memory_faults self.old) (memory_faults self.new) }
        ensures plan { GoesByPlan (plan_of self.old) stopped (memory_tells self.old).time result }
        ensures same_plan { plan_of self.new ≡ plan_of self.old }
        ensures failed { result ≡ Put.Failed → IsUnchanged (memory_tells self.old) (memory_tells self.new) }
    {
        match self.begin(stopped) {
            Turn::Passes => {
                self.state.touched = [false; 256];
                Put::Done
            }
            Turn::Fails => Put::Failed,
            Turn::Beyond => Put::Failed,
        }
    }
}

impl Disk for MemoryDisk {
    ghost use Rattle.std.specs.Prelude.{◌+◌, false};
    ghost use Rattle.edge_traits.specs.Sink.{PutCounts};
    ghost use Rattle.slot_disk.specs.Calls.{Elapses, IsUnchanged, Reads, Syncs, Writes};
    ghost use Rattle.slot_disk.specs.Memory.{GoesByPlan, TearsByPlan};
    ghost use Rattle.slot_disk.specs.Memory.{memory_faults, memory_is_disk, memory_tells, plan_of};

    ghost told = { memory_tells };

    ghost faults = { memory_faults };

    ghost is_disk = { memory_is_disk };

    fn read(&mut self, buf: &mut [u8; 256]) -> Put
        ensures reads { Reads result buf.new (memory_tells self.old) (memory_tells self.new) }
        ensures elapses { Elapses (memory_tells self.old) (memory_tells self.new) }
        ensures cause { PutCounts result (memory_faults self.old) (memory_faults self.new) }
        ensures plan { GoesByPlan (plan_of self.old) false (memory_tells self.old).time result }
        ensures same_plan { plan_of self.new ≡ plan_of self.old }
    {
        self.read_unless(false, buf)
    }

    fn write_at(&mut self, at: usize, piece: &[u8]) -> Put
        requires { at + length piece.now ≤ 256 }
        ensures writes { Writes result at piece.now (memory_tells self.old) (memory_tells self.new) }
        ensures elapses { Elapses (memory_tells self.old) (memory_tells self.new) }
        ensures cause { PutCounts result (memory_faults self.old) (memory_faults self.new) }
        ensures plan { GoesByPlan (plan_of self.old) false (memory_tells self.old).time result }
        ensures same_plan { plan_of self.new ≡ plan_of self.old }
        ensures tears { TearsByPlan
            (plan_of self.old)
            at
            (length piece.now)
            (memory_tells self.old)
            (memory_tells self.new) }
    {
        self.write_unless(false, at, piece)
    }

    fn sync(&mut self) -> Put
        ensures syncs { Syncs result (memory_tells self.old) (memory_tells self.new) }
        ensures elapses { Elapses (memory_tells self.old) (memory_tells self.new) }
        ensures cause { PutCounts result (memory_faults self.old) (memory_faults self.new) }
        ensures plan { GoesByPlan (plan_of self.old) false (memory_tells self.old).time result }
        ensures same_plan { plan_of self.new ≡ plan_of self.old }
        ensures failed { result ≡ Put.Failed → IsUnchanged (memory_tells self.old) (memory_tells self.new) }
    {
        self.sync_unless(false)
    }
}
