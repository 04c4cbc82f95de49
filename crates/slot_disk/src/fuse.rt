//! A disk that stops after so many calls, as a machine that is switched off.
ghost use Rattle.std.specs.Prelude.{◌≡◌, ◌+◌, ◌-◌, ◌≤◌, ◌==◌, IsOkAnd, length};
ghost use Rattle.slot_disk.specs.Fuse.{disk_of, left_of};

use crate::{Disk, MemoryDisk, NoMemory, Put};
use std::alloc::Global;

/// A disk in memory of which so many calls pass and every later one fails.
///
/// A write that the fuse fails may be torn. The room is that of the disk.
#[derive(Drop)]
pub struct FuseDisk {
    disk: MemoryDisk,
    left: u64,
}

impl FuseDisk {
    /// Passes `k` calls of this disk. It takes no memory.
    pub fn new(_alloc: Global, disk: MemoryDisk, k: u64) -> Result<FuseDisk, NoMemory>
        ensures { IsOkAnd result (λ fuse. (disk_of fuse ≡ disk) × (left_of fuse ≡ k)) }
    {
        Ok(FuseDisk { disk, left: k })
    }

    /// The disk below.
    pub fn disk(&self) -> &MemoryDisk
        ensures { result.now ≡ disk_of self.now }
    {
        &self.disk
    }

    /// Uses up one call, and says whether the fuse had blown.
    fn burn(&mut self) -> bool
        ensures stopped { result ≡ (left_of self.old == 0) }
        ensures left { left_of self.new ≡ left_of self.old - 1 }
        ensures disk { self.new.disk ≡ self.old.disk }
    {
        let blown = self.left == 0;
        self.left = self.left.saturating_sub(1);
        blown
    }
}

impl Disk for FuseDisk {
    ghost use Rattle.edge_traits.specs.Sink.{PutCounts};
    ghost use Rattle.slot_disk.specs.Calls.{Elapses, IsUnchanged, Reads, Syncs, Writes};
    ghost use Rattle.slot_disk.specs.Fuse.{BurnsFuse, fuse_faults, fuse_tells};
    ghost use Rattle.slot_disk.specs.Memory.{TearsByPlan, memory_is_disk, plan_of};

    ghost told = { fuse_tells };

    ghost faults = { fuse_faults };

    ghost is_disk = { λ fuse. memory_is_disk (disk_of fuse) };

    fn read(&mut self, buf: &mut [u8; 256]) -> Put
        ensures reads { Reads result buf.new (fuse_tells self.old) (fuse_tells self.new) }
        ensures elapses { Elapses (fuse_tells self.old) (fuse_tells self.new) }
        ensures cause { PutCounts result (fuse_faults self.old) (fuse_faults self.new) }
        ensures fuse { BurnsFuse self.old self.new result }
    {
        let blown = self.burn();
        self.disk.read_unless(blown, buf)
    }

    fn write_at(&mut self, at: usize, piece: &[u8]) -> Put
        requires { at + length piece.now ≤ 256 }
        ensures writes { Writes result at piece.now (fuse_tells self.old) (fuse_tells self.new) }
        ensures elapses { Elapses (fuse_tells self.old) (fuse_tells self.new) }
        ensures cause { PutCounts result (fuse_faults self.old) (fuse_faults self.new) }
        ensures fuse { BurnsFuse self.old self.new result }
        ensures tears { TearsByPlan
            (plan_of (disk_of self.old))
            at
            (length piece.now)
            (fuse_tells self.old)
            (fuse_tells self.new) }
    {
        let blown = self.burn();
        self.disk.write_unless(blown, at, piece)
    }

    fn sync(&mut self) -> Put
        ensures syncs { Syncs result (fuse_tells self.old) (fuse_tells self.new) }
        ensures elapses { Elapses (fuse_tells self.old) (fuse_tells self.new) }
        ensures cause { PutCounts result (fuse_faults self.old) (fuse_faults self.new) }
        ensures fuse { BurnsFuse self.old self.new result }
        ensures failed { result ≡ Put.Failed → IsUnchanged (fuse_tells self.old) (fuse_tells self.new) }
    {
        let blown = self.burn();
        self.disk.sync_unless(blown)
    }
}
