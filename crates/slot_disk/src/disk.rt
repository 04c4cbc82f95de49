//! A disk as its user sees it: what a read gives, and what a crash may leave.

use crate::Put;

/// A disk of 256 bytes.
///
/// A call answers `Failed` exactly where the count of faults rose. The machine may stop at any moment: what
/// then stands on the disk is one of the images that the disk tells for that moment.
pub trait Disk {
    ghost use Rattle.std.specs.Prelude.{ℕ, ◌+◌, ◌≤◌, length};
    ghost use Rattle.edge_traits.specs.Sink.{PutCounts};
    ghost use Rattle.slot_disk.specs.Told.{DiskTold, IsDisk};
    ghost use Rattle.slot_disk.specs.Calls.{Elapses, Reads, Syncs, Writes};

    /// Its content, what a crash may leave of it now or since a time, and the number of calls made.
    ghost told: { Self → DiskTold };

    /// How often a call has failed.
    ghost faults: { Self → ℕ };

    /// What holds of it at every moment.
    ghost is_disk: { (disk : Self) → IsDisk (told disk) };

    /// Reads all 256 bytes. Done or failed, it changes nothing.
    fn read(&mut self, buf: &mut [u8; 256]) -> Put
        ensures reads { Reads result buf.new (told self.old) (told self.new) }
        ensures elapses { Elapses (told self.old) (told self.new) }
        ensures cause { PutCounts result (faults self.old) (faults self.new) };

    /// Writes a piece, whose first byte goes to `at`, within the 256 bytes. Until a sync a crash may leave any bytes
    /// in its range, whether the write was done or failed.
    fn write_at(&mut self, at: usize, piece: &[u8]) -> Put
        requires { at + length piece.now ≤ 256 }
        ensures writes { Writes result at piece.now (told self.old) (told self.new) }
        ensures elapses { Elapses (told self.old) (told self.new) }
        ensures cause { PutCounts result (faults self.old) (faults self.new) };

    /// Brings what was written to the device. After it, a crash leaves what a read gives.
    fn sync(&mut self) -> Put
        ensures syncs { Syncs result (told self.old) (told self.new) }
        ensures elapses { Elapses (told self.old) (told self.new) }
        ensures cause { PutCounts result (faults self.old) (faults self.new) };
}
