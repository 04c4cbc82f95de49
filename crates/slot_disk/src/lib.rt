//! A disk of 256 bytes, by what a crash may leave of it.
//!
//! The trait [`Disk`] tells what a read gives, which images a crash may leave now or may have left since a time,
//! how many calls were made and how many of them failed. Between two syncs each range that was written may hold
//! any bytes; all other bytes stay. The layer above may rely on the clauses of the trait alone: it speaks of
//! every image, and never of what the disk was doing when the machine stopped.
//!
//! [`MemoryDisk`] tells all of this, and fails the calls that a test lists. [`FuseDisk`] stops after so many
//! calls, as a machine that is switched off. Both say which of their calls fail, and that a write within the room,
//! done or failed, tears as freely as the model allows. [`FileDisk`] is a file of 256 bytes and tells neither content
//! nor images; what the device keeps is trusted. A longer file and what is no regular file are no disk: they are left
//! as they are. [`NoDisk`] says why a path gives none, and that another disk has the file. Each call of a disk without
//! a file fails.
//!
//! It stands on `edge_traits` for the answer of a call, on `base_specs` for counts and on `thiserror`. The model is
//! `specs/Told.antt` and `specs/Calls.antt`; `specs/Moments.antt` and `specs/Memory.antt` are the disk in memory,
//! `specs/Fuse.antt` and `specs/File.antt` the other two.
#![tactic(auto)]

mod disk;
mod file;
mod fuse;
mod memory;
mod moment;
mod no_disk;
mod ranges;
#[cfg(test)]
mod tests;

pub use disk::Disk;
pub use edge_traits::Put;
pub use file::FileDisk;
pub use fuse::FuseDisk;
pub use memory::MemoryDisk;
pub use no_disk::NoDisk;

/// Bytes on a disk.
pub const DISK_LEN: usize = 256;

/// Want of memory.
#[derive(Clone, Copy, Debug, PartialEq, Eq)]
pub struct NoMemory;
