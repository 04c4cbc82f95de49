//! Why a file is no disk.

use std::fs::TryLockError;
use std::io;
use thiserror::Error;

/// Why a path gives no disk.
#[derive(Debug, Drop, Error)]
pub enum NoDisk {
    /// Another disk has the file, in this process or in another.
    #[error("locked by another process")]
    Locked,
    /// The file has more bytes than a disk.
    #[error("longer than 256 bytes")]
    TooLong,
    /// It is a device, a pipe or the like.
    #[error("not a regular file")]
    NotRegular,
    /// A system call failed.
    #[error("{0}")]
    System(#[from] io::Error),
}

impl From<TryLockError> for NoDisk {
    fn from(error: TryLockError) -> NoDisk {
        match error {
            TryLockError::WouldBlock => NoDisk::Locked,
            TryLockError::Error(error) => NoDisk::System(error),
        }
    }
}
