//! Why there is no directory, or no ranking.
use thiserror::Error;

/// Why a text gives no directory.
#[derive(Clone, Copy, Debug, PartialEq, Eq, Error)]
pub enum DirFault {
    /// The first bad line, counted from 1, begins as a computer line and spells no entry.
    #[error("line {0} spells no computer")]
    BadLine(u32),
    /// The first bad line, counted from 1, spells an entry whose name stands on an earlier computer line.
    #[error("line {0} has the name of an earlier line")]
    TwiceName(u32),
    /// There is no memory for the entries.
    #[error("no memory")]
    NoMemory,
}

/// There is no memory for the places.
#[derive(Clone, Copy, Debug, PartialEq, Eq, Error)]
#[error("no memory")]
pub struct NoMemory;
