//! Why there is no book, or no text of one.
use thiserror::Error;

/// Why a text of accounts gives no book.
#[derive(Clone, Copy, Debug, PartialEq, Eq, Error)]
pub enum BookFault {
    /// The first bad line, counted from 1, begins as an account line and spells no account.
    #[error("line {0} spells no account")]
    BadLine(u32),
    /// The first bad line, counted from 1, spells an account whose RID stands on an earlier account line.
    #[error("line {0} has the RID of an earlier line")]
    TwiceRid(u32),
    /// There is no memory for the accounts.
    #[error("no memory")]
    NoMemory,
}

/// There is no memory for the text.
#[derive(Clone, Copy, Debug, PartialEq, Eq, Error)]
#[error("no memory")]
pub struct NoMemory;
