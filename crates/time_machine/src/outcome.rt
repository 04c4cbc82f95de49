//! What an event leads to.
use edge_traits::{Addr, Datagram};

/// A request that was sent: its timestamp, which is the count and a random word, and the reading of the clock at
/// sending, in ticks of 100 ns since 1 January 1601.
#[derive(Clone, Copy, Debug, Default, PartialEq, Eq)]
pub struct Request {
    /// The seconds of its transmit timestamp: the mark of its life, and one for each request sent since, this one
    /// included. No other request has it.
    pub count: u32,
    /// The fraction of its transmit timestamp.
    pub word: u32,
    /// When it was sent.
    pub at: i64,
}

/// How the clock is corrected.
#[derive(Clone, Copy, Debug, PartialEq, Eq)]
pub enum How {
    /// Bit by bit.
    Slew,
    /// At once.
    Step,
}

/// Why a datagram that arrived is refused, in the order in which they are looked at: the first that applies is
/// given. The order is this project's own.
#[derive(Clone, Copy, Debug, PartialEq, Eq)]
pub enum Reason {
    /// The length is not that of a message of the member's kind.
    BadLength,
    /// It does not come from the present partner's address and port.
    BadSource,
    /// The mode is not 4, server.
    BadMode,
    /// The stratum is not 1 to 15, or the leap indicator is 3: the sender's clock is not synchronized.
    BadStratum,
    /// The originate timestamp is not that of an open request that can be answered at this reading.
    NoRequest,
    /// The key identifier is not the member's RID, in the low 31 bits of a short message; or an extended message
    /// names another digest than the one of this profile.
    BadKeyId,
    /// The checksum is the digest under neither the current nor the previous key of the account.
    BadDigest,
    /// The transmit timestamp is before the receive timestamp, or the delay is negative.
    BadTimes,
    /// The offset is past the limit of its direction.
    TooBig,
}

/// What an event leads to.
#[derive(Drop)]
pub enum Outcome {
    /// A life began, which sends the counts above the mark.
    Started {
        mark: u32,
    },
    /// A Tick that sends nothing.
    Idle,
    /// A request is to be sent.
    Sent {
        /// The partner's address.
        to: Addr,
        /// The seconds of the request's timestamp.
        count: u32,
        /// The request.
        bytes: Datagram,
    },
    /// A reply was accepted, and the clock is to be corrected.
    Moved {
        /// The count of the request that it answers.
        count: u32,
        /// How far the partner's clock is ahead of this one, in ticks of 100 ns.
        offset: i64,
        /// How the clock is to be corrected.
        how: How,
    },
    /// The datagram is refused, and nothing changes.
    Refused(Reason),
}
