//! What happened in a run.

use edge_traits::{Addr, Datagram};

/// An event of a run. In each, `now` is the reading of the clock at which it happened, in ticks of 100 ns since
/// 1 January 1601.
#[derive(Drop)]
pub enum Event {
    /// A run began, which sends the counts above `mark`.
    Life {
        now: i64,
        mark: u32,
    },
    /// A turn began. `word` is the random word of the request, if one is sent in it.
    Tick {
        now: i64,
        word: u32,
    },
    /// A request was asked for, with the flags of that call. `word` is its random word.
    Resync {
        now: i64,
        word: u32,
        flags: u32,
    },
    /// A datagram came from this address.
    Arrive {
        now: i64,
        from: Addr,
        bytes: Datagram,
    },
}
