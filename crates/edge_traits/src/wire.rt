//! Sessions of bytes, one after the other.

use crate::{Put, Take};

/// What a request for a session gave.
#[derive(Clone, Copy, Debug, PartialEq, Eq)]
pub enum Opened {
    /// A session is open, and the one before it is closed.
    Session,
    /// No session will come.
    NoMore,
    /// The request failed.
    Failed,
}

/// Sessions, one open at a time. What is read and written is of the open one.
pub trait Wire {
    ghost use Rattle.std.specs.Prelude.{◌≡◌, ◌<◌, ℕ, Bool, false, List, length, Option};
    ghost use Rattle.edge_traits.specs.Sink.{PutCounts};
    ghost use Rattle.edge_traits.specs.Source.{TakeCounts};
    ghost use Rattle.edge_traits.specs.Wire.{is_session, Entry, OpenedCounts, Opens, WireReads, WireWrites};

    /// One entry for each answer of `next_session`, the newest last, where the wire tells them.
    ghost told: { Self → Option (List Entry) };

    /// Whether a session is open: the last answer of `next_session` was Session.
    ghost is_open: { Self → Bool };

    /// How often `next_session` or a read has failed.
    ghost faults: { Self → ℕ };

    /// How often a write has failed.
    ghost write_faults: { Self → ℕ };

    /// Closes the session that is open, and opens the next.
    fn next_session(&mut self) -> Opened
        ensures opens { Opens result (told self.old) (told self.new) }
        ensures open { is_open self.new ≡ is_session result }
        ensures cause { OpenedCounts result (faults self.old) (faults self.new) }
        ensures writes { write_faults self.new ≡ write_faults self.old };

    /// Reads some of the bytes that are left of the open session, and answers `End` exactly where none is left or
    /// no session is open.
    fn read(&mut self, buf: &mut [u8]) -> Take
        requires { 0 < length buf.old }
        ensures bytes { WireReads result (is_open self.old) buf.new (told self.old) (told self.new) }
        ensures no_session { is_open self.old ≡ false → result ≡ Take.End }
        ensures open { is_open self.new ≡ is_open self.old }
        ensures cause { TakeCounts result (faults self.old) (faults self.new) }
        ensures writes { write_faults self.new ≡ write_faults self.old };

    /// Writes a piece at the end of what was written to the open session. It fails where none is open.
    fn write(&mut self, piece: &[u8]) -> Put
        requires { 0 < length piece.now }
        ensures bytes { WireWrites result (is_open self.old) piece.now (told self.old) (told self.new) }
        ensures no_session { is_open self.old ≡ false → result ≡ Put.Failed }
        ensures open { is_open self.new ≡ is_open self.old }
        ensures cause { PutCounts result (write_faults self.old) (write_faults self.new) }
        ensures reads { faults self.new ≡ faults self.old };
}
