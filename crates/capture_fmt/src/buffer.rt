//! The bytes that a reader took and hasn't used yet.
ghost use Rattle.std.specs.Prelude.{◌≡◌, ◌≤◌, ◌<◌, ◌-◌, drop, length, take};
ghost use Rattle.edge_traits.specs.Source.{Gives, TakeCounts};

use edge_traits::{Source, Take};
use std::marker::Model;

/// How many bytes there is room for.
pub(crate) const BUFFER_LEN: usize = 4096;

/// Bytes in the order in which a source gave them, of which the front is used first.
#[derive(Drop)]
pub(crate) struct Buffer {
    bytes: [u8; BUFFER_LEN],
    from: usize,
    to: usize,
}

impl Model for Buffer {
    ghost use Rattle.std.specs.Prelude.{ℕ, List, ◌≤◌, drop, take};

    ghost Value = { List ℕ };

    ghost view = { λ b. drop b.from (take b.to b.bytes) };

    ghost invariant = { λ b. (b.from ≤ b.to) × (b.to ≤ 4096) };
}

impl Buffer {
    ghost use Rattle.std.specs.Prelude.{[]};
    ghost use Rattle.capture_fmt.specs.Gather.{Fills};

    /// No bytes.
    pub(crate) fn new() -> Buffer
        ensures { result ≡ [] }
    {
        Buffer {
            bytes: [0; BUFFER_LEN],
            from: 0,
            to: 0,
        }
    }

    /// The bytes.
    pub(crate) fn as_slice(&self) -> &[u8]
        ensures value { result.now ≡ self.now }
        ensures bound { length result.now ≤ 4096 }
    {
        &self.bytes[self.from..self.to]
    }

    /// Drops so many bytes at the front.
    pub(crate) fn drop_front(&mut self, len: usize)
        requires { len ≤ length self.old }
        ensures { self.new ≡ drop len self.old }
    {
        self.from += len;
    }

    /// Takes bytes from the source in one read, as many as there is room for at most.
    pub(crate) fn fill<S: Source>(&mut self, source: &mut S) -> Take
        requires { length self.old < 4096 }
        ensures fills { Fills result self.old self.new (S.left source.old) (S.left source.new) }
        ensures cause { TakeCounts result (S.faults source.old) (S.faults source.new) }
    {
        let len = self.to - self.from;
        move_to_front(&mut self.bytes, self.from, self.to);
        let taken = read_behind(&mut self.bytes, len, source);
        self.from = 0;
        self.to = match taken {
            Take::Bytes(count) => len + count,
            Take::End | Take::Failed => len,
        };
        taken
    }
}

/// Moves the bytes between these places to the front.
fn move_to_front(bytes: &mut [u8; BUFFER_LEN], from: usize, to: usize)
    requires order { from ≤ to }
    requires bound { to ≤ 4096 }
    ensures { take (to - from) bytes.new ≡ drop from (take to bytes.old) }
{
    bytes.copy_within(from..to, 0);
}

/// Reads into the room behind the first bytes.
fn read_behind<S: Source>(bytes: &mut [u8; BUFFER_LEN], len: usize, source: &mut S) -> Take
    requires { len < 4096 }
    ensures front { take len bytes.new ≡ take len bytes.old }
    ensures read { Gives result (drop len bytes.new) (S.left source.old) (S.left source.new) }
    ensures cause { TakeCounts result (S.faults source.old) (S.faults source.new) }
{
    source.read(&mut bytes[len..])
}
