//! What is written to a session in memory.
ghost use Rattle.std.specs.Prelude.{◌≡◌, ◌<◌, [], IfOk, if◌then◌else◌, length};
ghost use Rattle.edge_io.specs.Writes.{bytes_of, with_piece, has_room};

use crate::NoMemory;
use std::alloc::Global;
use std::marker::Model;

/// A write: how many bytes of the session were taken before it, and how many bytes it wrote.
#[derive(Clone, Copy)]
pub(crate) struct Mark {
    pub(crate) behind: usize,
    pub(crate) len: usize,
}

/// The writes to a session: their bytes one behind the other, and a mark for each.
#[derive(Drop)]
pub(crate) struct Writes {
    bytes: Vec<u8>,
    marks: Vec<Mark>,
    room: usize,
}

impl Model for Writes {
    ghost use Rattle.std.specs.Prelude.{◌≡◌, ◌≤◌, length, vec_capacity};
    ghost use Rattle.edge_io.specs.Writes.{marked_len, writes_at, WritesScript};

    ghost Value = { WritesScript };

    ghost view = { λ w. record { list = writes_at w.marks.items w.bytes.items; room = w.room } };

    ghost invariant = { λ w. (length w.bytes.items ≤ w.room)
        × (w.room ≤ vec_capacity w.bytes)
        × (marked_len w.marks.items ≡ length w.bytes.items)
        × (length w.marks.items ≤ length w.bytes.items)
        × (w.room ≤ vec_capacity w.marks) };
}

impl Writes {
    /// No write yet, and room for so many bytes.
    pub(crate) fn new(alloc: Global, room: usize) -> Result<Writes, NoMemory>
        ensures { IfOk result (λ w. w ≡ record { list = []; room = room }) }
    {
        let Ok(bytes) = Vec::with_capacity(alloc, room) else {
            return Err(NoMemory);
        };
        // A write has a byte at least, so there are no more marks than bytes.
        let Ok(marks) = Vec::with_capacity(alloc, room) else {
            return Err(NoMemory);
        };
        Ok(Writes { bytes, marks, room })
    }

    #[tactic(auto, using(crate::proofs::Marks::writes_at_push, crate::proofs::Marks::bytes_of_writes_at))]
    /// Adds a write behind so many bytes taken, where there is room for the piece, and says whether there is.
    pub(crate) fn add(&mut self, behind: usize, piece: &[u8]) -> bool
        requires { 0 < length piece.now }
        ensures fits { result ≡ has_room self.old (length piece.now) }
        ensures added { self.new
            ≡ (if result then with_piece behind piece.now self.old else self.old) }
    {
        let mark = Mark {
            behind,
            len: piece.len(),
        };
        self.room - self.bytes.len() >= piece.len()
            && self.marks.push(mark).is_ok()
            && self.bytes.extend_from_slice(piece).is_ok()
    }

    #[tactic(auto, using(crate::proofs::Marks::bytes_of_writes_at))]
    /// The bytes of all writes.
    pub(crate) fn bytes(&self) -> &[u8]
        ensures { result.now ≡ bytes_of self.now.list }
    {
        &self.bytes
    }
}
