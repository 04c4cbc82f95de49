//! One session in memory.
ghost use Rattle.std.specs.Prelude.{◌≡◌, ◌<◌, ◌||◌, if◌then◌else◌, All, IfOk, map, length};
ghost use Rattle.edge_io.specs.SessionScript.{is_too_long, session_answer, session_of, session_read, session_written};
ghost use Rattle.edge_io.specs.SessionScript.{IsFresh, ReadsSession};
ghost use Rattle.edge_io.specs.SourceScript.{buffer_after};
ghost use Rattle.edge_traits.specs.Wire.{written_to};

use crate::NoMemory;
use crate::pieces::Pieces;
use crate::writes::Writes;
use edge_traits::{Put, Take};
use std::alloc::Global;
use std::marker::Model;

/// What is left of a session, what was written to it, and whether a call of it failed.
#[derive(Drop)]
pub(crate) struct HeldSession {
    pieces: Pieces,
    writes: Writes,
    read_failed: bool,
    write_failed: bool,
}

impl Model for HeldSession {
    ghost use Rattle.edge_io.specs.SessionScript.{SessionScript};

    ghost Value = { SessionScript };

    ghost view = { λ s. record {
      told = record {
        taken = s.pieces.given;
        left = s.pieces.left;
        writes = s.writes.list;
        read_failed = s.read_failed;
        write_failed = s.write_failed;
      };
      sizes = s.pieces.sizes;
      room = s.writes.room;
    } };
}

impl HeldSession {
    /// A session that waits, of these pieces, with room for so many bytes that are written to it.
    pub(crate) fn new(
        alloc: Global,
        pieces: &[Vec<u8>],
        room: usize,
    ) -> Result<HeldSession, NoMemory>
        requires { All (λ piece. 0 < length piece.items) pieces.now }
        ensures script { IfOk result
            (λ s. s ≡ session_of room (map (λ piece. piece.items) pieces.now)) }
        ensures fresh { IfOk result IsFresh }
    {
        let mut bytes = Vec::new(alloc);
        let mut sizes = Vec::new(alloc);
        for piece in pieces {
            if bytes.extend_from_slice(piece).is_err() || sizes.push(piece.len()).is_err() {
                return Err(NoMemory);
            }
        }
        Ok(HeldSession {
            pieces: Pieces::new(bytes, sizes),
            writes: Writes::new(alloc, room)?,
            read_failed: false,
            write_failed: false,
        })
    }

    /// Reads, and fails where it is to.
    pub(crate) fn read(&mut self, buf: &mut [u8], is_due: bool) -> Take
        requires { 0 < length buf.old }
        ensures bytes { ReadsSession result buf.new self.old.told self.new.told }
        ensures answer { result
            ≡ (if is_due then Take.Failed else session_answer self.old (length buf.old)) }
        ensures buffer { buf.new ≡ buffer_after result self.old.told.left buf.old }
        ensures script { self.new ≡ session_read result self.old }
    {
        if is_due {
            self.read_failed = true;
            return Take::Failed;
        }
        if self.pieces.is_used_up() {
            return Take::End;
        }
        Take::Bytes(self.pieces.give(buf))
    }

    /// Writes, and fails where it is to and where there is no room.
    pub(crate) fn write(&mut self, piece: &[u8], is_due: bool) -> Put
        requires { 0 < length piece.now }
        ensures answer { result
            ≡ (if is_due || is_too_long self.old (length piece.now) then Put.Failed else Put.Done) }
        ensures script { self.new ≡ session_written result piece.now self.old }
    {
        if is_due || !self.writes.add(self.pieces.given_len(), piece) {
            self.write_failed = true;
            return Put::Failed;
        }
        Put::Done
    }

    /// The bytes written.
    pub(crate) fn written(&self) -> &[u8]
        ensures { result.now ≡ written_to self.now.told }
    {
        self.writes.bytes()
    }
}
