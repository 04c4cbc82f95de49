//! Bytes that are read from memory.
ghost use Rattle.std.specs.Prelude.{◌≡◌, ◌<◌, All, IfOk, IsOk, Some, length};
ghost use Rattle.edge_io.specs.SourceScript.{buffer_after, read_answer, source_after};
ghost use Rattle.edge_traits.specs.Source.{TakeCounts, Gives};

use crate::NoMemory;
use crate::calls::Calls;
use crate::pieces::Pieces;
use edge_traits::{Source, Take};
use std::alloc::Global;
use std::marker::Model;

/// Bytes in memory, given in pieces of set sizes, and the rest behind the last size as one piece.
///
/// A piece that the buffer is too small for goes on with the next read. The reads are counted from 1, and those
/// whose numbers are listed answer Failed and use nothing up.
#[derive(Drop)]
pub struct ScriptSource {
    pieces: Pieces,
    calls: Calls,
}

impl Model for ScriptSource {
    ghost use Rattle.edge_io.specs.SourceScript.{SourceScript};

    ghost Value = { SourceScript };

    ghost view = { λ s. record {
      left = s.pieces.left;
      sizes = s.pieces.sizes;
      fails = s.calls.fails.items;
      calls = s.calls.made;
      faults = s.calls.faults;
    } };
}

impl ScriptSource {
    /// A source of these bytes, in pieces of these sizes, whose reads of the numbers in `fails` fail.
    ///
    /// It takes no memory, so it never answers NoMemory, and the room limits nothing.
    pub fn new(
        _alloc: Global,
        bytes: Vec<u8>,
        pieces: Vec<usize>,
        fails: Vec<u64>,
        _room: usize,
    ) -> Result<ScriptSource, NoMemory>
        requires { All (λ size. 0 < size) pieces.items }
        ensures made { IsOk result }
        ensures script { IfOk result (λ s. s ≡ record {
          left = bytes.items;
          sizes = pieces.items;
          fails = fails.items;
          calls = 0;
          faults = 0;
        }) }
        ensures told { IfOk result (λ s. ⟦<ScriptSource as Source>⟧.left s ≡ Some bytes.items) }
        ensures faults { IfOk result (λ s. ⟦<ScriptSource as Source>⟧.faults s ≡ 0) }
    {
        Ok(ScriptSource {
            pieces: Pieces::new(bytes, pieces),
            calls: Calls {
                fails,
                made: 0,
                faults: 0,
            },
        })
    }
}

impl Source for ScriptSource {
    ghost use Rattle.std.specs.Prelude.{Some};

    ghost left = { λ s. Some s.left };

    ghost faults = { λ s. s.faults };

    fn read(&mut self, buf: &mut [u8]) -> Take
        requires { 0 < length buf.old }
        ensures bytes { Gives result buf.new (Some self.old.left) (Some self.new.left) }
        ensures cause { TakeCounts result self.old.faults self.new.faults }
        ensures answer { result ≡ read_answer self.old (length buf.old) }
        ensures buffer { buf.new ≡ buffer_after result self.old.left buf.old }
        ensures script { self.new ≡ source_after result self.old }
    {
        if self.calls.fails_now() {
            return Take::Failed;
        }
        if self.pieces.is_used_up() {
            return Take::End;
        }
        Take::Bytes(self.pieces.give(buf))
    }
}
