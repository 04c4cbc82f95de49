//! Bytes that are written to memory, and bytes that nobody keeps.
ghost use Rattle.std.specs.Prelude.{◌≡◌, ◌<◌, [], IfOk, None, Some, length};
ghost use Rattle.edge_io.specs.SinkScript.{sink_after, write_answer};
ghost use Rattle.edge_traits.specs.Sink.{PutCounts, Writes};

use crate::NoMemory;
use crate::calls::Calls;
use edge_traits::{Put, Sink};
use std::alloc::Global;
use std::marker::Model;

/// Bytes that are written to memory.
///
/// The writes are counted from 1. Those whose numbers are listed, and those for whose piece the room is too small,
/// answer Failed and add nothing.
#[derive(Drop)]
pub struct ScriptSink {
    bytes: Vec<u8>,
    room: usize,
    calls: Calls,
}

impl Model for ScriptSink {
    ghost use Rattle.std.specs.Prelude.{◌≤◌, length, vec_capacity};
    ghost use Rattle.edge_io.specs.SinkScript.{SinkScript};

    ghost Value = { SinkScript };

    ghost view = { λ s. record {
      written = s.bytes.items;
      room = s.room;
      fails = s.calls.fails.items;
      calls = s.calls.made;
      faults = s.calls.faults;
    } };

    ghost invariant = { λ s. (length s.bytes.items ≤ s.room) × (s.room ≤ vec_capacity s.bytes) };
}

impl ScriptSink {
    /// An empty sink with room for so many bytes, whose writes of the numbers in `fails` fail.
    ///
    /// It takes the memory of its room, and answers NoMemory where that can't be had.
    pub fn new(alloc: Global, fails: Vec<u64>, room: usize) -> Result<ScriptSink, NoMemory>
        ensures script { IfOk result (λ s. s ≡ record {
          written = [];
          room = room;
          fails = fails.items;
          calls = 0;
          faults = 0;
        }) }
        ensures told { IfOk result (λ s. ⟦<ScriptSink as Sink>⟧.written s ≡ Some []) }
        ensures faults { IfOk result (λ s. ⟦<ScriptSink as Sink>⟧.faults s ≡ 0) }
    {
        match Vec::with_capacity(alloc, room) {
            Ok(bytes) => Ok(ScriptSink {
                bytes,
                room,
                calls: Calls {
                    fails,
                    made: 0,
                    faults: 0,
                },
            }),
            Err(_) => Err(NoMemory),
        }
    }

    /// The bytes written.
    pub fn bytes(&self) -> &[u8]
        ensures script { result.now ≡ self.now.written }
        ensures told { ⟦<ScriptSink as Sink>⟧.written self.now ≡ Some result.now }
    {
        &self.bytes
    }
}

impl Sink for ScriptSink {
    ghost use Rattle.std.specs.Prelude.{Some};

    ghost written = { λ s. Some s.written };

    ghost faults = { λ s. s.faults };

    fn write(&mut self, piece: &[u8]) -> Put
        requires { 0 < length piece.now }
        ensures bytes { Writes result piece.now (Some self.old.written) (Some self.new.written) }
        ensures cause { PutCounts result self.old.faults self.new.faults }
        ensures answer { result ≡ write_answer self.old (length piece.now) }
        ensures script { self.new ≡ sink_after result piece.now self.old }
    {
        if self.calls.begin()
            || self.room - self.bytes.len() < piece.len()
            || self.bytes.extend_from_slice(piece).is_err()
        {
            self.calls.fail();
            return Put::Failed;
        }
        Put::Done
    }
}

/// It takes every piece, keeps nothing and tells nothing.
#[derive(Drop)]
pub struct NullSink;

impl Sink for NullSink {
    ghost use Rattle.std.specs.Prelude.{None};

    ghost written = { λ _. None };

    ghost faults = { λ _. 0 };

    fn write(&mut self, _piece: &[u8]) -> Put
        ensures bytes { Writes result _piece.now None None }
        ensures cause { PutCounts result 0 0 }
        ensures answer { result ≡ Put.Done }
    {
        Put::Done
    }
}
