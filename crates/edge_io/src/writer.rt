//! Bytes to any writer.
ghost use Rattle.std.specs.Prelude.{◌≡◌, ◌≢◌, ◌<◌, ◌≤◌, ℕ, IfErr, IfOk, IsTrue, None, length, take};
ghost use Rattle.std.specs.IoError.{error_kind};
ghost use Rattle.std.specs.Io.KnownBytes.{Appends, Keeps, WriteAppends};
ghost use Rattle.edge_io.specs.Held.{WriterTakes};
ghost use Rattle.edge_traits.specs.Sink.{PutCounts, Writes};

use edge_traits::{Put, Sink};
use std::io::{self, ErrorKind, Write};
use std::marker::Model;

/// A sink over any writer. It tells nothing; a writer whose bytes are known holds exactly what was done.
///
/// A piece is done when the writer took all of it and was flushed. It fails where the writer fails, and where the
/// writer takes nothing of what is left. A write that a signal cuts short is made again, and is no fault.
#[derive(Drop)]
pub struct WriterSink<W: Write> {
    writer: W,
    faults: u64,
}

impl<W: Write> Model for WriterSink<W> {
    ghost use Rattle.edge_io.specs.Held.{Held};

    ghost Value = { Held W };

    ghost view = { λ s. record { inner = s.writer; faults = s.faults } };
}

impl<W: Write> WriterSink<W> {
    /// A sink that the writer takes the pieces of.
    pub fn new(writer: W) -> WriterSink<W>
        ensures held { result ≡ record { inner = writer; faults = 0 } }
        ensures told { ⟦<WriterSink<W> as Sink>⟧.written result ≡ None }
        ensures faults { ⟦<WriterSink<W> as Sink>⟧.faults result ≡ 0 }
    {
        WriterSink { writer, faults: 0 }
    }
}

impl<W: Write> Sink for WriterSink<W> {
    ghost use Rattle.std.specs.Prelude.{None};

    ghost written = { λ _. None };

    ghost faults = { λ s. s.faults };

    fn write(&mut self, piece: &[u8]) -> Put
        requires { 0 < length piece.now }
        ensures bytes { Writes result piece.now None None }
        ensures cause { PutCounts result self.old.faults self.new.faults }
        ensures content { WriterTakes result piece.now
            (W.contents self.old.inner) (W.contents self.new.inner) }
    {
        if write_whole(&mut self.writer, piece) {
            Put::Done
        } else {
            self.faults = self.faults.saturating_add(1);
            Put::Failed
        }
    }
}

/// Writes all of the bytes, and says whether it could.
pub(crate) fn write_whole<W: Write>(writer: &mut W, piece: &[u8]) -> bool
    ensures whole { IsTrue result
        → Appends (W.contents writer.old) (W.contents writer.new) piece.now }
    ensures front { (count : ℕ) × (count ≤ length piece.now)
        × Appends (W.contents writer.old) (W.contents writer.new) (take count piece.now) }
{
    let mut done = 0;
    while done < piece.len() {
        match write_again(writer, &piece[done..]) {
            Ok(count) if count > 0 => done += count,
            _ => return false,
        }
    }
    flush_again(writer).is_ok()
}

/// Writes, and again as long as a signal cuts the write short. It gives up after 2^64 - 1 of them.
pub(crate) fn write_again<W: Write>(writer: &mut W, piece: &[u8]) -> io::Result<usize>
    ensures within { IfOk result (λ count. count ≤ length piece.now) }
    ensures content { WriteAppends (W.contents writer.old) (W.contents writer.new)
        result piece.now }
    ensures no_signal { IfErr result (λ error. error_kind error ≢ ErrorKind.Interrupted) }
{
    for _ in 0..u64::MAX {
        match writer.write(piece) {
            Err(error) if error.kind() == ErrorKind::Interrupted => {}
            done => return done,
        }
    }
    Err(io::Error::from(ErrorKind::TimedOut))
}

/// Flushes, and again as long as a signal cuts that short. It gives up after 2^64 - 1 of them.
fn flush_again<W: Write>(writer: &mut W) -> io::Result<()>
    ensures content { Keeps (W.contents writer.old) (W.contents writer.new) }
    ensures no_signal { IfErr result (λ error. error_kind error ≢ ErrorKind.Interrupted) }
{
    for _ in 0..u64::MAX {
        match writer.flush() {
            Err(error) if error.kind() == ErrorKind::Interrupted => {}
            done => return done,
        }
    }
    Err(io::Error::from(ErrorKind::TimedOut))
}
