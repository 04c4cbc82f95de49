//! Bytes from any reader, and from the file of a path.
ghost use Rattle.std.specs.Prelude.{◌≡◌, ◌≢◌, ◌<◌, ◌≤◌, IfErr, IfOk, None, length};
ghost use Rattle.std.specs.IoError.{error_kind};
ghost use Rattle.std.specs.Io.KnownBytes.{ReadConsumes};
ghost use Rattle.edge_io.specs.Held.{ReaderGives};
ghost use Rattle.edge_traits.specs.Source.{Gives, TakeCounts};

use edge_traits::{Source, Take};
use std::fs;
use std::io::{self, ErrorKind, Read};
use std::marker::Model;
use std::rt::Files;

/// A source over any reader. It tells nothing; of a reader whose bytes are known it gives exactly these.
///
/// It ends where the reader gives nothing, and fails where the reader fails. A read that a signal cuts short is
/// made again, and is no fault.
#[derive(Drop)]
pub struct ReaderSource<R: Read> {
    reader: R,
    faults: u64,
}

impl<R: Read> Model for ReaderSource<R> {
    ghost use Rattle.edge_io.specs.Held.{Held};

    ghost Value = { Held R };

    ghost view = { λ s. record { inner = s.reader; faults = s.faults } };
}

impl<R: Read> ReaderSource<R> {
    /// A source of what the reader gives.
    pub fn new(reader: R) -> ReaderSource<R>
        ensures held { result ≡ record { inner = reader; faults = 0 } }
        ensures told { ⟦<ReaderSource<R> as Source>⟧.left result ≡ None }
        ensures faults { ⟦<ReaderSource<R> as Source>⟧.faults result ≡ 0 }
    {
        ReaderSource { reader, faults: 0 }
    }
}

impl<R: Read> Source for ReaderSource<R> {
    ghost use Rattle.std.specs.Prelude.{None};

    ghost left = { λ _. None };

    ghost faults = { λ s. s.faults };

    fn read(&mut self, buf: &mut [u8]) -> Take
        requires { 0 < length buf.old }
        ensures bytes { Gives result buf.new None None }
        ensures cause { TakeCounts result self.old.faults self.new.faults }
        ensures content { ReaderGives result buf.new
            (R.remaining self.old.inner) (R.remaining self.new.inner) }
    {
        match read_again(&mut self.reader, buf) {
            Ok(0) => Take::End,
            Ok(count) => Take::Bytes(count),
            Err(_) => {
                self.faults = self.faults.saturating_add(1);
                Take::Failed
            }
        }
    }
}

/// The bytes of the file of this path, from its first. It fails where the file can't be opened.
pub fn file_source<R: Files>(files: &R, path: &str) -> io::Result<ReaderSource<R::File>> {
    Ok(ReaderSource::new(fs::open(files, path)?))
}

/// Reads, and again as long as a signal cuts the read short. It gives up after 2^64 - 1 of them.
pub(crate) fn read_again<R: Read>(reader: &mut R, buf: &mut [u8]) -> io::Result<usize>
    ensures within { IfOk result (λ count. count ≤ length buf.new) }
    ensures content { ReadConsumes (R.remaining reader.old) (R.remaining reader.new)
        result buf.new }
    ensures no_signal { IfErr result (λ error. error_kind error ≢ ErrorKind.Interrupted) }
{
    for _ in 0..u64::MAX {
        match reader.read(buf) {
            Err(error) if error.kind() == ErrorKind::Interrupted => {}
            done => return done,
        }
    }
    Err(io::Error::from(ErrorKind::TimedOut))
}
