//! Bytes to a file that is opened when the first of them are written.
ghost use Rattle.std.specs.Prelude.{◌≡◌, ◌<◌, length, None, false};
ghost use Rattle.edge_io.specs.LateFile.{TakesPiece, StaysOpen};
ghost use Rattle.edge_traits.specs.Sink.{PutCounts, Writes};

use crate::WriterSink;
use edge_traits::{Put, Sink};
use std::fs;
use std::marker::Model;
use std::rt::Files;

/// A sink over the file of a path. It tells nothing; a file whose bytes are known takes exactly what was done.
///
/// The file is created where it is missing, and emptied where it is there, when the first piece is written and not
/// before: where nothing is ever written, it stays as it was. A file that can't be opened then shows as a write that
/// failed; it isn't tried again, and each later write fails. A piece is done, and fails, as with a [`WriterSink`].
#[derive(Drop)]
pub struct FileSink<R: Files + Drop> {
    files: R,
    path: String,
    is_begun: bool,
    file: Option<WriterSink<R::File>>,
    faults: u64,
}

impl<R: Files + Drop> Model for FileSink<R> {
    ghost use Rattle.std.specs.Prelude.{◌≡◌, None, false};
    ghost use Rattle.edge_io.specs.LateFile.{LateFile};

    ghost Value = { LateFile R.File };

    ghost view = { λ s. record {
      is_begun = s.is_begun;
      file = s.file;
      faults = s.faults;
    } };

    ghost invariant = { λ s. s.is_begun ≡ false → s.file ≡ None };
}

impl<R: Files + Drop> FileSink<R> {
    /// A sink over the file of this path, which isn't touched yet.
    pub fn new(files: R, path: String) -> FileSink<R>
        ensures late { result ≡ record { is_begun = false; file = None; faults = 0 } }
        ensures told { ⟦<FileSink<R> as Sink>⟧.written result ≡ None }
        ensures faults { ⟦<FileSink<R> as Sink>⟧.faults result ≡ 0 }
    {
        FileSink {
            files,
            path,
            is_begun: false,
            file: None,
            faults: 0,
        }
    }
}

impl<R: Files + Drop> Sink for FileSink<R> {
    ghost use Rattle.std.specs.Prelude.{None};

    ghost written = { λ _. None };

    ghost faults = { λ s. s.faults };

    fn write(&mut self, piece: &[u8]) -> Put
        requires { 0 < length piece.now }
        ensures bytes { Writes result piece.now None None }
        ensures cause { PutCounts result self.old.faults self.new.faults }
        // The file is opened once, and without one the write fails.
        ensures opened { StaysOpen self.old self.new result }
        // A file that is open takes the piece, the first piece too.
        ensures content { TakesPiece result piece.now R.File.contents self.old.file self.new.file }
    {
        if !self.is_begun {
            self.is_begun = true;
            self.file = fs::create(&self.files, &self.path)
                .ok()
                .map(WriterSink::new);
        }
        let put = match &mut self.file {
            Some(file) => file.write(piece),
            None => Put::Failed,
        };
        if put == Put::Failed {
            self.faults = self.faults.saturating_add(1);
        }
        put
    }
}

#[cfg(test)]
mod tests {
    use super::*;
    use std::io::ErrorKind;
    use std::test::Fail;

    const FOLDER: &str = "edge_io_test";

    const PATH: &str = "edge_io_test/capture";

    /// Whether the file holds this, or is missing where this is none.
    fn holds(rt: &HostRuntime, want: Option<&str>) -> bool {
        match fs::read_to_string(rt, PATH) {
            Ok(text) => want == Some(text.as_str()),
            Err(error) => want.is_none() && error.kind() == ErrorKind::NotFound,
        }
    }

    /// Whether a sink touches nothing before its first piece, and then the file holds the pieces.
    fn takes_pieces(rt: &HostRuntime, path: String, before: Option<&str>) -> bool {
        let mut sink = FileSink::new(rt, path);
        holds(rt, before)
            && sink.write(b"abc") == Put::Done
            && holds(rt, Some("abc"))
            && sink.write(b"d") == Put::Done
            && holds(rt, Some("abcd"))
            && sink.faults == 0
    }

    /// Whether each write of a sink fails.
    fn refuses_pieces(rt: &HostRuntime, path: String) -> bool {
        let mut sink = FileSink::new(rt, path);
        sink.write(b"abc") == Put::Failed && sink.write(b"d") == Put::Failed && sink.faults == 2
    }

    #[test]
    fn files_as_sinks(rt: HostRuntime) -> Result<(), Fail> {
        let _ = fs::remove_dir_all(&rt, FOLDER);
        fs::create_dir(&rt, FOLDER)?;
        // A file that is missing, one that is shorter than what is written, and one that is longer.
        for before in [None, Some("x"), Some("a longer one")] {
            if let Some(text) = before {
                fs::write(&rt, PATH, text)?;
            }
            let path = String::from_str(rt.alloc(), PATH)?;
            assert!(rt; takes_pieces(&rt, path, before));
            fs::remove_file(&rt, PATH)?;
        }
        fs::remove_dir(&rt, FOLDER)?;
        Ok(())
    }

    #[test]
    fn files_that_cant_be_opened(rt: HostRuntime) -> Result<(), Fail> {
        // What is missing, a folder, and a device that is full.
        for path in ["/proc/no/such", "/proc", "/dev/full"] {
            let path = String::from_str(rt.alloc(), path)?;
            assert!(rt; refuses_pieces(&rt, path));
        }
        Ok(())
    }
}
