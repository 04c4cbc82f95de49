//! The standard streams that are closed, and the line with which a run ends.
ghost use Rattle.std.specs.Prelude.{◌≡◌, ◌≢◌};
ghost use Rattle.edge_io.specs.Sink.{PutCounts, Writes};
ghost use Rattle.w32tm_text.specs.Status.{code_of, line_of};

use edge_io::Sink;
use std::rt::Files;
use std::{fs, io};
use w32tm_text::{Status, status_line};

/// Three files that are open as long as this is held. They take those descriptors of 0 to 2 that are closed, so that
/// no later file gets one of them: a report that is written to a closed standard output would go into that file.
///
/// They are folders, which can be opened, and of which each read and each write fails.
pub(crate) fn closed_streams<R: Files>(files: &R) -> [io::Result<R::File>; 3] {
    [
        fs::open(files, "/"),
        fs::open(files, "/"),
        fs::open(files, "/"),
    ]
}

/// Writes the line of a status, in one write, and gives its exit code. What was done has no line.
pub(crate) fn end_with<S: Sink>(errors: &mut S, status: &Status) -> u8
    ensures code { result ≡ code_of status.now }
    ensures done { status.now ≡ Status.Done → errors.new ≡ errors.old }
    ensures line { status.now ≢ Status.Done → (put : _)
        × Writes put (line_of status.now) (S.written errors.old) (S.written errors.new)
        × PutCounts put (S.faults errors.old) (S.faults errors.new) }
{
    let line = status_line(status);
    if !line.as_slice().is_empty() {
        // Where the line can't be written, the code still says how the run ended.
        let _ = errors.write(line.as_slice());
    }
    status.code()
}

#[cfg(test)]
mod tests {
    use super::*;
    use edge_io::ScriptSink;
    use std::test::Fail;

    // Statuses, their codes, and what is on standard error.
    const ENDS: &[(Status, u8, &str)] = &[
        (Status::Done, 0, ""),
        (Status::BadWords, 1, "w32tm: bad words\n"),
        (
            Status::BadConfig { line: 7 },
            2,
            "w32tm: bad settings at line 7\n",
        ),
        (Status::NoMemory, 15, "w32tm: no memory\n"),
    ];

    #[test]
    fn lines_and_codes(rt: HostRuntime) -> Result<(), Fail> {
        let alloc = rt.alloc();
        for (status, code, line) in ENDS {
            let Ok(mut errors) = ScriptSink::new(alloc, Vec::new(alloc), 99) else {
                return Err(Fail::from("it takes memory for 99 bytes"));
            };
            let ended = end_with(&mut errors, status);
            assert_eq!(rt; ended, *code, "{status:?}");
            assert_eq!(rt; errors.bytes(), line.as_bytes(), "{status:?}");
        }
        Ok(())
    }
}
