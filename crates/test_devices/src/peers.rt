//! The adapters over readers and writers, and signals and faults of these.

use crate::streams::first_wrong_read;
use edge_io::{Drawn, Entropy, NullSink, Put, RandomFile, ReaderSource, Sink, WriterSink};
use std::io::{self, ErrorKind, Read, Write};

#[test]
fn readers_and_writers(rt: HostRuntime) {
    let mut source = ReaderSource::new(b"abcdef".as_slice());
    let wrong = first_wrong_read(&mut source, &["abcd", "ef", ".", "."]);
    let mut bytes = Vec::new(rt.alloc());
    let mut sink = WriterSink::new(&mut bytes);
    let puts = [sink.write(b"ab"), sink.write(b"cde"), NullSink.write(b"ab")];
    assert_eq!(rt; (wrong, puts), (None, [Put::Done; 3]));
    assert_eq!(rt; bytes.as_slice(), b"abcde".as_slice());
}

/// What a peer does at a call.
#[derive(Clone, Copy)]
enum Turn {
    /// A signal cuts it short.
    Signal,
    /// It gives or takes one byte.
    Byte,
    /// It gives or takes nothing.
    Nothing,
    /// It is broken.
    Broken,
}

/// A reader and writer that takes turns, and does nothing behind the last.
#[derive(Drop)]
struct Peer<'a> {
    turns: &'a [Turn],
}

impl<'a> Peer<'a> {
    fn turn(&mut self) -> io::Result<bool> {
        let Some((turn, later)) = self.turns.split_first() else {
            return Ok(false);
        };
        self.turns = later;
        match turn {
            Turn::Signal => Err(io::Error::from(ErrorKind::Interrupted)),
            Turn::Byte => Ok(true),
            Turn::Nothing => Ok(false),
            Turn::Broken => Err(io::Error::from(ErrorKind::BrokenPipe)),
        }
    }
}

impl<'a> Read for Peer<'a> {
    fn read(&mut self, buf: &mut [u8]) -> io::Result<usize> {
        match buf {
            [first, ..] if self.turn()? => {
                *first = b'x';
                Ok(1)
            }
            _ => Ok(0),
        }
    }
}

impl<'a> Write for Peer<'a> {
    fn write(&mut self, buf: &[u8]) -> io::Result<usize> {
        if !buf.is_empty() && self.turn()? {
            Ok(1)
        } else {
            Ok(0)
        }
    }

    fn flush(&mut self) -> io::Result<()> {
        self.turn()?;
        Ok(())
    }
}

/// Signals that cut a read short, one behind which a byte comes, a fault, and the end.
const READS: &[Turn] = &[
    Turn::Signal,
    Turn::Signal,
    Turn::Byte,
    Turn::Broken,
    Turn::Signal,
    Turn::Byte,
    Turn::Nothing,
];

/// The first byte is taken, and then flushed; of the third write nothing is taken behind one byte, and the fourth can't
/// be flushed.
const WRITES: &[Turn] = &[
    Turn::Signal,
    Turn::Signal,
    Turn::Byte,
    Turn::Signal,
    Turn::Nothing,
    Turn::Broken,
    Turn::Signal,
    Turn::Byte,
    Turn::Nothing,
    Turn::Byte,
    Turn::Broken,
];

#[test]
fn signals_are_no_faults(rt: HostRuntime) {
    let mut source = ReaderSource::new(Peer { turns: READS });
    let wrong = first_wrong_read(&mut source, &["x", "!", "x", "."]);
    let mut sink = WriterSink::new(Peer { turns: WRITES });
    let puts = [
        sink.write(b"a"),
        sink.write(b"a"),
        sink.write(b"ab"),
        sink.write(b"a"),
    ];
    let wanted = [Put::Done, Put::Failed, Put::Failed, Put::Failed];
    assert_eq!(rt; (wrong, puts), (None, wanted));
}

#[test]
fn many_signals_are_no_faults(rt: HostRuntime) {
    let mut turns = [Turn::Signal; 300];
    turns[299] = Turn::Byte;
    let mut source = ReaderSource::new(Peer { turns: &turns });
    let mut sink = WriterSink::new(Peer { turns: &turns });
    let ended = (first_wrong_read(&mut source, &["x"]), sink.write(b"a"));
    assert_eq!(rt; ended, (None, Put::Done));
}

#[test]
fn many_signals_at_a_flush_are_no_faults(rt: HostRuntime) {
    // The byte is taken at once, and the flush is cut short.
    let mut turns = [Turn::Signal; 300];
    turns[0] = Turn::Byte;
    let mut sink = WriterSink::new(Peer { turns: &turns });
    assert_eq!(rt; sink.write(b"a"), Put::Done);
}

#[test]
fn calls_behind_a_fault(rt: HostRuntime) {
    let turns = [Turn::Broken, Turn::Byte, Turn::Byte, Turn::Byte, Turn::Byte];
    let mut sink = WriterSink::new(Peer { turns: &turns });
    let puts = [sink.write(b"a"), sink.write(b"a")];
    let mut entropy = RandomFile::new(Peer { turns: &turns });
    let words = [entropy.word(), entropy.word()];
    let wanted = [Drawn::Failed, Drawn::Word(0x7878_7878)];
    assert_eq!(rt; (puts, words), ([Put::Failed, Put::Done], wanted));
}
