//! Sources and sinks in memory, as tables.
ghost use Rattle.std.specs.Prelude.{◌<◌, All, IfOk};

use edge_io::{Put, ScriptSink, ScriptSource, Sink, Source, Take};
use std::alloc::{AllocError, Global};
use std::test::Fail;

/// The sizes among these that aren't 0.
fn sizes_of(alloc: Global, numbers: &[usize]) -> Result<Vec<usize>, AllocError>
    ensures { IfOk result (λ sizes. All (λ size. 0 < size) sizes.items) }
{
    numbers
        .iter()
        .copied()
        .filter(|size| *size > 0)
        .collect(alloc)
}

/// Whether a read into four bytes gives these bytes, or fails for "!", or is at the end for ".".
fn is_read(taken: Take, buf: &[u8], want: &str) -> bool {
    match taken {
        Take::Bytes(count) => buf.get(..count) == Some(want.as_bytes()),
        Take::End => want == ".",
        Take::Failed => want == "!",
    }
}

/// The place of the first read that isn't as wanted.
pub(crate) fn first_wrong_read<S: Source>(source: &mut S, wanted: &[&str]) -> Option<usize> {
    for place in 0..wanted.len() {
        let mut buf = [b'-'; 4];
        let taken = source.read(&mut buf);
        if !is_read(taken, &buf, wanted[place]) {
            return Some(place);
        }
    }
    None
}

/// The sizes of a source's pieces, its failing calls, and what it is to give of eight bytes.
struct SourceRow {
    sizes: &'static [usize],
    fails: &'static [u64],
    wanted: &'static [&'static str],
}

const SOURCES: &[SourceRow] = &[
    SourceRow {
        sizes: &[],
        fails: &[],
        wanted: &["abcd", "efgh", ".", "."],
    },
    SourceRow {
        sizes: &[3, 2],
        fails: &[2],
        wanted: &["abc", "!", "de", "fgh", "."],
    },
    SourceRow {
        sizes: &[6, 1],
        fails: &[],
        wanted: &["abcd", "ef", "g", "h", "."],
    },
    SourceRow {
        sizes: &[1, 9],
        fails: &[1, 2, 5],
        wanted: &["!", "!", "a", "bcde", "!", "fgh", "."],
    },
    SourceRow {
        sizes: &[2, 2, 2, 1],
        fails: &[6],
        wanted: &["ab", "cd", "ef", "g", "h", "!", "."],
    },
];

fn source_of(alloc: Global, row: &SourceRow) -> Result<ScriptSource, Fail> {
    let bytes = b"abcdefgh".to_vec(alloc)?;
    let sizes = sizes_of(alloc, row.sizes)?;
    let fails = row.fails.to_vec(alloc)?;
    Ok(ScriptSource::new(alloc, bytes, sizes, fails, 0)?)
}

#[test]
fn sources_give_their_pieces(rt: HostRuntime) -> Result<(), Fail> {
    for row in SOURCES {
        let mut source = source_of(rt.alloc(), row)?;
        assert_eq!(rt; first_wrong_read(&mut source, row.wanted), None);
    }
    Ok(())
}

/// The room of a sink, its failing writes, the pieces with what comes of each, and the bytes at the end.
struct SinkRow {
    room: usize,
    fails: &'static [u64],
    pieces: &'static [(&'static str, Put)],
    bytes: &'static str,
}

const SINKS: &[SinkRow] = &[
    SinkRow {
        room: 4,
        fails: &[],
        pieces: &[("ab", Put::Done), ("cd", Put::Done), ("e", Put::Failed)],
        bytes: "abcd",
    },
    SinkRow {
        room: 3,
        fails: &[],
        pieces: &[("ab", Put::Done), ("cd", Put::Failed), ("e", Put::Done)],
        bytes: "abe",
    },
    SinkRow {
        room: 9,
        fails: &[1, 3],
        pieces: &[
            ("ab", Put::Failed),
            ("ab", Put::Done),
            ("c", Put::Failed),
            ("c", Put::Done),
        ],
        bytes: "abc",
    },
    SinkRow {
        room: 0,
        fails: &[],
        pieces: &[("a", Put::Failed)],
        bytes: "",
    },
];

/// The place of the first write that isn't as wanted.
fn first_wrong_write<S: Sink>(sink: &mut S, pieces: &[(&str, Put)]) -> Option<usize> {
    for place in 0..pieces.len() {
        let (piece, put) = pieces[place];
        if piece.is_empty() || sink.write(piece.as_bytes()) != put {
            return Some(place);
        }
    }
    None
}

#[test]
fn sinks_keep_whole_pieces(rt: HostRuntime) -> Result<(), Fail> {
    for row in SINKS {
        let fails = row.fails.to_vec(rt.alloc())?;
        let mut sink = ScriptSink::new(rt.alloc(), fails, row.room)?;
        let wrong = first_wrong_write(&mut sink, row.pieces);
        assert_eq!(rt; (wrong, sink.bytes()), (None, row.bytes.as_bytes()));
    }
    Ok(())
}
