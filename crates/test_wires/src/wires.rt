//! Wires in memory, as tables.
ghost use Rattle.std.specs.Prelude.{◌<◌, All, IfOk, length};

use edge_io::{Opened, Put, ScriptWire, Take, Wire};
use std::alloc::{AllocError, Global};
use std::test::Fail;

/// The pieces among these that aren't empty.
fn pieces_of(alloc: Global, texts: &[&str]) -> Result<Vec<Vec<u8>>, AllocError>
    ensures { IfOk result (λ pieces. All (λ piece. 0 < length piece.items) pieces.items) }
{
    let mut pieces = Vec::new(alloc);
    for text in texts {
        let piece = text.as_bytes().to_vec(alloc)?;
        if piece.len() > 0 {
            pieces.push(piece)?;
        }
    }
    Ok(pieces)
}

/// Two sessions, of eight bytes and of one.
fn two_sessions(alloc: Global) -> Result<Vec<Vec<Vec<u8>>>, AllocError>
    ensures { IfOk result (λ sessions.
        All (λ pieces. All (λ piece. 0 < length piece.items) pieces.items) sessions.items) }
{
    let mut sessions = Vec::new(alloc);
    sessions.push(pieces_of(alloc, &["abc", "defgh"])?)?;
    sessions.push(pieces_of(alloc, &["x"])?)?;
    Ok(sessions)
}

fn wire_of(alloc: Global, fails: &[u64], room: usize) -> Result<ScriptWire, Fail> {
    let fails = fails.to_vec(alloc)?;
    Ok(ScriptWire::new(alloc, two_sessions(alloc)?, fails, room)?)
}

/// A call of a wire and what is wanted of it.
#[derive(Clone, Copy)]
pub(crate) enum Step {
    /// A request for a session.
    Open(Opened),
    /// A read into four bytes: these, "!" for Failed, and "." for the end.
    Read(&'static str),
    /// A write of these bytes.
    Write(&'static str, Put),
}

/// Whether a read into four bytes gives these bytes, or fails for "!", or is at the end for ".".
fn is_read(taken: Take, buf: &[u8], want: &str) -> bool {
    match taken {
        Take::Bytes(count) => buf.get(..count) == Some(want.as_bytes()),
        Take::End => want == ".",
        Take::Failed => want == "!",
    }
}

/// Whether the wire does as wanted.
fn takes_step<W: Wire>(wire: &mut W, step: Step) -> bool {
    match step {
        Step::Open(opened) => wire.next_session() == opened,
        Step::Read(want) => {
            let mut buf = [b'-'; 4];
            let taken = wire.read(&mut buf);
            is_read(taken, &buf, want)
        }
        Step::Write(piece, put) => !piece.is_empty() && wire.write(piece.as_bytes()) == put,
    }
}

/// The place of the first step that isn't as wanted.
pub(crate) fn first_wrong_step<W: Wire>(wire: &mut W, steps: &[Step]) -> Option<usize> {
    for place in 0..steps.len() {
        if !takes_step(wire, steps[place]) {
            return Some(place);
        }
    }
    None
}

/// Whether so many sessions were opened, and these bytes were written to them.
fn has_written(wire: &ScriptWire, wanted: &[&str]) -> bool {
    if wire.opened() != wanted.len() {
        return false;
    }
    for session in 0..wanted.len() {
        if wire.written(session) != wanted[session].as_bytes() {
            return false;
        }
    }
    true
}

/// The failing calls of a wire, the calls, and what was written to the sessions that were opened.
struct WireRow {
    fails: &'static [u64],
    steps: &'static [Step],
    written: &'static [&'static str],
}

const WIRES: &[WireRow] = &[
    WireRow {
        fails: &[],
        steps: &[
            Step::Read("."),
            Step::Write("a", Put::Failed),
            Step::Open(Opened::Session),
            Step::Read("abc"),
            Step::Write("12", Put::Done),
            Step::Read("defg"),
            Step::Write("345", Put::Failed),
            Step::Write("34", Put::Done),
            Step::Read("h"),
            Step::Read("."),
            Step::Open(Opened::Session),
            Step::Write("5", Put::Done),
            Step::Read("x"),
            Step::Open(Opened::NoMore),
            Step::Read("."),
            Step::Write("a", Put::Failed),
            Step::Open(Opened::NoMore),
        ],
        written: &["1234", "5"],
    },
    WireRow {
        fails: &[1, 3, 5],
        steps: &[
            Step::Open(Opened::Failed),
            Step::Open(Opened::Session),
            Step::Read("!"),
            Step::Read("abc"),
            Step::Write("1", Put::Failed),
            Step::Write("1", Put::Done),
            Step::Read("defg"),
        ],
        written: &["1"],
    },
    WireRow {
        fails: &[2],
        steps: &[
            Step::Open(Opened::Session),
            Step::Open(Opened::Failed),
            Step::Read("."),
        ],
        written: &[""],
    },
];

#[test]
fn wires_open_their_sessions(rt: HostRuntime) -> Result<(), Fail> {
    for row in WIRES {
        let mut wire = wire_of(rt.alloc(), row.fails, 4)?;
        let wrong = first_wrong_step(&mut wire, row.steps);
        assert_eq!(rt; (wrong, has_written(&wire, row.written)), (None, true));
    }
    Ok(())
}
