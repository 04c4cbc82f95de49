//! The bytes of a session, and a wire that gives them.
ghost use Rattle.std.specs.Prelude.{◌<◌, All, IfOk, length};

use anyhow::Context;
use edge_io::ScriptWire;
use std::alloc::{AllocError, Global};

/// How often a session asks for each of the three calls.
const ROUNDS: u32 = 3_000;

/// Bytes that the answers to a session have: a bind_ack of 56, and in each round 28, 28 and 52.
const ANSWERED: usize = 324_056;

/// A bind to the time service.
const BIND: &[u8; 72] =
    b"\x05\x00\x0B\x03\x10\x00\x00\x00\x48\x00\x00\x00\x01\x00\x00\x00\xD0\x16\xD0\x16\x00\x00\x00\x00\
\x01\x00\x00\x00\x00\x00\x01\x00\x84\xD8\xB6\x8F\x88\x23\xD0\x11\x8C\x35\x00\xC0\x4F\xDA\x27\x95\
\x04\x00\x01\x00\x04\x5D\x88\x8A\xEB\x1C\xC9\x11\x9F\xE8\x08\x00\x2B\x10\x48\x60\x02\x00\x00\x00";

/// The calls sync with wait 1 and flags 2, source and bits: 32, 24 and 24 bytes.
const CALLS: &[u8; 80] =
    b"\x05\x00\x00\x03\x10\x00\x00\x00\x20\x00\x00\x00\x02\x00\x00\x00\x08\x00\x00\x00\x00\x00\x00\x00\
\x01\x00\x00\x00\x02\x00\x00\x00\x05\x00\x00\x03\x10\x00\x00\x00\x18\x00\x00\x00\x03\x00\x00\x00\
\x00\x00\x00\x00\x00\x00\x03\x00\x05\x00\x00\x03\x10\x00\x00\x00\x18\x00\x00\x00\x04\x00\x00\x00\
\x00\x00\x00\x00\x00\x00\x01\x00";

/// The bytes of a session: the bind and all calls.
pub fn session(alloc: Global) -> Result<Vec<u8>, AllocError> {
    let mut bytes = Vec::new(alloc);
    bytes.extend_from_slice(BIND)?;
    for _ in 0..ROUNDS {
        bytes.extend_from_slice(CALLS)?;
    }
    Ok(bytes)
}

/// A wire with one session of these bytes, which come whole, and with room for its answers.
pub fn wire_of(alloc: Global, bytes: &[u8]) -> anyhow::Result<ScriptWire> {
    let sessions = one_session(alloc, bytes)?;
    ScriptWire::new(alloc, sessions, Vec::new(alloc), ANSWERED)
        .ok()
        .context("out of memory")
}

/// One session of one piece.
fn one_session(alloc: Global, bytes: &[u8]) -> Result<Vec<Vec<Vec<u8>>>, AllocError>
    ensures { IfOk result (λ sessions.
        All (λ pieces. All (λ piece. 0 < length piece.items) pieces.items) sessions.items) }
{
    let mut pieces = Vec::new(alloc);
    if !bytes.is_empty() {
        pieces.push(bytes.to_vec(alloc)?)?;
    }
    let mut sessions = Vec::new(alloc);
    sessions.push(pieces)?;
    Ok(sessions)
}
