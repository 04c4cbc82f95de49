//! PDUs of remote calls, read from a wire that tells what was taken.
ghost use Rattle.std.specs.Prelude.{◌<◌, All, IfOk, length};

use edge_io::{Opened, Put, ScriptWire, Wire};
use rpc_pdu::{PduFault, PduReader, write_pdu};
use std::alloc::{AllocError, Global};
use std::process::Abort;
use std::test::Fail;

// A bind of three contexts, a request, two responses and a fault: 160, 32, 28, 52 and 32 bytes. They are Python's:
// `struct.pack("<4B4sHHI", 5, 0, kind, 3, b"\x10\0\0\0", 16 + len(body), 0, call) + body`. The body of the bind is
// `struct.pack("<HHIB3x", 5840, 5840, 0, 3)`, then per context `struct.pack("<HBB", id, 1, 0)`, the interface's
// `uuid.UUID(..).bytes_le`, `struct.pack("<HH", 4, 1)` and the syntax: NDR's `bytes_le` and version 2, or 16 bytes 11
// or 22 and version 1. The request's is `struct.pack("<IHHII", 8, 0, 0, 1, 2)`, the first response's
// `struct.pack("<IHHI", 4, 0, 0, 0)`, the fault's `struct.pack("<IHHII", 0, 0, 0, 0x1C010002, 0)`, and the second
// response's `struct.pack("<IHH4I8sI", 28, 0, 0, 0x20000, 4, 0, 4, "DC1\0".encode("utf-16le"), 0)`.
// They are the same bytes as SESSION in `rpc_pdu/src/tests.rt`.
const SESSION: &[u8; 304] =
    b"\x05\x00\x0B\x03\x10\x00\x00\x00\xA0\x00\x00\x00\x01\x00\x00\x00\xD0\x16\xD0\x16\
\x00\x00\x00\x00\x03\x00\x00\x00\x00\x00\x01\x00\x84\xD8\xB6\x8F\x88\x23\xD0\x11\
\x8C\x35\x00\xC0\x4F\xDA\x27\x95\x04\x00\x01\x00\x04\x5D\x88\x8A\xEB\x1C\xC9\x11\
\x9F\xE8\x08\x00\x2B\x10\x48\x60\x02\x00\x00\x00\x01\x00\x01\x00\x84\xD8\xB6\x8F\
\x88\x23\xD0\x11\x8C\x35\x00\xC0\x4F\xDA\x27\x95\x04\x00\x01\x00\x11\x11\x11\x11\
\x11\x11\x11\x11\x11\x11\x11\x11\x11\x11\x11\x11\x01\x00\x00\x00\x02\x00\x01\x00\
\x84\xD8\xB6\x8F\x88\x23\xD0\x11\x8C\x35\x00\xC0\x4F\xDA\x27\x95\x04\x00\x01\x00\
\x22\x22\x22\x22\x22\x22\x22\x22\x22\x22\x22\x22\x22\x22\x22\x22\x01\x00\x00\x00\
\x05\x00\x00\x03\x10\x00\x00\x00\x20\x00\x00\x00\x02\x00\x00\x00\x08\x00\x00\x00\
\x00\x00\x00\x00\x01\x00\x00\x00\x02\x00\x00\x00\
\x05\x00\x02\x03\x10\x00\x00\x00\x1C\x00\x00\x00\x02\x00\x00\x00\x04\x00\x00\x00\
\x00\x00\x00\x00\x00\x00\x00\x00\
\x05\x00\x02\x03\x10\x00\x00\x00\x34\x00\x00\x00\x03\x00\x00\x00\x1C\x00\x00\x00\
\x00\x00\x00\x00\x00\x00\x02\x00\x04\x00\x00\x00\x00\x00\x00\x00\x04\x00\x00\x00\
\x44\x00\x43\x00\x31\x00\x00\x00\x00\x00\x00\x00\
\x05\x00\x03\x03\x10\x00\x00\x00\x20\x00\x00\x00\x05\x00\x00\x00\x00\x00\x00\x00\
\x00\x00\x00\x00\x02\x00\x01\x1C\x00\x00\x00\x00";

// A request whose length is too great.
const HEADER: &[u8; 16] = b"\x05\0\0\x03\x10\0\0\0\xF0\xFF\0\0\x02\0\0\0";

/// One session, whose bytes come in pieces of this size at most.
fn one_session(alloc: Global, bytes: &[u8], size: usize) -> Result<Vec<Vec<Vec<u8>>>, AllocError>
    ensures { IfOk result (λ sessions.
        All (λ pieces. All (λ piece. 0 < length piece.items) pieces.items) sessions.items) }
{
    let mut pieces = Vec::new(alloc);
    let mut rest = bytes;
    while !rest.is_empty() {
        let (piece, behind) = rest.split_at(size.clamp(1, rest.len()));
        pieces.push(piece.to_vec(alloc)?)?;
        rest = behind;
    }
    let mut sessions = Vec::new(alloc);
    sessions.push(pieces)?;
    Ok(sessions)
}

/// How many PDUs are read, and how they end. What is read is written again.
fn read_all(rt: &impl Abort, wire: &mut ScriptWire) -> (usize, Option<PduFault>) {
    let mut reader = PduReader::new();
    for count in 0..10 {
        if !reader.alive() || reader.place() >= 1 << 60 {
            return (count, None);
        }
        match reader.next(wire) {
            Ok(Some(pdu)) => assert_eq!(rt; write_pdu(&pdu, wire), Put::Done),
            Ok(None) => return (count, None),
            Err(fault) => return (count, Some(fault)),
        }
    }
    (10, None)
}

// The five are read alike whole, in pieces of 7 and byte by byte, and written as they came.
#[test]
fn pdus_in_any_pieces(rt: HostRuntime) -> Result<(), Fail> {
    let alloc = rt.alloc();
    for size in [1, 7, 304] {
        let sessions = one_session(alloc, SESSION, size)?;
        let mut wire = ScriptWire::new(alloc, sessions, Vec::new(alloc), 304)?;
        assert_eq!(rt; wire.next_session(), Opened::Session);
        assert_eq!(rt; read_all(&rt, &mut wire), (5, None), "pieces of {size}");
        assert!(rt; wire.opened() == 1);
        assert_eq!(rt; wire.written(0), SESSION.as_slice());
    }
    Ok(())
}

/// How many PDUs end before a cut of the session, and how they end.
fn end_of_cut(cut: usize) -> (usize, Option<PduFault>) {
    match cut {
        0 => (0, None),
        1..160 => (0, Some(PduFault::Torn(0))),
        160 => (1, None),
        161..192 => (1, Some(PduFault::Torn(160))),
        192 => (2, None),
        193..220 => (2, Some(PduFault::Torn(192))),
        220 => (3, None),
        221..272 => (3, Some(PduFault::Torn(220))),
        272 => (4, None),
        273..304 => (4, Some(PduFault::Torn(272))),
        _ => (5, None),
    }
}

#[test]
fn pdus_of_a_cut_session(rt: HostRuntime) -> Result<(), Fail> {
    let alloc = rt.alloc();
    let session = SESSION.as_slice();
    for cut in 0..=session.len() {
        let sessions = one_session(alloc, &session[..cut], 7)?;
        let mut wire = ScriptWire::new(alloc, sessions, Vec::new(alloc), 304)?;
        assert_eq!(rt; wire.next_session(), Opened::Session);
        assert_eq!(rt; read_all(&rt, &mut wire), end_of_cut(cut), "{cut} bytes");
    }
    Ok(())
}

// The header as it is, with one byte changed each, and without its last byte; at the front of the session, and behind
// the request of 32 bytes.
#[test]
fn first_faults_of_a_session(rt: HostRuntime) -> Result<(), Fail> {
    let alloc = rt.alloc();
    let session = SESSION.as_slice();
    for (front, changed, byte, len, fault) in [
        (0, 0, 0x05, 16, PduFault::BadLength(0)),
        (0, 2, 0x0A, 16, PduFault::BadType(0)),
        (0, 3, 0x01, 16, PduFault::BadFragment(0)),
        (0, 4, 0x00, 16, PduFault::BadDrep(0)),
        (0, 0, 0x05, 15, PduFault::Torn(0)),
        (32, 0, 0x05, 16, PduFault::BadLength(32)),
        (32, 2, 0x0A, 16, PduFault::BadType(32)),
        (32, 3, 0x01, 16, PduFault::BadFragment(32)),
        (32, 4, 0x00, 16, PduFault::BadDrep(32)),
        (32, 0, 0x05, 15, PduFault::Torn(32)),
    ] {
        let mut header = *HEADER;
        assert!(rt; front <= 32 && changed < 16 && len <= 16);
        header[changed] = byte;
        let mut bytes = Vec::new(alloc);
        bytes.extend_from_slice(&session[160..160 + front])?;
        bytes.extend_from_slice(&header[..len])?;
        for size in [1, 7, 48] {
            let sessions = one_session(alloc, &bytes, size)?;
            let mut wire = ScriptWire::new(alloc, sessions, Vec::new(alloc), 32)?;
            assert_eq!(rt; wire.next_session(), Opened::Session);
            assert_eq!(rt;
                read_all(&rt, &mut wire),
                (front / 32, Some(fault)),
                "pieces of {size}"
            );
        }
    }
    Ok(())
}
