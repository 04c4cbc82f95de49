//! PDUs whose bytes were computed outside, and what a reader makes of them.
use crate::{BIND, BodyBytes, PduFault, PduReader, read_bind, write_pdu};
use arrayvec::ArrayVec;
use edge_traits::{Opened, Put, Take, Wire};
use std::process::Abort;
use std::test::Fail;

/// A bind of three contexts, a request, two responses and a fault: 160, 32, 28, 52 and 32 bytes. They are Python's:
/// `struct.pack("<4B4sHHI", 5, 0, kind, 3, b"\x10\0\0\0", 16 + len(body), 0, call) + body`. The body of the bind is
/// `struct.pack("<HHIB3x", 5840, 5840, 0, 3)`, then per context `struct.pack("<HBB", id, 1, 0)`, the interface's
/// `uuid.UUID(..).bytes_le`, `struct.pack("<HH", 4, 1)` and the syntax: NDR's `bytes_le` and version 2, or 16 bytes 11
/// or 22 and version 1. The request's is `struct.pack("<IHHII", 8, 0, 0, 1, 2)`, the first response's
/// `struct.pack("<IHHI", 4, 0, 0, 0)`, the fault's `struct.pack("<IHHII", 0, 0, 0, 0x1C010002, 0)`, and the second
/// response's `struct.pack("<IHH4I8sI", 28, 0, 0, 0x20000, 4, 0, 4, "DC1\0".encode("utf-16le"), 0)`.
const SESSION: &[u8; 304] =
    b"\x05\x00\x0B\x03\x10\x00\x00\x00\xA0\x00\x00\x00\x01\x00\x00\x00\xD0\x16\xD0\x16\
\x00\x00\x00\x00\x03\x00\x00\x00\x00\x00\x01\x00\x84\xD8\xB6\x8F\x88\x23\xD0\x11\
\x8C\x35\x00\xC0\x4F\xDA\x27\x95\x04\x00\x01\x00\x04\x5D\x88\x8A\xEB\x1C\xC9\x11\
\x9F\xE8\x08\x00\x2B\x10\x48\x60\x02\x00\x00\x00\x01\x00\x01\x00\x84\xD8\xB6\x8F\
\x88\x23\xD0\x11\x8C\x35\x00\xC0\x4F\xDA\x27\x95\x04\x00\x01\x00\x11\x11\x11\x11\
\x11\x11\x11\x11\x11\x11\x11\x11\x11\x11\x11\x11\x01\x00\x00\x00\x02\x00\x01\x00\
\x84\xD8\xB6\x8F\x88\x23\xD0\x11\x8C\x35\x00\xC0\x4F\xDA\x27\x95\x04\x00\x01\x00\
\x22\x22\x22\x22\x22\x22\x22\x22\x22\x22\x22\x22\x22\x22\x22\x22\x01\x00\x00\x00\
\x05\x00\x00\x03\x10\x00\x00\x00\x20\x00\x00\x00\x02\x00\x00\x00\x08\x00\x00\x00\
\x00\x00\x00\x00\x01\x00\x00\x00\x02\x00\x00\x00\
\x05\x00\x02\x03\x10\x00\x00\x00\x1C\x00\x00\x00\x02\x00\x00\x00\x04\x00\x00\x00\
\x00\x00\x00\x00\x00\x00\x00\x00\
\x05\x00\x02\x03\x10\x00\x00\x00\x34\x00\x00\x00\x03\x00\x00\x00\x1C\x00\x00\x00\
\x00\x00\x00\x00\x00\x00\x02\x00\x04\x00\x00\x00\x00\x00\x00\x00\x04\x00\x00\x00\
\x44\x00\x43\x00\x31\x00\x00\x00\x00\x00\x00\x00\
\x05\x00\x03\x03\x10\x00\x00\x00\x20\x00\x00\x00\x05\x00\x00\x00\x00\x00\x00\x00\
\x00\x00\x00\x00\x02\x00\x01\x1C\x00\x00\x00\x00";

/// A session whose bytes come in pieces of this size at most, and what was written to it. The read with the number
/// `fails` fails, and every write where `write_fails` says so.
#[derive(Drop)]
struct Pieces<'a> {
    open: bool,
    bytes: &'a [u8],
    at: usize,
    size: usize,
    reads: usize,
    fails: usize,
    faults: u64,
    written: ArrayVec<u8, 400>,
    writes: u64,
    write_fails: bool,
    write_faults: u64,
}

impl Wire for Pieces<'_> {
    ghost use Rattle.std.specs.Prelude.{None};

    ghost told = { λ _. None };

    ghost is_open = { λ w. w.open };

    ghost faults = { λ w. w.faults };

    ghost write_faults = { λ w. w.write_faults };

    fn next_session(&mut self) -> Opened {
        self.open = false;
        Opened::NoMore
    }

    fn read(&mut self, buf: &mut [u8]) -> Take {
        self.reads = self.reads.saturating_add(1);
        if !self.open || self.at >= self.bytes.len() && self.reads != self.fails {
            return Take::End;
        }
        if self.reads == self.fails {
            self.faults = self.faults.saturating_add(1);
            return Take::Failed;
        }
        let len = self
            .size
            .clamp(1, buf.len())
            .min(self.bytes.len() - self.at);
        buf[..len].copy_from_slice(&self.bytes[self.at..self.at + len]);
        self.at += len;
        Take::Bytes(len)
    }

    fn write(&mut self, piece: &[u8]) -> Put {
        self.writes = self.writes.saturating_add(1);
        if !self.open || self.write_fails || self.written.try_extend_from_slice(piece).is_err() {
            self.write_faults = self.write_faults.saturating_add(1);
            return Put::Failed;
        }
        Put::Done
    }
}

fn in_pieces(bytes: &[u8], size: usize, fails: usize) -> Pieces<'_> {
    Pieces {
        open: true,
        bytes,
        at: 0,
        size,
        reads: 0,
        fails,
        faults: 0,
        written: ArrayVec::new(),
        writes: 0,
        write_fails: false,
        write_faults: 0,
    }
}

/// How many PDUs are read, how they end, and the last call identifier. Only a fault leaves the reader dead.
fn read_all<W: Wire>(rt: &impl Abort, wire: &mut W) -> (usize, Option<PduFault>, Option<u32>) {
    let mut reader = PduReader::new();
    for count in 0..100 {
        if !reader.alive() || reader.place() >= 1 << 60 {
            return (count, None, None);
        }
        match reader.next(wire) {
            Ok(Some(_)) => assert!(rt; reader.alive()),
            Ok(None) => {
                assert!(rt; reader.alive());
                return (count, None, reader.last_call());
            }
            Err(fault) => {
                assert!(rt; !reader.alive());
                return (count, Some(fault), reader.last_call());
            }
        }
    }
    (100, None, None)
}

/// A PDU of so many bytes, all zero behind type, flags, length and, in a bind, the number of contexts.
fn zero_pdu(kind: u8, flags: u8, len: u16, offered: u8) -> ArrayVec<u8, 6_000> {
    let mut pdu = ArrayVec::new();
    let [low, high] = len.to_le_bytes();
    let head = [
        5, 0, kind, flags, 0x10, 0, 0, 0, low, high, 0, 0, 7, 0, 0, 0,
    ];
    let _ = pdu.try_extend_from_slice(&head);
    for place in 16..len {
        let _ = pdu.try_push(if place == 24 { offered } else { 0 });
    }
    pdu
}

#[test]
fn pdus_of_one_rpc_session(rt: HostRuntime) {
    for cut in 0..=SESSION.len() {
        let want = match cut {
            0 => (0, None),
            1..160 => (0, Some(PduFault::Torn(0))),
            160 => (1, None),
            161..192 => (1, Some(PduFault::Torn(160))),
            192 => (2, None),
            193..220 => (2, Some(PduFault::Torn(192))),
            220 => (3, None),
            221..272 => (3, Some(PduFault::Torn(220))),
            272 => (4, None),
            273..304 => (4, Some(PduFault::Torn(272))),
            _ => (5, None),
        };
        for size in [1, 7, 304] {
            let (count, fault, _) = read_all(&rt, &mut in_pieces(&SESSION[..cut], size, 0));
            assert_eq!(rt; (count, fault), want, "{cut} bytes in pieces of {size}");
        }
    }
}

#[test]
fn fields_and_the_same_bytes_again(rt: HostRuntime) {
    let session = SESSION.as_slice();
    for size in [1, 7, 304] {
        let mut wire = in_pieces(SESSION, size, 0);
        let mut reader = PduReader::new();
        for (kind, call, from, to) in [
            (11, 1, 0, 160),
            (0, 2, 160, 192),
            (2, 2, 192, 220),
            (2, 3, 220, 272),
            (3, 5, 272, 304),
        ] {
            assert!(rt; reader.alive() && reader.place() == from as u64);
            let Ok(Some(pdu)) = reader.next(&mut wire) else {
                panic!(rt; "no PDU before {to}");
            };
            assert_eq!(rt; (pdu.kind, pdu.flags, pdu.call_id), (kind, 3, call));
            assert_eq!(rt;
                (reader.place(), reader.last_call()),
                (to as u64, Some(call))
            );
            assert_eq!(rt; wire.at, to, "no byte behind the PDU");

            let mut out = in_pieces(&[], 1, 0);
            assert_eq!(rt; write_pdu(&pdu, &mut out), Put::Done);
            assert_eq!(rt; out.written.as_slice(), &session[from..to]);
            assert_eq!(rt; out.writes, 1, "one write of the whole PDU");
            out.write_fails = true;
            assert_eq!(rt; write_pdu(&pdu, &mut out), Put::Failed);
            assert_eq!(rt; out.write_faults, 1);
        }
    }
}

/// What a reader says of a header that stands behind a request of 32 bytes, and up to where it takes bytes.
fn check_header(rt: &impl Abort, header: &[u8], fault: PduFault, end: usize) {
    let session = SESSION.as_slice();
    let mut bytes: ArrayVec<u8, 100> = ArrayVec::new();
    assert!(rt; bytes.try_extend_from_slice(&session[160..192]).is_ok());
    assert!(rt; bytes.try_extend_from_slice(header).is_ok());
    let mut wire = in_pieces(bytes.as_slice(), 7, 0);
    let (count, found, _) = read_all(rt, &mut wire);
    assert_eq!(rt; (count, found), (1, Some(fault)), "{header:?}");
    assert_eq!(rt; wire.at, end, "{header:?}");
}

#[test]
fn each_fault_of_a_header(rt: HostRuntime) {
    let header = b"\x05\0\0\x03\x10\0\0\0\x18\0\0\0\x09\0\0\0\0\0\0\0\0\0\0\0".as_slice();
    // A byte of it that is changed, and the fault.
    for (place, byte, fault) in [
        (0, 0x04, PduFault::BadVersion(32)),
        (1, 0x01, PduFault::BadVersion(32)),
        (2, 0x01, PduFault::BadType(32)),
        (2, 0x04, PduFault::BadType(32)),
        (2, 0x0E, PduFault::BadType(32)),
        (3, 0x01, PduFault::BadFragment(32)),
        (3, 0x02, PduFault::BadFragment(32)),
        (3, 0xFC, PduFault::BadFragment(32)),
        (4, 0x00, PduFault::BadDrep(32)),
        (4, 0x20, PduFault::BadDrep(32)),
        (4, 0x01, PduFault::BadDrep(32)),
        (8, 0x0F, PduFault::BadLength(32)),
        (9, 0x17, PduFault::BadLength(32)),
        (10, 0x01, PduFault::BadAuth(32)),
        (11, 0x01, PduFault::BadAuth(32)),
    ] {
        let mut bytes: ArrayVec<u8, 24> = ArrayVec::new();
        assert!(rt; bytes.try_extend_from_slice(&header[..place]).is_ok());
        assert!(rt; bytes.try_push(byte).is_ok());
        assert!(rt; bytes.try_extend_from_slice(&header[place + 1..]).is_ok());
        check_header(&rt, bytes.as_slice(), fault, 48);
    }
}

#[test]
fn first_fault_of_a_header(rt: HostRuntime) {
    // Each before all later ones.
    let faults: [(&[u8], PduFault); 6] = [
        (
            b"\x05\x01\x01\0\0\0\0\0\xFF\xFF\x01\0\x09\0\0\0\0",
            PduFault::BadVersion(32),
        ),
        (
            b"\x05\0\x01\0\0\0\0\0\xFF\xFF\x01\0\x09\0\0\0\0",
            PduFault::BadType(32),
        ),
        (
            b"\x05\0\0\0\0\0\0\0\xFF\xFF\x01\0\x09\0\0\0\0",
            PduFault::BadFragment(32),
        ),
        (
            b"\x05\0\0\x03\0\0\0\0\xFF\xFF\x01\0\x09\0\0\0\0",
            PduFault::BadDrep(32),
        ),
        (
            b"\x05\0\0\x03\x10\0\0\0\xFF\xFF\x01\0\x09\0\0\0\0",
            PduFault::BadLength(32),
        ),
        (
            b"\x05\0\0\x03\x10\0\0\0\x12\0\x01\0\x09\0\0\0\0",
            PduFault::BadAuth(32),
        ),
    ];
    for (header, fault) in faults {
        check_header(&rt, header, fault, 48);
    }
}

/// The header of a request of 18 bytes with two of its bytes changed, each at its place.
fn header_with(changes: [(usize, u8); 2]) -> [u8; 16] {
    let mut header = *b"\x05\0\0\x03\x10\0\0\0\x12\0\0\0\x09\0\0\0";
    for (place, byte) in changes {
        if let Some(changed) = header.get_mut(place) {
            *changed = byte;
        }
    }
    header
}

#[test]
fn each_fault_before_each_later_one(rt: HostRuntime) {
    // A byte of the header that is changed, and the fault, in the order of the list.
    let faults = [
        (1, 0x01, PduFault::BadVersion(32)),
        (2, 0x01, PduFault::BadType(32)),
        (3, 0x01, PduFault::BadFragment(32)),
        (4, 0x00, PduFault::BadDrep(32)),
        (9, 0x17, PduFault::BadLength(32)),
        (10, 0x01, PduFault::BadAuth(32)),
    ];
    for (order, (place, byte, fault)) in faults.into_iter().enumerate() {
        for (later, (other_place, other_byte, _)) in faults.into_iter().enumerate() {
            if later < order {
                continue;
            }
            let header = header_with([(place, byte), (other_place, other_byte)]);
            check_header(&rt, &header[..15], PduFault::Torn(32), 47);
            // Behind the header the session ends, or a body stands that is too short for a request.
            for behind in 0..=2 {
                let mut bytes: ArrayVec<u8, 18> = ArrayVec::new();
                assert!(rt; bytes.try_extend_from_slice(&header).is_ok());
                assert!(rt; bytes.try_extend_from_slice(&[0; 2][..behind]).is_ok());
                check_header(&rt, bytes.as_slice(), fault, 48);
            }
        }
    }
}

#[test]
fn ends_of_a_session_and_short_bodies(rt: HostRuntime) {
    // The bytes, their fault, and how many are taken. Numbers are least significant byte first: 0x2010 is above the
    // greatest length, 0x1020 wouldn't be.
    let faults: [(&[u8], PduFault, usize); 4] = [
        (
            b"\x04\x01\x01\0\0\0\0\0\xFF\xFF\x01\0\x09\0\0",
            PduFault::Torn(32),
            47,
        ),
        (
            b"\x05\0\0\x03\x10\0\0\0\x10\x20\0\0\x09\0\0\0\0",
            PduFault::BadLength(32),
            48,
        ),
        (
            b"\x05\0\0\x03\x10\0\0\0\x12\0\0\0\x09\0\0\0\0",
            PduFault::Torn(32),
            49,
        ),
        (
            b"\x05\0\0\x03\x10\0\0\0\x12\0\0\0\x09\0\0\0\0\0\0",
            PduFault::BadBody(32),
            50,
        ),
    ];
    for (bytes, fault, taken) in faults {
        check_header(&rt, bytes, fault, taken);
    }
}

#[test]
fn bodies_of_5824_bytes(rt: HostRuntime) {
    let bytes = [7; 5_825];
    for (len, fits) in [(0, true), (5_824, true), (5_825, false)] {
        match BodyBytes::from_slice(&bytes[..len]) {
            Some(body) => {
                assert!(rt; fits);
                assert_eq!(rt; body.as_slice(), &bytes[..len]);
            }
            None => assert!(rt; !fits),
        }
    }
}

#[test]
fn bodies_as_long_as_their_types_ask(rt: HostRuntime) {
    for (kind, flags, needed) in [
        (0, 0x03, 8),
        (0, 0x83, 24),
        (0, 0x7F, 8),
        (2, 0x83, 8),
        (3, 0x03, 12),
        (11, 0x83, 12),
        (12, 0x03, 10),
        (13, 0x03, 2),
    ] {
        let whole = zero_pdu(kind, flags, 16 + needed, 0);
        let found = read_all(&rt, &mut in_pieces(whole.as_slice(), 7, 0));
        assert_eq!(rt; found, (1, None, Some(7)), "type {kind}");
        let short = zero_pdu(kind, flags, 15 + needed, 0);
        let found = read_all(&rt, &mut in_pieces(short.as_slice(), 7, 0));
        assert_eq!(rt;
            found,
            (0, Some(PduFault::BadBody(0)), Some(7)),
            "type {kind}"
        );
    }
    for (len, want) in [
        (15, (0, Some(PduFault::BadLength(0)), Some(7))),
        (16, (0, Some(PduFault::BadBody(0)), Some(7))),
        (5_840, (1, None, Some(7))),
        (5_841, (0, Some(PduFault::BadLength(0)), Some(7))),
    ] {
        let pdu = zero_pdu(0, 3, len, 0);
        assert_eq!(rt;
            read_all(&rt, &mut in_pieces(pdu.as_slice(), 1_000, 0)),
            want,
            "{len}"
        );
    }
}

#[test]
fn numbers_of_contexts(rt: HostRuntime) {
    for (offered, len, kept) in [
        (0, 28, Some(0)),
        (1, 52, Some(1)),
        (1, 51, None),
        (8, 220, Some(8)),
        (9, 244, Some(8)),
        (9, 243, None),
        (242, 5_836, Some(8)),
        (255, 5_840, None),
    ] {
        let bytes = zero_pdu(BIND, 3, len, offered);
        match PduReader::new().next(&mut in_pieces(bytes.as_slice(), 5_840, 0)) {
            Ok(Some(pdu)) if pdu.kind == BIND => {
                let bind = read_bind(&pdu);
                assert_eq!(rt; (bind.offered, Some(bind.contexts.len())), (offered, kept));
            }
            Err(fault) => assert_eq!(rt; (fault, kept), (PduFault::BadBody(0), None)),
            _ => panic!(rt; "{offered} contexts"),
        }
    }
}

/// The bind in these bytes offers this context first, and then two that are known and have no NDR.
fn check_contexts(rt: &impl Abort, bytes: &[u8], first: (u16, bool, bool)) {
    match PduReader::new().next(&mut in_pieces(bytes, 160, 0)) {
        Ok(Some(pdu)) if pdu.kind == BIND => {
            let bind = read_bind(&pdu);
            assert_eq!(rt;
                (bind.max_xmit, bind.max_recv, bind.group, bind.offered),
                (5_840, 5_840, 0, 3)
            );
            assert!(rt; bind.contexts.len() == 3);
            let context = bind.contexts.at(0);
            assert_eq!(rt; (context.id, context.known, context.ndr), first);
            let context = bind.contexts.at(1);
            assert_eq!(rt; (context.id, context.known, context.ndr), (1, true, false));
            let context = bind.contexts.at(2);
            assert_eq!(rt; (context.id, context.known, context.ndr), (2, true, false));
        }
        _ => panic!(rt; "no bind"),
    }
}

#[test]
fn contexts_that_are_known_and_have_ndr(rt: HostRuntime) {
    // A byte of the session's bind that is changed, and what its first context then is.
    for (place, byte, id, known, ndr) in [
        (16, 0xD0, 0, true, true),
        (29, 0x02, 512, true, true),
        (31, 0x09, 0, true, true),
        (32, 0x85, 0, false, true),
        (47, 0x94, 0, false, true),
        (48, 0x03, 0, false, true),
        (49, 0x01, 0, false, true),
        (50, 0x00, 0, true, true),
        (50, 0x02, 0, false, true),
        (51, 0x01, 0, false, true),
        (52, 0x05, 0, true, false),
        (68, 0x01, 0, true, false),
        (70, 0x01, 0, true, false),
    ] {
        let session = SESSION.as_slice();
        let mut bytes: ArrayVec<u8, 160> = ArrayVec::new();
        assert!(rt; bytes.try_extend_from_slice(&session[..place]).is_ok());
        assert!(rt; bytes.try_push(byte).is_ok());
        assert!(rt;
            bytes
                .try_extend_from_slice(&session[place + 1..160])
                .is_ok()
        );
        check_contexts(&rt, bytes.as_slice(), (id, known, ndr));
    }
}

#[test]
fn failed_reads(rt: HostRuntime) {
    for (fails, count, last_call) in [
        (1, 0, None),
        (2, 0, Some(1)),
        (3, 1, Some(1)),
        (4, 1, Some(2)),
        (10, 4, Some(5)),
        (11, 5, Some(5)),
    ] {
        let mut wire = in_pieces(SESSION, 304, fails);
        let want = (count, Some(PduFault::ReadFault), last_call);
        assert_eq!(rt; read_all(&rt, &mut wire), want, "read {fails}");
        assert_eq!(rt; (wire.reads, wire.faults), (fails, 1));
    }
    let mut wire = in_pieces(SESSION, 304, 0);
    assert_eq!(rt; wire.next_session(), Opened::NoMore);
    assert_eq!(rt;
        read_all(&rt, &mut wire),
        (0, None, None),
        "no session is open"
    );
}
