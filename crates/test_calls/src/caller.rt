//! What a client writes, and what it makes of replies whose bytes were computed outside.
use arrayvec::ArrayVec;
use edge_traits::{Opened, Put, Take, Wire};
use partner_pick::Role;
use std::process::Abort;
use w32t_calls::{CallFault, Caller};

mod sources;

/// A bind and the calls sync with wait 1 and flags 2, source and bits: 72, 32, 24 and 24 bytes. They are Python's:
/// `struct.pack("<4B4sHHI", 5, 0, kind, 3, b"\x10\0\0\0", 16 + len(body), 0, call) + body`. The body of the bind is
/// `struct.pack("<HHIB3x", 5840, 5840, 0, 1) + struct.pack("<HBB", 0, 1, 0)`, the interface's `uuid.UUID(..).bytes_le`,
/// `struct.pack("<HH", 4, 1)`, NDR's `bytes_le` and `struct.pack("<I", 2)`. Those of the calls are
/// `struct.pack("<IHHII", 8, 0, 0, 1, 2)` and `struct.pack("<IHH", 0, 0, operation)`.
const ASKED: &[u8; 152] =
    b"\x05\x00\x0B\x03\x10\x00\x00\x00\x48\x00\x00\x00\x01\x00\x00\x00\xD0\x16\xD0\x16\
\x00\x00\x00\x00\x01\x00\x00\x00\x00\x00\x01\x00\x84\xD8\xB6\x8F\x88\x23\xD0\x11\
\x8C\x35\x00\xC0\x4F\xDA\x27\x95\x04\x00\x01\x00\x04\x5D\x88\x8A\xEB\x1C\xC9\x11\
\x9F\xE8\x08\x00\x2B\x10\x48\x60\x02\x00\x00\x00\x05\x00\x00\x03\x10\x00\x00\x00\
\x20\x00\x00\x00\x02\x00\x00\x00\x08\x00\x00\x00\x00\x00\x00\x00\x01\x00\x00\x00\
\x02\x00\x00\x00\x05\x00\x00\x03\x10\x00\x00\x00\x18\x00\x00\x00\x03\x00\x00\x00\
\x00\x00\x00\x00\x00\x00\x03\x00\x05\x00\x00\x03\x10\x00\x00\x00\x18\x00\x00\x00\
\x04\x00\x00\x00\x00\x00\x00\x00\x00\x00\x01\x00";

/// The replies to them, 56, 28, 52 and 28 bytes, made in the same way. The bodies are, with NDR as above,
/// `struct.pack("<HHIH2xB3x", 5840, 5840, 1, 0, 1) + struct.pack("<HH", 0, 0) + ndr`, `struct.pack("<IHHI", 4, 0, 0, 0)`,
/// `struct.pack("<IHH4I8sI", 28, 0, 0, 0x20000, 4, 0, 4, "DC1\0".encode("utf-16le"), 0)` and
/// `struct.pack("<IHHI", 4, 0, 0, 0x240)`.
const ANSWERED: &[u8; 164] =
    b"\x05\x00\x0C\x03\x10\x00\x00\x00\x38\x00\x00\x00\x01\x00\x00\x00\xD0\x16\xD0\x16\
\x01\x00\x00\x00\x00\x00\x00\x00\x01\x00\x00\x00\x00\x00\x00\x00\x04\x5D\x88\x8A\
\xEB\x1C\xC9\x11\x9F\xE8\x08\x00\x2B\x10\x48\x60\x02\x00\x00\x00\x05\x00\x02\x03\
\x10\x00\x00\x00\x1C\x00\x00\x00\x02\x00\x00\x00\x04\x00\x00\x00\x00\x00\x00\x00\
\x00\x00\x00\x00\x05\x00\x02\x03\x10\x00\x00\x00\x34\x00\x00\x00\x03\x00\x00\x00\
\x1C\x00\x00\x00\x00\x00\x00\x00\x00\x00\x02\x00\x04\x00\x00\x00\x00\x00\x00\x00\
\x04\x00\x00\x00\x44\x00\x43\x00\x31\x00\x00\x00\x00\x00\x00\x00\x05\x00\x02\x03\
\x10\x00\x00\x00\x1C\x00\x00\x00\x04\x00\x00\x00\x04\x00\x00\x00\x00\x00\x00\x00\
\x40\x02\x00\x00";

/// Bytes in the first reply.
const ACK_LEN: usize = 56;

/// A session whose bytes come in pieces of this size at most, and what was written to it. The read and the write with
/// these numbers fail.
#[derive(Drop)]
struct Pieces<'a> {
    open: bool,
    bytes: &'a [u8],
    at: usize,
    size: usize,
    reads: usize,
    fails: usize,
    faults: u64,
    written: ArrayVec<u8, 200>,
    writes: usize,
    write_fails: usize,
    write_faults: u64,
}

impl Wire for Pieces<'_> {
    ghost use Rattle.std.specs.Prelude.{None};

    ghost told = { λ _. None };

    ghost is_open = { λ w. w.open };

    ghost faults = { λ w. w.faults };

    ghost write_faults = { λ w. w.write_faults };

    fn next_session(&mut self) -> Opened {
        self.open = false;
        Opened::NoMore
    }

    fn read(&mut self, buf: &mut [u8]) -> Take {
        self.reads = self.reads.saturating_add(1);
        if !self.open || self.at >= self.bytes.len() && self.reads != self.fails {
            return Take::End;
        }
        if self.reads == self.fails {
            self.faults = self.faults.saturating_add(1);
            return Take::Failed;
        }
        let len = self
            .size
            .clamp(1, buf.len())
            .min(self.bytes.len() - self.at);
        buf[..len].copy_from_slice(&self.bytes[self.at..self.at + len]);
        self.at += len;
        Take::Bytes(len)
    }

    fn write(&mut self, piece: &[u8]) -> Put {
        self.writes = self.writes.saturating_add(1);
        if !self.open
            || self.writes == self.write_fails
            || self.written.try_extend_from_slice(piece).is_err()
        {
            self.write_faults = self.write_faults.saturating_add(1);
            return Put::Failed;
        }
        Put::Done
    }
}

fn in_pieces(bytes: &[u8], size: usize) -> Pieces<'_> {
    Pieces {
        open: true,
        bytes,
        at: 0,
        size,
        reads: 0,
        fails: 0,
        faults: 0,
        written: ArrayVec::new(),
        writes: 0,
        write_fails: 0,
        write_faults: 0,
    }
}

/// How many of the calls are answered, and what comes in place of the next answer.
fn converse<W: Wire>(rt: &impl Abort, wire: &mut W) -> (usize, Option<CallFault>) {
    let mut caller = Caller::new();
    if let Err(why) = caller.bind(wire) {
        return (0, Some(why));
    }
    match caller.sync(wire, 1, 2) {
        Ok(result) => assert_eq!(rt; result, 0),
        Err(why) => return (1, Some(why)),
    }
    match caller.source(wire) {
        Ok(name) => assert_eq!(rt; name.as_slice(), b"DC1".as_slice()),
        Err(why) => return (2, Some(why)),
    }
    match caller.bits(wire) {
        Ok(bits) => assert_eq!(rt; bits, 0x240),
        Err(why) => return (3, Some(why)),
    }
    (4, None)
}

#[test]
fn service_bits(rt: HostRuntime) {
    // For the flags 0 to 15.
    let member = [
        0, 0x40, 0, 0x40, 0x200, 0x240, 0x200, 0x240, 0, 0x40, 0, 0x40, 0x200, 0x240, 0x200, 0x240,
    ];
    let controller = [
        0, 0x40, 0x40, 0x40, 0x200, 0x240, 0x240, 0x240, 0, 0x40, 0x40, 0x40, 0x200, 0x240, 0x240,
        0x240,
    ];
    let pdc = [
        0, 0x40, 0x40, 0x40, 0x200, 0x240, 0x240, 0x240, 0x200, 0x240, 0x240, 0x240, 0x200, 0x240,
        0x240, 0x240,
    ];
    for flags in 0..16_u8 {
        let at = flags as usize;
        assert_eq!(rt;
            w32t_calls::service_bits(flags, Role::Member),
            member[at],
            "member {flags}"
        );
        assert_eq!(rt;
            w32t_calls::service_bits(flags, Role::Controller),
            controller[at],
            "controller {flags}"
        );
        assert_eq!(rt;
            w32t_calls::service_bits(flags, Role::Pdc),
            pdc[at],
            "pdc {flags}"
        );
    }
}

#[test]
fn one_rpc_session_of_a_client(rt: HostRuntime) {
    for cut in 0..=ANSWERED.len() {
        let (count, written) = match cut {
            0..56 => (0, 72),
            56..84 => (1, 104),
            84..136 => (2, 128),
            136..164 => (3, 152),
            _ => (4, 152),
        };
        let fault = if count < 4 {
            Some(CallFault::Torn)
        } else {
            None
        };
        for size in [1, 7, 164] {
            let mut wire = in_pieces(&ANSWERED[..cut], size);
            assert_eq!(rt;
                converse(&rt, &mut wire),
                (count, fault),
                "{cut} bytes in pieces of {size}"
            );
            assert_eq!(rt; wire.at, cut);
            assert_eq!(rt; wire.written.as_slice(), &ASKED[..written]);
        }
    }
}

#[test]
fn failing_wires(rt: HostRuntime) {
    // The read of a header and that of a body are two.
    for read in 1..=8 {
        let mut wire = in_pieces(ANSWERED, 164);
        wire.fails = read;
        assert_eq!(rt;
            converse(&rt, &mut wire),
            ((read - 1) / 2, Some(CallFault::ReadFault))
        );
        assert_eq!(rt; (wire.faults, wire.write_faults), (1, 0));
        assert_eq!(rt; wire.writes, (read - 1) / 2 + 1);
    }
    for write in 1..=4 {
        let mut wire = in_pieces(ANSWERED, 164);
        wire.write_fails = write;
        assert_eq!(rt;
            converse(&rt, &mut wire),
            (write - 1, Some(CallFault::WriteFault))
        );
        assert_eq!(rt; (wire.faults, wire.write_faults), (0, 1));
        assert_eq!(rt; wire.reads, 2 * (write - 1), "no read after it");
    }
    let mut wire = in_pieces(ANSWERED, 164);
    wire.open = false;
    assert_eq!(rt; converse(&rt, &mut wire), (0, Some(CallFault::WriteFault)));
    assert_eq!(rt; wire.reads, 0);
}

/// Bytes with one of them changed, if there is such a place.
fn changed(bytes: &[u8], place: usize, byte: u8) -> ArrayVec<u8, 300> {
    let mut out = ArrayVec::new();
    for (at, kept) in bytes.iter().enumerate() {
        let _ = out.try_push(if at == place { byte } else { *kept });
    }
    out
}

/// So many of the bytes, or all where they are fewer.
fn front(bytes: &[u8], len: usize) -> &[u8] {
    bytes.get(..len).unwrap_or(bytes)
}

/// What a bind says of this reply.
fn bound_by(reply: &[u8]) -> Result<(), CallFault> {
    Caller::new().bind(&mut in_pieces(reply, 7))
}

/// A PDU of this type, call identifier and body.
fn pdu(kind: u8, call: u8, body: &[u8]) -> ArrayVec<u8, 300> {
    let mut out = ArrayVec::new();
    let len = u16::try_from(body.len()).unwrap_or(0).saturating_add(16);
    let [low, high] = len.to_le_bytes();
    let head = [5, 0, kind, 3, 0x10, 0, 0, 0, low, high, 0, 0, call, 0, 0, 0];
    let _ = out.try_extend_from_slice(&head);
    let _ = out.try_extend_from_slice(body);
    out
}

/// The body of a bind_ack with a secondary address and results of these counts, whose first result is this one.
fn ack_body(address: u8, results: u8, first: u16) -> ArrayVec<u8, 300> {
    let mut out = ArrayVec::new();
    let _ = out.try_extend_from_slice(&[0xD0, 0x16, 0xD0, 0x16, 1, 0, 0, 0, address, 0]);
    for _ in 0..address {
        let _ = out.try_push(b'x');
    }
    for _ in 0..3 {
        if out.len() % 4 != 0 {
            let _ = out.try_push(0xEE);
        }
    }
    let _ = out.try_extend_from_slice(&[results, 0, 0, 0]);
    for result in 0..results {
        let code: u16 = if result == 0 { first } else { 1 };
        let _ = out.try_extend_from_slice(&code.to_le_bytes());
        let _ = out.try_extend_from_slice(&[0; 22]);
    }
    out
}

#[test]
fn replies_to_a_bind(rt: HostRuntime) {
    let ack = &ANSWERED[..ACK_LEN];
    assert_eq!(rt; bound_by(ack), Ok(()));
    // Version, type, fragment, data representation, length, authentication, and the call identifier.
    for (place, byte) in [
        (0, 4),
        (1, 1),
        (2, 1),
        (2, 0),
        (2, 2),
        (2, 3),
        (3, 1),
        (3, 2),
        (4, 0),
        (8, 15),
        (9, 0x17),
        (10, 1),
        (12, 0),
        (12, 2),
        (15, 1),
    ] {
        let reply = changed(ack, place, byte);
        assert_eq!(rt;
            bound_by(reply.as_slice()),
            Err(CallFault::BadReply(0)),
            "{byte} at {place}"
        );
    }
    // Flags beside the two, the rest of the data representation, and the reason of an accepted result.
    for (place, byte) in [(3, 0xFF), (4, 0x1F), (5, 1), (38, 1)] {
        let reply = changed(ack, place, byte);
        assert_eq!(rt; bound_by(reply.as_slice()), Ok(()), "{byte} at {place}");
    }
    for (kind, call, len, fault) in [
        (13, 1, 2, CallFault::Nak),
        (13, 1, 5, CallFault::Nak),
        (13, 2, 5, CallFault::BadReply(0)),
        (13, 1, 1, CallFault::BadReply(0)),
        (12, 1, 9, CallFault::BadReply(0)),
        (12, 1, 10, CallFault::BadReply(0)),
        (12, 1, 15, CallFault::BadReply(0)),
        (12, 1, 16, CallFault::Rejected),
        (3, 1, 16, CallFault::BadReply(0)),
    ] {
        let reply = pdu(kind, call, &[0; 16][..len]);
        assert_eq!(rt;
            bound_by(reply.as_slice()),
            Err(fault),
            "{len} bytes of type {kind}"
        );
    }
}

#[test]
fn results_of_a_bind(rt: HostRuntime) {
    // The length of the secondary address, the number of results, the first one, and how many bytes the body lacks or has
    // beside them.
    let rejected = Err(CallFault::Rejected);
    let bad = Err(CallFault::BadReply(0));
    for (address, results, first, missing, more, told) in [
        (0, 1, 0, 0, 0, Ok(())),
        (1, 1, 0, 0, 0, Ok(())),
        (2, 1, 0, 0, 0, Ok(())),
        (3, 1, 0, 0, 0, Ok(())),
        (5, 1, 0, 0, 3, Ok(())),
        (0, 3, 0, 0, 0, Ok(())),
        (0, 1, 2, 0, 0, rejected),
        (5, 2, 1, 0, 0, rejected),
        (0, 1, 0x0100, 0, 0, rejected),
        (0, 1, 0xFF00, 0, 0, rejected),
        (0, 0, 0, 0, 0, rejected),
        (2, 0, 0, 0, 9, rejected),
        (0, 1, 0, 1, 0, bad),
        (0, 1, 2, 1, 0, bad),
        (5, 3, 0, 24, 0, bad),
        (0, 0, 0, 1, 0, bad),
        (1, 0, 0, 4, 0, bad),
        (0xFF, 0, 0, 250, 0, bad),
    ] {
        let mut body = ack_body(address, results, first);
        body.truncate(body.len().saturating_sub(missing));
        for _ in 0..more {
            let _ = body.try_push(0xEE);
        }
        let reply = pdu(12, 1, body.as_slice());
        assert_eq!(rt;
            bound_by(reply.as_slice()),
            told,
            "{address} {results} {first} {missing}"
        );
    }
}

#[test]
fn faults_of_later_replies(rt: HostRuntime) {
    // How many calls are answered before, and where the next reply begins.
    for (count, at) in [(0, 0_usize), (1, 56), (2, 84), (3, 136)] {
        // Version, type, fragment, data representation, length, authentication, and the call identifier.
        for (place, byte) in [
            (0, 4),
            (1, 1),
            (2, 1),
            (2, 0),
            (3, 1),
            (4, 0),
            (8, 15),
            (9, 0x17),
            (10, 1),
            (12, 0),
            (15, 1),
        ] {
            let replies = changed(ANSWERED, at.saturating_add(place), byte);
            let found = converse(&rt, &mut in_pieces(replies.as_slice(), 7));
            let bad = CallFault::BadReply(at as u64);
            assert_eq!(rt; found, (count, Some(bad)), "{byte} at {place}");
        }
    }
}

/// The accepted bind, and this reply after it.
fn after_bind(reply: &[u8]) -> ArrayVec<u8, 400> {
    let mut out = ArrayVec::new();
    let _ = out.try_extend_from_slice(&ANSWERED[..ACK_LEN]);
    let _ = out.try_extend_from_slice(reply);
    out
}

/// What sync says of this reply to the call with the identifier 2.
fn synced_by(reply: &[u8]) -> Result<u32, CallFault> {
    let bytes = after_bind(reply);
    let mut wire = in_pieces(bytes.as_slice(), 7);
    let mut caller = Caller::new();
    caller.bind(&mut wire)?;
    caller.sync(&mut wire, 0, 0)
}

#[test]
fn replies_to_sync(rt: HostRuntime) {
    let bad = Err(CallFault::BadReply(56));
    assert_eq!(rt; synced_by(&[]), Err(CallFault::Torn));
    // The allocation hint, the context and the cancel count of a response aren't looked at.
    let body = [9, 9, 9, 9, 9, 9, 9, 9, 3, 2, 1, 0, 7];
    for (kind, call, len, told) in [
        (2, 2, 12, Ok(0x0001_0203)),
        (2, 2, 13, Ok(0x0001_0203)),
        (2, 2, 11, bad),
        (2, 2, 8, bad),
        (2, 2, 7, bad),
        (2, 3, 12, bad),
        (2, 1, 12, bad),
        (3, 2, 12, Err(CallFault::Fault(0x0001_0203))),
        (3, 2, 13, Err(CallFault::Fault(0x0001_0203))),
        (3, 2, 11, bad),
        (3, 1, 12, bad),
        (0, 2, 12, bad),
        (11, 2, 12, bad),
        (12, 2, 12, bad),
        (13, 2, 12, bad),
        (1, 2, 12, bad),
    ] {
        let reply = pdu(kind, call, front(&body, len));
        assert_eq!(rt;
            synced_by(reply.as_slice()),
            told,
            "{len} bytes of type {kind} for {call}"
        );
    }
}
