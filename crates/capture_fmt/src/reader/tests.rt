//! Captures whose bytes were computed outside, and what a reader makes of them.
ghost use Rattle.std.specs.Prelude.{◌≤◌, ℕ, Option, None, List};
ghost use Rattle.capture_fmt.specs.Event.{EventFits};

use super::*;
use crate::write_event;
use arrayvec::ArrayVec;
use edge_traits::{Addr, Datagram, Put, Sink, Take};
use std::process::Abort;
use std::test::Fail;

/// A record of each kind: 17, 13, 17 and 19 bytes.
const CAPTURE: &[u8; 66] = b"\x01W32T\x01\xD5\xC0\x36\x69\x05\x00\x00\x00\x00\x00\x00\
\x02\x01\xD5\xC0\x36\x69\x05\x00\x00\x5E\x88\x81\x16\
\x03\x01\xD5\xC0\x36\x69\x05\x00\x01\x00\x00\x00\x07\x00\x00\x00\x04\
\x04\x01\xD5\xC0\x36\x69\x05\x00\x02\x0A\x00\x00\x01\x00\x7B\x00\x02\x07\x08";

/// How many events are read at most.
const MOST_EVENTS: usize = 300;

/// Bytes that come in pieces of this size at most. The read with this number fails.
#[derive(Drop)]
struct Pieces<'a> {
    bytes: &'a [u8],
    at: usize,
    size: usize,
    calls: usize,
    fails: usize,
    faults: u64,
}

impl Source for Pieces<'_> {
    ghost use Rattle.std.specs.Prelude.{None};

    ghost left = { λ _. None };

    ghost faults = { λ s. s.faults };

    fn read(&mut self, buf: &mut [u8]) -> Take {
        self.calls = self.calls.saturating_add(1);
        if self.calls == self.fails {
            self.faults = self.faults.saturating_add(1);
            return Take::Failed;
        }
        if self.at >= self.bytes.len() {
            return Take::End;
        }
        let len = self
            .size
            .clamp(1, buf.len())
            .min(self.bytes.len() - self.at);
        buf[..len].copy_from_slice(&self.bytes[self.at..self.at + len]);
        self.at += len;
        Take::Bytes(len)
    }
}

fn in_pieces(bytes: &[u8], size: usize, fails: usize) -> Pieces<'_> {
    Pieces {
        bytes,
        at: 0,
        size,
        calls: 0,
        fails,
        faults: 0,
    }
}

/// What was written, or a sink whose writes fail.
#[derive(Drop)]
struct Kept {
    bytes: ArrayVec<u8, 300>,
    fails: bool,
    calls: u64,
    faults: u64,
}

impl Sink for Kept {
    ghost use Rattle.std.specs.Prelude.{None};

    ghost written = { λ _. None };

    ghost faults = { λ s. s.faults };

    fn write(&mut self, piece: &[u8]) -> Put {
        self.calls = self.calls.saturating_add(1);
        if self.fails || self.bytes.try_extend_from_slice(piece).is_err() {
            self.faults = self.faults.saturating_add(1);
            return Put::Failed;
        }
        Put::Done
    }
}

/// The kind of an event, its numbers, and the length of its datagram.
fn fields(event: &Event) -> (u8, i64, u32, u32, usize) {
    match event {
        Event::Life { now, mark } => (1, *now, *mark, 0, 0),
        Event::Tick { now, word } => (2, *now, *word, 0, 0),
        Event::Resync { now, word, flags } => (3, *now, *word, *flags, 0),
        Event::Arrive { now, from, bytes } => (
            4,
            *now,
            from.ip,
            u32::from(from.port),
            bytes.as_slice().len(),
        ),
    }
}

/// The datagram of an arrival.
fn datagram_of(event: &Event) -> &[u8] {
    match event {
        Event::Arrive { bytes, .. } => bytes.as_slice(),
        _ => &[],
    }
}

/// How many events are read, and how they end. Only a fault leaves the reader dead.
fn read_all<S: Source>(rt: &impl Abort, source: &mut S) -> (usize, Option<CaptureFault>) {
    let mut reader = EventReader::new();
    for count in 0..MOST_EVENTS {
        if !reader.alive() {
            return (count, None);
        }
        match reader.next(source) {
            Ok(Some(_)) => assert!(rt; reader.alive()),
            Ok(None) => {
                assert!(rt; reader.alive());
                return (count, None);
            }
            Err(fault) => {
                assert!(rt; !reader.alive());
                return (count, Some(fault));
            }
        }
    }
    (MOST_EVENTS, None)
}

/// The event is written as these bytes, and they are read as an event with these fields.
fn check_both_ways(rt: &impl Abort, event: &Event, record: &[u8], want: (u8, i64, u32, u32, usize))
    requires { EventFits event.now }
{
    let mut sink = Kept {
        bytes: ArrayVec::new(),
        fails: false,
        calls: 0,
        faults: 0,
    };
    assert_eq!(rt; write_event(event, &mut sink), Put::Done);
    assert_eq!(rt; sink.bytes.as_slice(), record);
    assert_eq!(rt; sink.calls, 1, "one write of the whole record");

    let mut source = in_pieces(record, 300, 0);
    let read = EventReader::new().next(&mut source);
    assert!(rt;
        matches!(&read, Ok(Some(read)) if fields(read) == want && datagram_of(read) == datagram_of(event)),
        "a record of kind {}",
        want.0
    );
    assert_eq!(rt; source.at, record.len());
}

#[test]
fn each_kind_at_its_least_and_greatest(rt: HostRuntime) {
    let last = 4_000_000_000_000_000_000;
    let life = Event::Life { now: 0, mark: 0 };
    check_both_ways(
        &rt,
        &life,
        b"\x01W32T\0\0\0\0\0\0\0\0\0\0\0\0",
        (1, 0, 0, 0, 0),
    );
    let life = Event::Life {
        now: last,
        mark: u32::MAX,
    };
    check_both_ways(
        &rt,
        &life,
        b"\x01W32T\x37\x82\xDA\xCE\x9D\x90\0\0\xFF\xFF\xFF\xFF",
        (1, last, u32::MAX, 0, 0),
    );
    let tick = Event::Tick { now: 0, word: 0 };
    check_both_ways(&rt, &tick, b"\x02\0\0\0\0\0\0\0\0\0\0\0\0", (2, 0, 0, 0, 0));
    let tick = Event::Tick {
        now: last,
        word: u32::MAX,
    };
    check_both_ways(
        &rt,
        &tick,
        b"\x02\x37\x82\xDA\xCE\x9D\x90\0\0\xFF\xFF\xFF\xFF",
        (2, last, u32::MAX, 0, 0),
    );
    let resync = Event::Resync {
        now: 0,
        word: 0,
        flags: 0,
    };
    check_both_ways(
        &rt,
        &resync,
        b"\x03\0\0\0\0\0\0\0\0\0\0\0\0\0\0\0\0",
        (3, 0, 0, 0, 0),
    );
    let resync = Event::Resync {
        now: last,
        word: 1,
        flags: u32::MAX,
    };
    check_both_ways(
        &rt,
        &resync,
        b"\x03\x37\x82\xDA\xCE\x9D\x90\0\0\0\0\0\x01\xFF\xFF\xFF\xFF",
        (3, last, 1, u32::MAX, 0),
    );
    let resync = Event::Resync {
        now: last,
        word: u32::MAX,
        flags: u32::MAX,
    };
    check_both_ways(
        &rt,
        &resync,
        b"\x03\x37\x82\xDA\xCE\x9D\x90\0\0\xFF\xFF\xFF\xFF\xFF\xFF\xFF\xFF",
        (3, last, u32::MAX, u32::MAX, 0),
    );
}

#[test]
fn events_in_order(rt: HostRuntime) {
    let start = 132_223_104_000_000_000;
    let mut reader = EventReader::new();
    let mut source = in_pieces(CAPTURE, 7, 0);
    for (want, place) in [
        ((1, start, 0, 0, 0), 17),
        ((2, start, 0x5E88_8116, 0, 0), 30),
        ((3, start + 1, 7, 4, 0), 47),
        ((4, start + 2, 0x0A00_0001, 123, 2), 66),
    ] {
        assert!(rt; reader.alive());
        let read = reader.next(&mut source);
        assert!(rt;
            matches!(&read, Ok(Some(event)) if fields(event) == want),
            "before {place}"
        );
        assert_eq!(rt; reader.place(), place);
    }
    assert!(rt; reader.alive());
    assert!(rt; matches!(reader.next(&mut source), Ok(None)));
    assert_eq!(rt; reader.place(), 66);
}

#[test]
fn datagrams_of_no_byte_and_of_256(rt: HostRuntime) {
    let nobody = Addr { ip: 0, port: 0 };
    let empty = Event::Arrive {
        now: 0,
        from: nobody,
        bytes: Datagram::from_slice(&[]),
    };
    check_both_ways(
        &rt,
        &empty,
        b"\x04\0\0\0\0\0\0\0\0\0\0\0\0\0\0\0\0",
        (4, 0, 0, 0, 0),
    );

    let everybody = Addr {
        ip: u32::MAX,
        port: u16::MAX,
    };
    let last = 4_000_000_000_000_000_000;
    let mut counted: ArrayVec<u8, 256> = ArrayVec::new();
    for value in 0..=u8::MAX {
        assert!(rt; counted.try_push(value).is_ok());
    }
    let full = Event::Arrive {
        now: last,
        from: everybody,
        bytes: Datagram::from_slice(counted.as_slice()),
    };
    let mut record: ArrayVec<u8, 300> = ArrayVec::new();
    let head = b"\x04\x37\x82\xDA\xCE\x9D\x90\0\0\xFF\xFF\xFF\xFF\xFF\xFF\x01\0";
    assert!(rt; record.try_extend_from_slice(head).is_ok());
    assert!(rt; record.try_extend_from_slice(counted.as_slice()).is_ok());
    check_both_ways(
        &rt,
        &full,
        record.as_slice(),
        (4, last, u32::MAX, 65_535, 256),
    );
}

#[test]
fn cut_at_each_byte_in_pieces_of_each_size(rt: HostRuntime) {
    for cut in 0..=CAPTURE.len() {
        let want = match cut {
            0 => (0, None),
            1..17 => (0, Some(CaptureFault::Torn(0))),
            17 => (1, None),
            18..30 => (1, Some(CaptureFault::Torn(17))),
            30 => (2, None),
            31..47 => (2, Some(CaptureFault::Torn(30))),
            47 => (3, None),
            48..66 => (3, Some(CaptureFault::Torn(47))),
            _ => (4, None),
        };
        for size in [1, 7, 66] {
            assert_eq!(rt;
                read_all(&rt, &mut in_pieces(&CAPTURE[..cut], size, 0)),
                want,
                "{cut} bytes in pieces of {size}"
            );
        }
    }
}

#[test]
fn first_fault_of_each_field(rt: HostRuntime) {
    let faults: [(&[u8], CaptureFault); 21] = [
        (b"\x00", CaptureFault::BadKind(13)),
        (b"\x05", CaptureFault::BadKind(13)),
        (b"\x06", CaptureFault::BadKind(13)),
        (b"\xFF", CaptureFault::BadKind(13)),
        (b"\x01X", CaptureFault::Torn(13)),
        (b"\x01X32", CaptureFault::Torn(13)),
        (b"\x01X32T", CaptureFault::BadKind(13)),
        (b"\x01W32t", CaptureFault::BadKind(13)),
        // Of two fields that are wrong the first decides.
        (
            b"\x01X32T\xFF\xFF\xFF\xFF\xFF\xFF\xFF\xFF",
            CaptureFault::BadKind(13),
        ),
        (
            b"\x04\xFF\xFF\xFF\xFF\xFF\xFF\xFF\xFF\x0A\0\0\x01\0\x7B\xFF\xFF",
            CaptureFault::BadReading(13),
        ),
        (
            b"\x01W32T\x37\x82\xDA\xCE\x9D\x90\0",
            CaptureFault::Torn(13),
        ),
        (
            b"\x01W32T\x37\x82\xDA\xCE\x9D\x90\0\x01",
            CaptureFault::BadReading(13),
        ),
        (b"\x02\xFF", CaptureFault::Torn(13)),
        (
            b"\x02\x37\x82\xDA\xCE\x9D\x90\0\x01",
            CaptureFault::BadReading(13),
        ),
        (
            b"\x03\xFF\xFF\xFF\xFF\xFF\xFF\xFF\xFF",
            CaptureFault::BadReading(13),
        ),
        (b"\x04\x80\0\0\0\0\0\0\0", CaptureFault::BadReading(13)),
        (
            b"\x04\0\0\0\0\0\0\0\0\x0A\0\0\x01\0\x7B\x01",
            CaptureFault::Torn(13),
        ),
        (
            b"\x04\0\0\0\0\0\0\0\0\x0A\0\0\x01\0\x7B\x01\0",
            CaptureFault::Torn(13),
        ),
        (
            b"\x04\0\0\0\0\0\0\0\0\x0A\0\0\x01\0\x7B\x01\x01",
            CaptureFault::BadLength(13),
        ),
        (
            b"\x04\0\0\0\0\0\0\0\0\x0A\0\0\x01\0\x7B\xFF\xFF",
            CaptureFault::BadLength(13),
        ),
        (
            b"\x04\0\0\0\0\0\0\0\0\x0A\0\0\x01\0\x7B\0\x02\x07",
            CaptureFault::Torn(13),
        ),
    ];
    let records = CAPTURE.as_slice();
    for (record, fault) in faults {
        let mut capture: ArrayVec<u8, 300> = ArrayVec::new();
        assert!(rt; capture.try_extend_from_slice(&records[17..30]).is_ok());
        assert!(rt; capture.try_extend_from_slice(record).is_ok());
        assert_eq!(rt;
            read_all(&rt, &mut in_pieces(capture.as_slice(), 7, 0)),
            (1, Some(fault)),
            "a record {record:?}"
        );
    }
}

#[test]
fn no_record_begins_at_the_limit(rt: HostRuntime) {
    let mut reader = EventReader {
        alive: true,
        place: (1 << 40) - 13,
        held: Buffer::new(),
    };
    let records = CAPTURE.as_slice();
    let mut source = in_pieces(&records[17..], 66, 0);
    assert!(rt; matches!(&reader.next(&mut source), Ok(Some(event)) if fields(event).0 == 2));
    assert_eq!(rt; reader.place(), 1 << 40);
    assert!(rt; reader.alive());
    assert!(rt;
        matches!(
            &reader.next(&mut source),
            Err(CaptureFault::TooLong(1_099_511_627_776))
        )
    );
    assert!(rt; !reader.alive());
    assert_eq!(rt; source.calls, 1);
}

#[test]
fn failed_calls(rt: HostRuntime) {
    for (size, fails, count) in [
        (1, 1, 0),
        (1, 17, 0),
        (1, 18, 1),
        (1, 30, 1),
        (1, 31, 2),
        (1, 47, 2),
        (1, 48, 3),
        (1, 66, 3),
        (1, 67, 4),
        (20, 2, 1),
        (20, 3, 2),
        (66, 1, 0),
        (66, 2, 4),
    ] {
        let mut source = in_pieces(CAPTURE, size, fails);
        assert_eq!(rt;
            read_all(&rt, &mut source),
            (count, Some(CaptureFault::ReadFault)),
            "call {fails}"
        );
        assert_eq!(rt; source.calls, fails);
        assert_eq!(rt; source.faults, 1);
    }
    assert_eq!(rt; read_all(&rt, &mut in_pieces(CAPTURE, 66, 3)), (4, None));

    let mut sink = Kept {
        bytes: ArrayVec::new(),
        fails: true,
        calls: 0,
        faults: 0,
    };
    assert_eq!(rt;
        write_event(&Event::Tick { now: 0, word: 0 }, &mut sink),
        Put::Failed
    );
    assert_eq!(rt; sink.faults, 1);
    assert_eq!(rt; sink.calls, 1);
}

/// So many records of 17 bytes are one byte more than the buffer has room for.
const LIVES: usize = 241;

#[test]
fn a_record_across_two_reads(rt: HostRuntime) {
    let mut capture = [0; 17 * LIVES];
    for life in 0..LIVES {
        capture[17 * life..17 * life + 5].copy_from_slice(b"\x01W32T");
    }
    for (len, size, fails, want) in [
        (4096, 1, 0, (240, Some(CaptureFault::Torn(4080)))),
        (4096, 7, 0, (240, Some(CaptureFault::Torn(4080)))),
        (4096, 4096, 0, (240, Some(CaptureFault::Torn(4080)))),
        (4097, 1, 0, (241, None)),
        (4097, 7, 0, (241, None)),
        (4097, 4096, 0, (241, None)),
        // One read gives what there is room for, the next one the byte behind it, and the last one the end.
        (4097, 4097, 10, (241, None)),
        (4097, 4097, 4, (241, None)),
        (4097, 4097, 3, (241, Some(CaptureFault::ReadFault))),
        (4097, 4097, 2, (240, Some(CaptureFault::ReadFault))),
    ] {
        assert!(rt; len <= capture.len());
        assert_eq!(rt;
            read_all(&rt, &mut in_pieces(&capture[..len], size, fails)),
            want,
            "{len} bytes in pieces of {size}, call {fails}"
        );
    }
}
