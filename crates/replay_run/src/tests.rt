//! Captures whose lines were worked out by hand, and devices that fail.
use super::*;
use edge_traits::{Addr, Put, Sink, Source, Take};
use key_book::Account;
use ms_auth::Kind;
use phase_rule::Limits;
use std::alloc::Global;
use std::process::Abort;
use std::test::Fail;

/// 1 January 2020, in ticks.
const R0: i64 = 132_223_104_000_000_000;

/// Limits of a member as they are by default.
const REAL: Limits = Limits {
    max_pos: 4_294_967_295,
    max_neg: 4_294_967_295,
    max_allowed: 300,
    min_poll: 10,
    max_poll: 15,
};

/// The shortest interval of such a member.
const INTERVAL: i64 = 10_240_000_000;

/// Two lives, of which the first sends a request. The reply to it comes in the second.
///
/// The checksum is the MD5 of the key 00..0F and the 48 bytes of the header before it, as OpenSSL computes it from
/// their hexadecimal digits: `echo KEY HEADER | xxd -r -p | openssl md5`.
const LIVES: &[u8; 132] = b"\x01W32T\x01\xD5\xC0\x36\x69\x05\x00\x00\x00\x00\x00\x00\
\x02\x01\xD5\xC0\x36\x69\x05\x00\x00\x00\x00\x00\x07\
\x01W32T\x01\xD5\xC0\x36\x69\x05\x00\x00\x00\x00\x00\x40\
\x04\x01\xD5\xC0\x36\x69\x05\x00\x01\x0A\x00\x00\x02\x00\x7B\x00\x44\
\x1C\x01\x0A\xE9\x00\x00\x00\x00\x00\x00\x00\x00LOCL\xE1\xB6\x5F\x83\x00\x00\x00\x00\
\x00\x00\x00\x01\x00\x00\x00\x07\xE1\xB6\x5F\x83\x00\x00\x00\x00\xE1\xB6\x5F\x83\x00\x41\x89\x38\
\x4F\x04\x00\x00\xED\xAB\xC4\xE7\x83\x55\x15\x8A\x22\xA4\x6F\x1F\x40\x74\x5B\x27";

/// Their report: lines of 12, 25, 13, 25 and 31 bytes.
const LINES: &[u8; 106] = b"life mark=0\n\
send n=1 to=10.0.0.2:123\n\
life mark=64\n\
refused reason=NoRequest\n\
total sent=1 moved=0 refused=1\n";

/// The reply to the request with the count 3 and the word 3, which was sent two intervals after `R0`. Its checksum
/// was computed as the one above.
const THIRD: &[u8; 68] =
    b"\x1C\x01\x0A\xE9\x00\x00\x00\x00\x00\x00\x00\x00LOCL\xE1\xB6\x67\x83\x00\x00\x00\x00\
\x00\x00\x00\x03\x00\x00\x00\x03\xE1\xB6\x67\x83\x00\x00\x00\x00\xE1\xB6\x67\x83\x00\x41\x89\x38\
\x4F\x04\x00\x00\x69\x29\xC1\xA1\x01\xDF\xD5\xB3\x37\xC5\xC4\x2A\x71\x15\xA1\x7E";

/// Bytes in memory, one a read. The read with this number fails.
#[derive(Drop)]
struct Bytes<'a> {
    bytes: &'a [u8],
    at: usize,
    calls: usize,
    fails: usize,
    faults: u64,
}

impl Source for Bytes<'_> {
    ghost use Rattle.std.specs.Prelude.{None};

    ghost left = { λ _. None };

    ghost faults = { λ s. s.faults };

    fn read(&mut self, buf: &mut [u8]) -> Take {
        self.calls = self.calls.saturating_add(1);
        if self.calls == self.fails {
            self.faults = self.faults.saturating_add(1);
            return Take::Failed;
        }
        if self.at >= self.bytes.len() {
            return Take::End;
        }
        buf[0] = self.bytes[self.at];
        self.at += 1;
        Take::Bytes(1)
    }
}

/// What was written. The write with this number fails, and takes two bytes.
#[derive(Drop)]
struct Kept {
    bytes: Vec<u8>,
    calls: usize,
    fails: usize,
    faults: u64,
}

impl Sink for Kept {
    ghost use Rattle.std.specs.Prelude.{None};

    ghost written = { λ _. None };

    ghost faults = { λ s. s.faults };

    fn write(&mut self, piece: &[u8]) -> Put {
        self.calls = self.calls.saturating_add(1);
        let fails = self.calls == self.fails;
        let front = if fails {
            &piece[..piece.len().min(2)]
        } else {
            piece
        };
        if self.bytes.extend_from_slice(front).is_err() || fails {
            self.faults = self.faults.saturating_add(1);
            return Put::Failed;
        }
        Put::Done
    }
}

/// The hosts of the three partners, each in 10.0.0.0.
const HOSTS: &[u32] = &[2, 1, 3];

/// A member of the account 1103 with these partners.
fn conf(alloc: Global, hosts: &[u32]) -> Result<Conf, Fail> {
    let mut list = Vec::new(alloc);
    for host in hosts {
        list.push(Addr {
            ip: 0x0A00_0000 | host,
            port: 123,
        })?;
    }
    if list.is_empty() {
        return Err(Fail::from("no partner"));
    }
    Ok(Conf {
        kind: Kind::Short,
        account: Account {
            rid: 1103,
            current: [0, 1, 2, 3, 4, 5, 6, 7, 8, 9, 10, 11, 12, 13, 14, 15],
            previous: None,
        },
        limits: REAL,
        partners: Partners::new(list),
    })
}

/// Replays the bytes, where the read and the write with these numbers fail, and gives what was written too.
fn replay_bytes(
    alloc: Global,
    bytes: &[u8],
    read_fails: usize,
    write_fails: usize,
) -> Result<(ReplayEnd, Kept), Fail> {
    replay_under(alloc, HOSTS, bytes, read_fails, write_fails)
}

/// The same, by a member with these partners.
fn replay_under(
    alloc: Global,
    hosts: &[u32],
    bytes: &[u8],
    read_fails: usize,
    write_fails: usize,
) -> Result<(ReplayEnd, Kept), Fail> {
    let mut source = Bytes {
        bytes,
        at: 0,
        calls: 0,
        fails: read_fails,
        faults: 0,
    };
    let mut sink = Kept {
        bytes: Vec::new(alloc),
        calls: 0,
        fails: write_fails,
        faults: 0,
    };
    let end = replay(conf(alloc, hosts)?, &mut source, &mut sink);
    Ok((end, sink))
}

/// The replay of the bytes ends so, with this report.
fn check(
    rt: &impl Abort,
    alloc: Global,
    bytes: &[u8],
    want: ReplayEnd,
    text: &[u8],
) -> Result<(), Fail> {
    let (end, sink) = replay_bytes(alloc, bytes, 0, 0)?;
    assert_eq!(rt; end, want);
    assert_eq!(rt; sink.bytes.as_slice(), text);
    Ok(())
}

fn ended(sent: u32, refused: u64, why: ReplayWhy) -> ReplayEnd {
    ReplayEnd {
        sent,
        moved: 0,
        refused,
        why,
    }
}

// A reply to a request of an earlier life is refused. A life with a falling mark is no record that may follow, and
// neither is a torn one. An empty capture has a total line.
#[test]
fn earlier_life_is_no_request(rt: HostRuntime) -> Result<(), Fail> {
    let alloc = rt.alloc();
    let lives = LIVES.as_slice();
    let lines = LINES.as_slice();
    check(&rt, alloc, lives, ended(1, 1, ReplayWhy::Done), lines)?;
    let mut falling = *LIVES;
    falling[46] = 0;
    check(
        &rt,
        alloc,
        &falling,
        ended(1, 0, ReplayWhy::BadCapture(30)),
        &lines[..37],
    )?;
    check(
        &rt,
        alloc,
        &lives[..29],
        ended(0, 0, ReplayWhy::BadCapture(17)),
        &lines[..12],
    )?;
    check(
        &rt,
        alloc,
        &lives[17..],
        ended(0, 0, ReplayWhy::BadCapture(0)),
        b"",
    )?;
    check(
        &rt,
        alloc,
        b"",
        ended(0, 0, ReplayWhy::Done),
        b"total sent=0 moved=0 refused=0\n",
    )
}

// A line is one write, and nothing is written behind the one that failed. Each byte is one read.
#[test]
fn devices_that_fail(rt: HostRuntime) -> Result<(), Fail> {
    let lines = LINES.as_slice();
    for (write_fails, sent, refused, text) in [
        (1, 0, 0, &lines[..2]),
        (2, 1, 0, &lines[..14]),
        (3, 1, 0, &lines[..39]),
        (4, 1, 1, &lines[..52]),
        (5, 1, 1, &lines[..77]),
    ] {
        let (end, sink) = replay_bytes(rt.alloc(), LIVES, 0, write_fails)?;
        assert_eq!(rt; end, ended(sent, refused, ReplayWhy::WriteFault));
        assert_eq!(rt; sink.bytes.as_slice(), text);
        assert_eq!(rt; sink.calls, write_fails);
    }
    for read_fails in 1..=133 {
        let (sent, refused, end) = match read_fails {
            1..=17 => (0, 0, 0),
            18..=30 => (0, 0, 12),
            31..=47 => (1, 0, 37),
            48..=132 => (1, 0, 50),
            _ => (1, 1, 75),
        };
        let (came, sink) = replay_bytes(rt.alloc(), LIVES, read_fails, 0)?;
        assert_eq!(rt;
            came,
            ended(sent, refused, ReplayWhy::ReadFault),
            "read {read_fails}"
        );
        assert_eq!(rt; sink.bytes.as_slice(), &lines[..end]);
    }
    Ok(())
}

// A front of the capture is done where it ends between two records, and ends at the place of the torn record else.
#[test]
fn captures_cut_at_each_byte(rt: HostRuntime) -> Result<(), Fail> {
    let lives = LIVES.as_slice();
    let lines = LINES.as_slice();
    for cut in 0..=132 {
        let (sent, refused, place, end) = match cut {
            0..17 => (0, 0, 0, 0),
            17..30 => (0, 0, 17, 12),
            30..47 => (1, 0, 30, 37),
            47..132 => (1, 0, 47, 50),
            _ => (1, 1, 132, 75),
        };
        let (came, sink) = replay_bytes(rt.alloc(), &lives[..cut], 0, 0)?;
        let why = if cut as u64 == place {
            ReplayWhy::Done
        } else {
            ReplayWhy::BadCapture(place)
        };
        assert_eq!(rt; came, ended(sent, refused, why), "{cut} bytes");
        let mut text = Vec::from_slice(rt.alloc(), &lines[..end])?;
        if why == ReplayWhy::Done {
            text.extend_from_slice(total_of(sent, refused))?;
        }
        assert_eq!(rt; sink.bytes.as_slice(), text.as_slice(), "{cut} bytes");
    }
    Ok(())
}

/// The total line of a front of the report.
fn total_of(sent: u32, refused: u64) -> &'static [u8] {
    match (sent, refused) {
        (0, 0) => b"total sent=0 moved=0 refused=0\n",
        (1, 0) => b"total sent=1 moved=0 refused=0\n",
        _ => b"total sent=1 moved=0 refused=1\n",
    }
}

// The second life of a member that took the mark 64 is followed by one with the mark 0, whose place is named.
#[test]
fn lives_in_the_wrong_order(rt: HostRuntime) -> Result<(), Fail> {
    let alloc = rt.alloc();
    let lives = LIVES.as_slice();
    let mut bytes = Vec::from_slice(alloc, &lives[30..47])?;
    bytes.extend_from_slice(&lives[17..30])?;
    bytes.extend_from_slice(&lives[..30])?;
    let (end, sink) = replay_bytes(alloc, &bytes, 0, 0)?;
    assert_eq!(rt; end, ended(1, 0, ReplayWhy::BadCapture(30)));
    assert_eq!(rt; sink.calls, 2);
    Ok(())
}

// A member whose only partner is another one sends there, and the reply's sender is no partner of its.
#[test]
fn lives_under_other_settings(rt: HostRuntime) -> Result<(), Fail> {
    let (end, sink) = replay_under(rt.alloc(), &[9], LIVES, 0, 0)?;
    assert_eq!(rt; end, ended(1, 1, ReplayWhy::Done));
    assert_eq!(rt;
        sink.bytes.as_slice(),
        b"life mark=0\nsend n=1 to=10.0.0.9:123\nlife mark=64\nrefused reason=BadSource\n\
total sent=1 moved=0 refused=1\n"
            .as_slice()
    );
    Ok(())
}

/// Some places, from the first to before the end; how a replay ends where one of them is changed, and how long its text
/// is.
type Row = (usize, usize, ReplayWhy, usize);

// The text of a whole replay is shorter or longer than that of the capture where the reason of the refusal, or the mark
// of the second life, is. A first mark above the second one leaves no second life that may follow.
const CHANGED: &[Row] = &[
    // The Life: its kind, its magic bytes and the greatest byte of its reading; the rest of the reading; its mark.
    (0, 6, ReplayWhy::BadCapture(0), 0),
    (6, 13, ReplayWhy::Done, 106),
    (13, 14, ReplayWhy::BadCapture(30), 55),
    (14, 15, ReplayWhy::BadCapture(30), 51),
    (15, 16, ReplayWhy::BadCapture(30), 45),
    (16, 17, ReplayWhy::BadCapture(30), 41),
    // The Tick: its kind and the greatest byte of its reading; the rest of the reading, and its word.
    (17, 19, ReplayWhy::BadCapture(17), 12),
    (19, 30, ReplayWhy::Done, 106),
    // The second Life.
    (30, 36, ReplayWhy::BadCapture(30), 37),
    (36, 43, ReplayWhy::Done, 106),
    (43, 44, ReplayWhy::Done, 114),
    (44, 45, ReplayWhy::Done, 112),
    (45, 46, ReplayWhy::Done, 109),
    (46, 47, ReplayWhy::Done, 107),
    // The arrival: its kind and the greatest byte of its reading; the rest of the reading, and its sender; its length.
    (47, 49, ReplayWhy::BadCapture(47), 50),
    (49, 62, ReplayWhy::Done, 106),
    (62, 64, ReplayWhy::BadCapture(47), 50),
    // The reply: its mode, its stratum, and what is not looked at before its originate timestamp.
    (64, 65, ReplayWhy::Done, 104),
    (65, 66, ReplayWhy::Done, 107),
    (66, 132, ReplayWhy::Done, 106),
];

/// The capture with all bits of the byte at this place turned.
fn changed_at(place: usize) -> [u8; 132] {
    let mut bytes = *LIVES;
    if let Some(byte) = bytes.get_mut(place) {
        *byte ^= 0xFF;
    }
    bytes
}

fn expect_changed(rt: &impl Abort, alloc: Global, place: usize, row: &Row) -> Result<(), Fail> {
    let (_, _, why, len) = *row;
    let bytes = changed_at(place);
    let (end, sink) = replay_bytes(alloc, &bytes, 0, 0)?;
    assert_eq!(rt; (end.why, sink.bytes.len()), (why, len), "byte {place}");
    Ok(())
}

// Each byte in its turn. What is expected was computed by `examples/peers/replay.py`.
#[test]
fn captures_changed_at_each_byte(rt: HostRuntime) -> Result<(), Fail> {
    let mut next = 0;
    for row in CHANGED {
        let (first, end, ..) = *row;
        assert_eq!(rt; first, next);
        for place in first..end {
            expect_changed(&rt, rt.alloc(), place, row)?;
        }
        next = end;
    }
    assert_eq!(rt; next, 132);
    Ok(())
}

/// Adds the record of a Tick.
fn add_tick(bytes: &mut Vec<u8>, now: i64, word: u32) -> Result<(), Fail> {
    bytes.push(2)?;
    bytes.extend_from_slice(&now.to_be_bytes())?;
    bytes.extend_from_slice(&word.to_be_bytes())?;
    Ok(())
}

/// Adds the record of an arrival from the first partner, the last byte of whose length is `len`.
fn add_arrival(bytes: &mut Vec<u8>, now: i64, len: u8, datagram: &[u8]) -> Result<(), Fail> {
    bytes.push(4)?;
    bytes.extend_from_slice(&now.to_be_bytes())?;
    bytes.extend_from_slice(b"\x0A\x00\x00\x02\x00\x7B\x00")?;
    bytes.push(len)?;
    bytes.extend_from_slice(datagram)?;
    Ok(())
}

// Twenty turns, of which the second gets ten bytes and the third a signed reply. The fourth sends nothing, and has no
// line.
#[test]
fn realistic_run(rt: HostRuntime) -> Result<(), Fail> {
    let mut bytes = Vec::new(rt.alloc());
    let lives = LIVES.as_slice();
    bytes.extend_from_slice(&lives[..17])?;
    for turn in 1..21u32 {
        let now = R0 + i64::from(turn - 1) * INTERVAL;
        add_tick(&mut bytes, now, turn)?;
        if turn == 2 {
            add_arrival(&mut bytes, now + 10_000, 10, &[0; 10])?;
        }
        if turn == 3 {
            add_arrival(&mut bytes, now + 2_010_000, 68, THIRD)?;
        }
    }
    assert_eq!(rt; bytes.len(), 389);
    let (end, sink) = replay_bytes(rt.alloc(), bytes.as_slice(), 0, 0)?;
    assert_eq!(rt;
        end,
        ReplayEnd {
            sent: 19,
            moved: 1,
            refused: 1,
            why: ReplayWhy::Done
        }
    );
    assert_eq!(rt; sink.calls, 23);
    assert_eq!(rt;
        sink.bytes.as_slice(),
        b"life mark=0\n\
send n=1 to=10.0.0.2:123\n\
send n=2 to=10.0.0.2:123\n\
refused reason=BadLength\n\
send n=3 to=10.0.0.2:123\n\
moved n=3 offset=29000000 by=slew\n\
send n=4 to=10.0.0.2:123\n\
send n=5 to=10.0.0.2:123\n\
send n=6 to=10.0.0.2:123\n\
send n=7 to=10.0.0.2:123\n\
send n=8 to=10.0.0.2:123\n\
send n=9 to=10.0.0.2:123\n\
send n=10 to=10.0.0.2:123\n\
send n=11 to=10.0.0.2:123\n\
send n=12 to=10.0.0.1:123\n\
send n=13 to=10.0.0.1:123\n\
send n=14 to=10.0.0.1:123\n\
send n=15 to=10.0.0.1:123\n\
send n=16 to=10.0.0.1:123\n\
send n=17 to=10.0.0.1:123\n\
send n=18 to=10.0.0.1:123\n\
send n=19 to=10.0.0.1:123\n\
total sent=19 moved=1 refused=1\n"
            .as_slice()
    );
    Ok(())
}
