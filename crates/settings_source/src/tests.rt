//! Settings of a source that gives its text in pieces. The expected answers were worked out by hand from the rules of
//! the text.
use super::*;
use edge_traits::{Source, Take};
use std::alloc::Global;
use std::test::Fail;

/// Four lines of a member that lack nothing: 76 bytes.
const MEMBER: &[u8; 76] =
    b"Name=WS1\nRole=Member\nRid=1103\naccount 1103 000102030405060708090a0b0c0d0e0f\n";

/// Bytes in memory with a comment behind them, given in pieces of one size. The read with this number fails.
#[derive(Drop)]
struct Text<'a> {
    bytes: &'a [u8],
    len: usize,
    piece: usize,
    at: usize,
    calls: usize,
    fails: usize,
    faults: u64,
}

impl Source for Text<'_> {
    ghost use Rattle.std.specs.Prelude.{None};

    ghost left = { λ _. None };

    ghost faults = { λ s. s.faults };

    fn read(&mut self, buf: &mut [u8]) -> Take {
        self.calls = self.calls.saturating_add(1);
        if self.calls == self.fails {
            self.faults = self.faults.saturating_add(1);
            return Take::Failed;
        }
        let left = self.len.saturating_sub(self.at);
        let len = buf.len().min(self.piece).min(left);
        if len == 0 {
            return Take::End;
        }
        buf[..len].fill(b'#');
        if self.at < self.bytes.len() {
            let told = len.min(self.bytes.len() - self.at);
            buf[..told].copy_from_slice(&self.bytes[self.at..self.at + told]);
        }
        self.at = self.at.saturating_add(len);
        Take::Bytes(len)
    }
}

/// A source of these bytes and as much of a comment as makes this length.
fn source_of(bytes: &[u8], len: usize, piece: usize, fails: usize) -> Text<'_> {
    Text {
        bytes,
        len,
        piece,
        at: 0,
        calls: 0,
        fails,
        faults: 0,
    }
}

/// The RID that the settings of the source say.
fn rid_of(alloc: Global, source: &mut Text<'_>) -> Result<u32, ConfigFault> {
    Ok(settings_from(alloc, source)?.rid)
}

// Pieces end within the lines that say something, behind a comment of 4,090 bytes. At most 4,096 bytes are read at
// once.
#[test]
fn settings_in_any_pieces(rt: HostRuntime) -> Result<(), Fail> {
    let alloc = rt.alloc();
    let mut bytes = Vec::new(alloc);
    for _ in 0..4_090 {
        bytes.push(b'#')?;
    }
    bytes.push(b'\n')?;
    bytes.extend_from_slice(MEMBER)?;
    for (piece, calls) in [(1, 4_168), (4_095, 3), (4_096, 3), (4_097, 3)] {
        let mut source = source_of(&bytes, 4_167, piece, 0);
        assert_eq!(rt; rid_of(alloc, &mut source), Ok(1103), "pieces of {piece}");
        assert_eq!(rt; (source.at, source.calls), (4_167, calls));
    }
    bytes.extend_from_slice(b"Role=Member\n")?;
    for piece in [1, 4_095, 4_096, 4_097] {
        let answer = rid_of(alloc, &mut source_of(&bytes, 4_179, piece, 0));
        assert_eq!(rt; answer, Err(ConfigFault::BadConfig(6)), "pieces of {piece}");
    }
    Ok(())
}

// A failed read is answered whatever was read before it, and no read is made behind it nor behind the end.
#[test]
fn reads_that_fail(rt: HostRuntime) -> Result<(), Fail> {
    let alloc = rt.alloc();
    for fails in 1..=5 {
        for bytes in [MEMBER.as_slice(), b"Name=WS1\nRole=Chief\n"] {
            let mut source = source_of(bytes, 76, 19, fails);
            assert_eq!(rt; rid_of(alloc, &mut source), Err(ConfigFault::ReadFault));
            assert_eq!(rt; (source.calls, source.faults), (fails, 1));
        }
    }
    let mut source = source_of(MEMBER, 76, 19, 6);
    assert_eq!(rt; rid_of(alloc, &mut source), Ok(1103));
    assert_eq!(rt; source.calls, 5);
    Ok(())
}

// A longer text is read up to byte 16,777,217, whose line is bad.
#[test]
fn longest_text(rt: HostRuntime) {
    let alloc = rt.alloc();
    let bad = Err(ConfigFault::BadConfig(5));
    for (len, answer, taken) in [
        (16_777_216, Ok(1103), 16_777_216),
        (16_777_218, bad, 16_777_217),
    ] {
        let mut source = source_of(MEMBER, len, 4_096, 0);
        assert_eq!(rt; rid_of(alloc, &mut source), answer, "{len} bytes");
        assert_eq!(rt; source.at, taken);
    }
}
