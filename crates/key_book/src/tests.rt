//! Texts of accounts, and what is found in a book.
use crate::{Account, BookFault, Keys, parse_accounts};
use std::alloc::Global;
use std::process::Abort;
use std::test::Fail;

/// The text of the book, or why there is none.
fn printed(alloc: Global, text: &[u8]) -> Result<Result<Vec<u8>, BookFault>, Fail> {
    if text.len() > 16_777_217 {
        return Err(Fail::from("a text that is too long"));
    }
    match parse_accounts(alloc, text) {
        Ok(book) => Ok(Ok(book.print(alloc).map_err(|_| "memory")?)),
        Err(fault) => Ok(Err(fault)),
    }
}

#[test]
fn accounts_read_and_printed(rt: HostRuntime) -> Result<(), Fail> {
    let two =
        b"account 5 000102030405060708090A0B0C0D0E0F\naccount 7 00000000000000000000000000000000 11111111111111111111111111111111\n";
    let lower =
        b"account 5 000102030405060708090a0b0c0d0e0f\naccount 7 00000000000000000000000000000000 11111111111111111111111111111111\n";
    let text = printed(rt.alloc(), two)?.map_err(|_| "a book")?;
    assert_eq!(rt; text.as_slice(), lower.as_slice());
    let again = printed(rt.alloc(), &text)?.map_err(|_| "a book")?;
    assert_eq!(rt; again.as_slice(), lower.as_slice());

    let table: [(&[u8], BookFault); 3] = [
        (
            b"account 5 00000000000000000000000000000000\naccount 7 00000000000000000000000000000000 11111111111111111111111111111111\naccount 5 11111111111111111111111111111111\n",
            BookFault::TwiceRid(3),
        ),
        (
            b"account 05 00000000000000000000000000000000\n",
            BookFault::BadLine(1),
        ),
        (
            b"account 5 0000000000000000000000000000000",
            BookFault::BadLine(1),
        ),
    ];
    expect_faults(&rt, &table)
}

/// Each text gives this fault.
fn expect_faults<R: Abort + AllocGlobal>(rt: &R, table: &[(&[u8], BookFault)]) -> Result<(), Fail> {
    for (text, want) in table {
        match printed(rt.alloc(), text)? {
            Ok(_) => assert!(rt; false, "a book at {text:?}"),
            Err(fault) => assert_eq!(rt; fault, *want, "at {text:?}"),
        }
    }
    Ok(())
}

#[test]
fn first_bad_lines(rt: HostRuntime) -> Result<(), Fail> {
    let table: [(&[u8], BookFault); 24] = [
        (
            b"account 5 0000000000000000000000000000000\x00",
            BookFault::BadLine(1),
        ),
        (
            b"account 4294967296 00000000000000000000000000000000",
            BookFault::BadLine(1),
        ),
        (
            b"account +5 00000000000000000000000000000000",
            BookFault::BadLine(1),
        ),
        (
            b"account 5 000000000000000000000000000000000",
            BookFault::BadLine(1),
        ),
        (
            b"account 5 0000000000000000000000000000000g",
            BookFault::BadLine(1),
        ),
        (
            b"account  5 00000000000000000000000000000000",
            BookFault::BadLine(1),
        ),
        (
            b"account 5  00000000000000000000000000000000",
            BookFault::BadLine(1),
        ),
        (
            b"account 5\t00000000000000000000000000000000",
            BookFault::BadLine(1),
        ),
        (
            b"account 5 00000000000000000000000000000000 ",
            BookFault::BadLine(1),
        ),
        (
            b"account 5 00000000000000000000000000000000 11111111111111111111111111111111 ",
            BookFault::BadLine(1),
        ),
        (
            b"account 5 00000000000000000000000000000000 11111111111111111111111111111111 11111111111111111111111111111111",
            BookFault::BadLine(1),
        ),
        (
            b"account 5 00000000000000000000000000000000 1111111111111111111111111111111",
            BookFault::BadLine(1),
        ),
        (
            b"account 5 00000000000000000000000000000000\x7F",
            BookFault::BadLine(1),
        ),
        (
            b"account 5 00000000000000000000000000000000\xC3\xA4",
            BookFault::BadLine(1),
        ),
        (
            b"account 5 0\r000000000000000000000000000000\n",
            BookFault::BadLine(1),
        ),
        (
            b"account 5 00000000000000000000000000000000\r\r\n",
            BookFault::BadLine(1),
        ),
        (
            b"account 5 00000000000000000000000000000000\r",
            BookFault::BadLine(1),
        ),
        (b"account ", BookFault::BadLine(1)),
        (b"account 5", BookFault::BadLine(1)),
        (b"account 5 ", BookFault::BadLine(1)),
        (b"# account\n\r\n\xFF\naccount 5\n", BookFault::BadLine(4)),
        (
            b"account 5 00000000000000000000000000000000\naccount 5 00000000000000000000000000000000\naccount\naccount 05\n",
            BookFault::TwiceRid(2),
        ),
        (
            b"account 5 00000000000000000000000000000000\naccount 05\naccount 5 00000000000000000000000000000000\n",
            BookFault::BadLine(2),
        ),
        (
            b"account 5 00000000000000000000000000000000\naccount 5 00000000000000000000000000000000 \n",
            BookFault::BadLine(2),
        ),
    ];
    expect_faults(&rt, &table)
}

#[test]
fn books_read_again(rt: HostRuntime) -> Result<(), Fail> {
    let table: [(&[u8], &[u8]); 6] = [
        (b"", b""),
        (b"\n", b""),
        (
            b"# account 5\naccounts\naccount\naccount\t5 0\n account 5\nAccount 5\ncomputer x\n\xFF\xFE\r\n",
            b"",
        ),
        (
            b"account 0 00000000000000000000000000000000",
            b"account 0 00000000000000000000000000000000\n",
        ),
        (
            b"account 4294967295 00000000000000000000000000000000\r\n",
            b"account 4294967295 00000000000000000000000000000000\n",
        ),
        (
            b"account 5 abCDef00000000000000000000000000 FFFFFFFFFFFFFFFFFFFFFFFFFFFFFFFF\r\n\r\nX=1\naccount 4 11111111111111111111111111111111",
            b"account 5 abcdef00000000000000000000000000 ffffffffffffffffffffffffffffffff\naccount 4 11111111111111111111111111111111\n",
        ),
    ];
    for (text, want) in table {
        let first = printed(rt.alloc(), text)?.map_err(|_| "a book")?;
        assert_eq!(rt; first.as_slice(), want, "at {text:?}");
        let second = printed(rt.alloc(), &first)?.map_err(|_| "a book")?;
        assert_eq!(rt; second.as_slice(), want, "at {text:?}");
    }
    Ok(())
}

/// A comment that is filled up, and the line behind it, which ends with this many bytes.
fn filled_up(alloc: Global, line: &[u8], len: usize) -> Result<Vec<u8>, Fail> {
    let mut text = Vec::new(alloc);
    for _ in line.len()..len.saturating_sub(1) {
        text.push(b'#')?;
    }
    text.push(b'\n')?;
    text.extend_from_slice(line)?;
    Ok(text)
}

#[test]
fn longest_text(rt: HostRuntime) -> Result<(), Fail> {
    let good = b"account 5 00000000000000000000000000000000";
    let text = filled_up(rt.alloc(), good, 16_777_217)?;
    assert_eq!(rt; text.len(), 16_777_217);
    let book = printed(rt.alloc(), &text)?.map_err(|_| "a book")?;
    assert_eq!(rt;
        book.as_slice(),
        b"account 5 00000000000000000000000000000000\n".as_slice()
    );

    let bad = b"account 5 0000000000000000000000000000000g";
    let text = filled_up(rt.alloc(), bad, 16_777_217)?;
    assert_eq!(rt;
        printed(rt.alloc(), &text)?.err(),
        Some(BookFault::BadLine(2))
    );
    Ok(())
}

/// The RID of a line, each its own below 100,003, a prime.
fn rid_of(step: u64, line: u64) -> u32 {
    (step.wrapping_mul(line) % 100_003) as u32
}

/// The account lines of 1 to 100,000, and behind them one with the RID of this number.
fn long_text(alloc: Global, step: u64, last: u64) -> Result<Vec<u8>, Fail> {
    let mut text = Vec::new(alloc);
    for line in 1..100_002 {
        let rid = rid_of(step, if line > 100_000 { last } else { line });
        let account = format!(in alloc; "account {rid} 00000000000000000000000000000000\n")?;
        text.extend_from_slice(account.as_bytes())?;
    }
    Ok(text)
}

/// The RIDs rise, fall and are scattered. A further line has that of the first, of one between, or of the last.
#[test]
fn hundred_thousand_accounts(rt: HostRuntime) -> Result<(), Fail> {
    for (step, again) in [(1, 1), (100_002, 50_000), (48_271, 100_000)] {
        let text = long_text(rt.alloc(), step, again)?;
        assert_eq!(rt;
            printed(rt.alloc(), &text)?.err(),
            Some(BookFault::TwiceRid(100_001))
        );
        let text = long_text(rt.alloc(), step, 100_001)?;
        let book = printed(rt.alloc(), &text)?.map_err(|_| "a book")?;
        assert_eq!(rt; book.as_slice(), text.as_slice());
    }
    Ok(())
}

/// Accounts are found by their RIDs among many, and other RIDs are not.
#[test]
fn found_among_many(rt: HostRuntime) -> Result<(), Fail> {
    let text = long_text(rt.alloc(), 48_271, 100_001)?;
    assert!(rt; text.len() <= 16_777_217);
    let book = parse_accounts(rt.alloc(), &text).map_err(|_| "a book")?;
    for line in [1, 2, 50_000, 100_000, 100_001] {
        let rid = rid_of(48_271, line);
        assert_eq!(rt;
            book.find(rid).map(|account| account.rid),
            Some(rid),
            "at {line}"
        );
    }
    for rid in [0, 100_003, 4_294_967_295] {
        assert!(rt; book.find(rid).is_none(), "at {rid}");
    }
    Ok(())
}

#[test]
fn found_and_missing(rt: HostRuntime) -> Result<(), Fail> {
    let text =
        b"account 5 00000000000000000000000000000000\naccount 7 11111111111111111111111111111111 22222222222222222222222222222222\n";
    assert!(rt; text.len() <= 16_777_217);
    let book = parse_accounts(rt.alloc(), text).map_err(|_| "a book")?;
    let table = [
        (
            5,
            Some(Account {
                rid: 5,
                current: [0; 16],
                previous: None,
            }),
        ),
        (
            7,
            Some(Account {
                rid: 7,
                current: [0x11; 16],
                previous: Some([0x22; 16]),
            }),
        ),
        (0, None),
        (6, None),
        (4_294_967_295, None),
    ];
    for (rid, want) in table {
        assert_eq!(rt; book.find(rid), want, "at {rid}");
    }

    // One account by itself.
    let alone = Account {
        rid: 7,
        current: [0x11; 16],
        previous: None,
    };
    assert_eq!(rt; alone.find(7), Some(alone));
    assert_eq!(rt; alone.find(5), None);
    assert_eq!(rt; alone.key(false), Some([0x11; 16]));
    assert_eq!(rt; alone.key(true), None);
    let found = book.find(7).ok_or("an account")?;
    assert_eq!(rt; found.key(true), Some([0x22; 16]));
    Ok(())
}

#[test]
fn shows_no_key(rt: HostRuntime) -> Result<(), Fail> {
    let account = Account {
        rid: 1103,
        current: [0xAB; 16],
        previous: Some([0xCD; 16]),
    };
    let shown = format!(in rt.alloc(); "{account:?}")?;
    assert_eq!(rt; shown.as_str(), "Account { rid: 1103, .. }");
    Ok(())
}
