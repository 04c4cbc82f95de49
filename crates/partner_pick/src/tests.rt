//! Directories from texts, and their ranks. The ranks that no worked example gives come from another program, a few
//! lines of Python that number the queries of each role and sort by (-score, query, line):
//!
//! ```text
//! def ranked(role, own, lines):                   # lines: (name, flags)
//!     def query(s, r, p, e):
//!         if role == 'Member': return None if p else 1 + (not s)
//!         kinds = [p, r and not p, e and not p and role == 'Controller']
//!         return kinds.index(True) + 1 + 3 * (not s) if True in kinds else None
//!     rows = []
//!     for place, (name, flags) in enumerate(lines):
//!         f = [c != '-' for c in flags]
//!         if name != own and query(*f):
//!             rows.append((-sum(w * b for w, b in zip((8, 4, 2, 1), f)), query(*f), place))
//!     return [place for _, _, place in sorted(rows)]
//! ```
use crate::{
    AddFault, DirFault, Directory, NameText, Role, best, parse_directory, rank, read_entry, score,
};
use std::alloc::Global;
use std::process::Abort;
use std::test::Fail;

/// What the text gives.
fn read(alloc: Global, text: &[u8]) -> Result<Result<Directory, DirFault>, Fail> {
    if text.len() > 16_777_217 {
        return Err(Fail::from("a text that is too long"));
    }
    Ok(parse_directory(alloc, text))
}

fn directory(alloc: Global, text: &str) -> Result<Directory, Fail> {
    Ok(read(alloc, text.as_bytes())?.map_err(|_| "no directory")?)
}

fn expect_ranked(
    rt: &impl Abort,
    alloc: Global,
    directory: &Directory,
    cases: &[(Role, &str, &[usize])],
) -> Result<(), Fail> {
    for (role, own, places) in cases {
        let own = NameText::read(own.as_bytes()).ok_or("no name")?;
        assert_eq!(rt;
            rank(alloc, directory, *role, &own)?.as_slice(),
            *places,
            "as {role:?}"
        );
        assert_eq!(rt;
            best(directory, *role, &own),
            places.first().copied(),
            "as {role:?}"
        );
    }
    Ok(())
}

#[test]
fn directory_ranked(rt: HostRuntime) -> Result<(), Fail> {
    let text =
        "computer A 10.0.0.1:123 S--E\ncomputer B 10.0.0.2:123 -RP-\ncomputer C 10.0.0.3:123 S-P-\n";
    let three = directory(rt.alloc(), text)?;
    assert_eq!(rt; three.len(), 3);
    for (place, worth) in [9, 6, 10].iter().enumerate() {
        assert!(rt; place < three.len());
        assert_eq!(rt; score(three.at(place)), *worth, "at {place}");
    }
    expect_ranked(
        &rt,
        rt.alloc(),
        &three,
        &[
            (Role::Controller, "Z", &[2, 0, 1]),
            (Role::Member, "Z", &[0]),
            (Role::Pdc, "A", &[2, 1]),
        ],
    )?;
    let mut four = String::new(rt.alloc());
    four.push_str(text)?;
    four.push_str("computer A 10.0.0.9:123 ----")?;
    assert_eq!(rt;
        read(rt.alloc(), four.as_bytes())?.err(),
        Some(DirFault::TwiceName(4))
    );
    Ok(())
}

// The second query has the better answer: one that stops at the first query ranks wrongly.
#[test]
fn asks_every_query(rt: HostRuntime) -> Result<(), Fail> {
    let two = directory(
        rt.alloc(),
        "computer A 10.0.0.1:123 S-P-\ncomputer B 10.0.0.2:123 SR--",
    )?;
    expect_ranked(
        &rt,
        rt.alloc(),
        &two,
        &[(Role::Controller, "Z", &[1, 0]), (Role::Pdc, "B", &[0])],
    )
}

// Ties in score and query, a parent domain out of site, an own name, and queries that the PDC emulator skips.
#[test]
fn ties_and_roles(rt: HostRuntime) -> Result<(), Fail> {
    let ten = directory(
        rt.alloc(),
        "computer A 10.0.0.1:123 S---
computer B 10.0.0.2:123 -R--
computer C 10.0.0.3:123 S---
computer D 10.0.0.4:123 ----
computer E 10.0.0.5:123 -R--
computer F 10.0.0.6:123 SR--
computer G 10.0.0.7:123 S-P-
computer H 10.0.0.8:123 --P-
computer I 10.0.0.9:123 S--E
computer J 10.0.0.10:123 ---E
",
    )?;
    expect_ranked(
        &rt,
        rt.alloc(),
        &ten,
        &[
            (Role::Member, "Z", &[5, 8, 0, 2, 1, 4, 9, 3]),
            (Role::Member, "F", &[8, 0, 2, 1, 4, 9, 3]),
            (Role::Controller, "Z", &[5, 6, 8, 1, 4, 7, 9]),
            (Role::Controller, "F", &[6, 8, 1, 4, 7, 9]),
            (Role::Pdc, "Z", &[5, 6, 1, 4, 7]),
            (Role::Pdc, "F", &[6, 1, 4, 7]),
        ],
    )
}

#[test]
fn directories_without_a_candidate(rt: HostRuntime) -> Result<(), Fail> {
    let none = directory(rt.alloc(), "# computer A\ncomputers\naccount 5\n")?;
    assert_eq!(rt; none.len(), 0);
    expect_ranked(
        &rt,
        rt.alloc(),
        &none,
        &[(Role::Member, "Z", &[]), (Role::Controller, "Z", &[])],
    )?;
    let mut own = directory(rt.alloc(), "computer DC1 10.0.0.1:123 S--E\r\n")?;
    expect_ranked(
        &rt,
        rt.alloc(),
        &own,
        &[
            (Role::Pdc, "DC1", &[]),
            (Role::Pdc, "DC2", &[]),
            (Role::Member, "dc1", &[0]),
        ],
    )?;
    let again = read_entry(b"computer DC1 10.0.0.2:123 ----").ok_or("no entry")?;
    assert_eq!(rt; own.add(again), Err(AddFault::Twice));
    assert_eq!(rt; own.len(), 1);
    Ok(())
}

#[test]
fn entries_read(rt: HostRuntime) -> Result<(), Fail> {
    let table: [(&[u8], u32, u16, [bool; 4]); 4] = [
        (
            b"computer a 0.0.0.0:1 ----",
            0,
            1,
            [false, false, false, false],
        ),
        (
            b"computer . 255.254.253.252:65535 SRPE",
            0xFFFE_FDFC,
            65_535,
            [true, true, true, true],
        ),
        (
            b"computer dc-1.example 10.1.2.3:123 S-P-",
            0x0A01_0203,
            123,
            [true, false, true, false],
        ),
        (
            b"computer DC1 10.1.2.3:123 -R-E",
            0x0A01_0203,
            123,
            [false, true, false, true],
        ),
    ];
    for (line, ip, port, flags) in table {
        let entry = read_entry(line).ok_or("no entry")?;
        assert_eq!(rt; entry.addr.ip, ip, "at {line:?}");
        assert_eq!(rt; entry.addr.port, port, "at {line:?}");
        assert_eq!(rt;
            [entry.in_site, entry.reliable, entry.parent, entry.pdc],
            flags,
            "at {line:?}"
        );
    }
    Ok(())
}

#[test]
fn bad_computer_lines(rt: HostRuntime) -> Result<(), Fail> {
    let table: [&[u8]; 22] = [
        b"computer ",
        b"computer A",
        b"computer A 10.0.0.1:123",
        b"computer A 10.0.0.1:123 ",
        b"computer A 10.0.0.1:123 ---",
        b"computer A 10.0.0.1:123 -----",
        b"computer A 10.0.0.1:123 ---- ",
        b"computer A 10.0.0.1:123 ----\r",
        b"computer A 10.0.0.1:123 s---",
        b"computer A 10.0.0.1:123 R---",
        b"computer A 10.0.0.1:123 -S--",
        b"computer A 10.0.0.1:123 --E-",
        b"computer A 10.0.0.1:123 ---P",
        b"computer A 10.0.0.1:0 ----",
        b"computer A 10.0.0.1:65536 ----",
        b"computer A 10.0.0.1 ----",
        b"computer A 10.0.0.01:123 ----",
        b"computer  A 10.0.0.1:123 ----",
        b"computer A  10.0.0.1:123 ----",
        b"computer A\t10.0.0.1:123 ----",
        b"computer A_B 10.0.0.1:123 ----",
        b"computer \xC3\xA4 10.0.0.1:123 ----",
    ];
    for line in table {
        assert_eq!(rt;
            read(rt.alloc(), line)?.err(),
            Some(DirFault::BadLine(1)),
            "at {line:?}"
        );
    }
    Ok(())
}

#[test]
fn first_bad_lines(rt: HostRuntime) -> Result<(), Fail> {
    let table: [(&[u8], DirFault); 4] = [
        (b"# computer\n\r\n\xFF\ncomputer A\n", DirFault::BadLine(4)),
        (
            b"computer A 10.0.0.1:1 ----\ncomputer a 10.0.0.1:1 ----\ncomputer a 10.0.0.2:2 S---\ncomputer 1\n",
            DirFault::TwiceName(3),
        ),
        (
            b"computer A 10.0.0.1:1 ----\ncomputer 1\ncomputer A 10.0.0.1:1 ----\n",
            DirFault::BadLine(2),
        ),
        (
            b"computer A 10.0.0.1:1 ----\ncomputer A 10.0.0.1:1 ---- \n",
            DirFault::BadLine(2),
        ),
    ];
    for (text, want) in table {
        assert_eq!(rt; read(rt.alloc(), text)?.err(), Some(want), "at {text:?}");
    }
    Ok(())
}

/// The computer lines of 1 to 1,000, and behind them one with the name of this number.
fn computers(alloc: Global, last: u32) -> Result<String, Fail> {
    let mut text = String::new(alloc);
    for line in 1..1_002 {
        let number = if line > 1_000 { last } else { line };
        let computer = format!(in alloc; "computer DC{number} 10.0.0.1:123 ----\n")?;
        text.push_str(&computer)?;
    }
    Ok(text)
}

#[test]
fn a_name_twice_among_many(rt: HostRuntime) -> Result<(), Fail> {
    for again in [1, 500, 1_000] {
        let text = computers(rt.alloc(), again)?;
        assert_eq!(rt;
            read(rt.alloc(), text.as_bytes())?.err(),
            Some(DirFault::TwiceName(1_001))
        );
    }
    let text = computers(rt.alloc(), 1_001)?;
    assert_eq!(rt; directory(rt.alloc(), &text)?.len(), 1_001);
    Ok(())
}

#[test]
fn names_of_63_bytes(rt: HostRuntime) {
    assert!(rt; NameText::from_slice(&[b'a'; 63]).is_some());
    assert!(rt; NameText::from_slice(&[b'a'; 64]).is_none());
    assert!(rt; NameText::from_slice(b"").is_some());
    assert!(rt; NameText::from_slice(b"\x7F").is_some());
    assert!(rt; NameText::from_slice(b"\x80").is_none());
    assert!(rt; NameText::read(&[b'a'; 63]).is_some());
    assert!(rt; NameText::read(&[b'a'; 64]).is_none());
    assert!(rt; NameText::read(b"").is_none());
    assert!(rt; NameText::read(b"\x7F").is_none());
}
