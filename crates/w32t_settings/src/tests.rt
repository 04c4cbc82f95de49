//! Settings texts and their answers. The expected lines and defaults were worked out by hand from the rules of the
//! text.
use crate::{Settings, SettingsFault, read_settings};
use ms_auth::Kind;
use partner_pick::Role;
use std::alloc::Global;
use std::fmt::Debug;
use std::process::Abort;
use std::test::Fail;

/// Both values are the same in this case. As a function it is proved once, where `assert_eq!` would be at each place.
fn same<T: PartialEq + Debug, C: Debug>(rt: &impl Abort, got: &T, want: &T, case: &C) {
    assert_eq!(rt; *got, *want, "{case:?}");
}

/// Four lines of a member that lack nothing.
const MEMBER: &str =
    "Name=WS1\nRole=Member\nRid=1103\naccount 1103 000102030405060708090a0b0c0d0e0f\n";

/// What the text says.
fn read(alloc: Global, text: &[u8]) -> Result<Result<Settings, SettingsFault>, Fail> {
    if text.len() > 16_777_217 {
        return Err(Fail::from("a text that is too long"));
    }
    Ok(read_settings(alloc, text))
}

/// The bad line that is named, and 0 where the text has settings.
fn bad_line(alloc: Global, text: &[u8]) -> Result<u32, Fail> {
    match read(alloc, text)? {
        Ok(_) => Ok(0),
        Err(SettingsFault::BadConfig(line)) => Ok(line),
        Err(SettingsFault::NoMemory) => Err(Fail::from("no memory")),
    }
}

/// The settings of a text that has no bad line.
fn settings_of(alloc: Global, text: &[u8]) -> Result<Settings, Fail> {
    match read(alloc, text)? {
        Ok(settings) => Ok(settings),
        Err(_) => Err(Fail::from("no settings")),
    }
}

/// The four lines of the member, and these behind them.
fn with_behind(alloc: Global, more: &[u8]) -> Result<Vec<u8>, Fail> {
    let mut text = Vec::from_slice(alloc, MEMBER.as_bytes())?;
    text.extend_from_slice(more)?;
    Ok(text)
}

/// The bad line of the four lines with these behind them, as `bad_line`.
fn expect_behind<R: Abort + AllocGlobal>(rt: &R, table: &[(&[u8], u32)]) -> Result<(), Fail> {
    for (more, want) in table {
        let text = with_behind(rt.alloc(), more)?;
        let line = bad_line(rt.alloc(), &text)?;
        same(rt, &line, want, more);
    }
    Ok(())
}

fn expect_lines<R: Abort + AllocGlobal>(rt: &R, table: &[(&str, u32)]) -> Result<(), Fail> {
    for (text, want) in table {
        let line = bad_line(rt.alloc(), text.as_bytes())?;
        same(rt, &line, want, text);
    }
    Ok(())
}

/// Texts whose settings are refused, with the bad line.
const REFUSED: &[(&str, u32)] = &[
    ("Name=WS1\nRole=Chief\n", 2),
    ("Name=WS1\nRole=Member\n", 3),
    ("Name=WS1\nRole=Member", 3),
    ("", 1),
    ("\n# Name=WS1\n\n", 4),
];

/// Settings of a domain's PDC.
const PDC: &[u8] = b"Name=DC1
Role=Pdc
Rid=1103
account 1103 000102030405060708090a0b0c0d0e0f
computer DC1 10.0.0.1:123 S--E
";

fn expect_pdc(rt: &impl Abort, settings: &Settings) {
    same(rt, &settings.name.as_slice(), &b"DC1".as_slice(), &());
    same(rt, &settings.role, &Role::Pdc, &());
    let numbers = (settings.rid, settings.directory.len());
    same(rt, &numbers, &(1103, 1), &());
}

#[test]
fn settings_refused(rt: HostRuntime) -> Result<(), Fail> {
    expect_lines(&rt, REFUSED)?;
    let settings = settings_of(rt.alloc(), PDC)?;
    expect_pdc(&rt, &settings);
    Ok(())
}

// Values at the edges of their ranges.
const VALUES: &[(&[u8], u32)] = &[
    (b"Auth=Short", 0),
    (b"Auth=Extended\n", 0),
    (b"Auth=short", 5),
    (b"Auth=", 5),
    (b"MaxPosPhaseCorrection=0", 0),
    (b"MaxPosPhaseCorrection=4294967295", 0),
    (b"MaxPosPhaseCorrection=4294967296", 5),
    (b"MaxPosPhaseCorrection=01", 5),
    (b"MaxNegPhaseCorrection=0", 0),
    (b"MaxNegPhaseCorrection=4294967295", 0),
    (b"MaxNegPhaseCorrection=4294967296", 5),
    (b"MaxNegPhaseCorrection=-1", 5),
    (b"MaxAllowedPhaseOffset=0", 0),
    (b"MaxAllowedPhaseOffset=4294967295", 0),
    (b"MaxAllowedPhaseOffset=4294967296", 5),
    (b"MinPollInterval=0", 0),
    (b"MinPollInterval=15", 0),
    (b"MinPollInterval=16", 6),
    (b"MinPollInterval=17", 6),
    (b"MinPollInterval=18", 5),
    (b"MaxPollInterval=17", 0),
    (b"MaxPollInterval=18", 5),
    (b"MaxPollInterval=10", 0),
    (b"MaxPollInterval=9", 6),
    (b"MinPollInterval=17\nMaxPollInterval=17", 0),
    (b"MinPollInterval=0\nMaxPollInterval=0", 0),
    (b"AnnounceFlags=0", 0),
    (b"AnnounceFlags=15", 0),
    (b"AnnounceFlags=16", 5),
];

#[test]
fn values_and_their_ranges(rt: HostRuntime) -> Result<(), Fail> {
    expect_behind(&rt, VALUES)
}

// Lines that differ by a byte from one that is right.
const FORMS: &[(&[u8], u32)] = &[
    (b" Auth=Short", 5),
    (b"Auth =Short", 5),
    (b"Auth= Short", 5),
    (b"Auth=Short ", 5),
    (b"Auth==Short", 5),
    (b"Auth", 5),
    (b"=", 5),
    (b"auth=Short", 5),
    (b"Flags=1", 5),
    (b"account 5 00000000000000000000000000000000", 0),
    (b"account 5 0000000000000000000000000000000", 5),
    (b"account 5 000000000000000000000000000000000", 5),
    (b"account 4294967295 00000000000000000000000000000000", 0),
    (b"account 4294967296 00000000000000000000000000000000", 5),
    (b"account", 5),
    (b"computer DC1 10.0.0.1:123 S---", 0),
    (b"computer DC1 10.0.0.1:0 S---", 5),
    (b"computer DC1 10.0.0.1:65535 S---", 0),
    (b"computer DC1 10.0.0.1:65536 S---", 5),
    (b"computer", 5),
    (b" ", 5),
    (b"\t", 5),
    (b"\xFF", 5),
    (b"\n\n\n", 0),
    (b"# \xFF", 0),
    (b"#\r", 0),
    (b"\r\n", 0),
    (b"\r", 5),
    (b"Auth=Short\r\n", 0),
    (b"Auth=Short\r", 5),
    (b"Auth=Short\r\r\n", 5),
];

#[test]
fn forms_of_a_line(rt: HostRuntime) -> Result<(), Fail> {
    expect_behind(&rt, FORMS)
}

// What is said again, and texts with two faults.
const REPEATS: &[(&[u8], u32)] = &[
    (b"Name=WS2", 5),
    (b"Role=Member", 5),
    (b"Rid=1104", 5),
    (b"Auth=Short\nAuth=Extended", 6),
    (b"AnnounceFlags=1\nAnnounceFlags=1", 6),
    (b"account 1103 00000000000000000000000000000000", 5),
    (
        b"computer A 10.0.0.1:1 ----\ncomputer a 10.0.0.1:1 ----\ncomputer A 10.0.0.1:1 ----",
        7,
    ),
    (b"X\nY", 5),
    (b"#\n\nAuth=Short\nAuth=Short\nX", 8),
    (b"MinPollInterval=16\nX", 6),
    (b"MinPollInterval=16\n# 1\n\n", 8),
];

#[test]
fn repeats_and_first_faults(rt: HostRuntime) -> Result<(), Fail> {
    expect_behind(&rt, REPEATS)
}

// Texts without one of the settings that are required.
const REQUIRED: &[(&str, u32)] = &[
    (
        "Role=Member\nRid=5\naccount 5 00000000000000000000000000000000\n",
        4,
    ),
    (
        "Name=A\nRid=5\naccount 5 00000000000000000000000000000000\n",
        4,
    ),
    (
        "Name=A\nRole=Pdc\naccount 5 00000000000000000000000000000000\n",
        4,
    ),
    (
        "Name=A\nRole=Pdc\nRid=6\naccount 5 00000000000000000000000000000000\n",
        5,
    ),
    ("Name=A\nRole=Pdc\nRid=5\n", 4),
];

#[test]
fn what_is_required(rt: HostRuntime) -> Result<(), Fail> {
    expect_lines(&rt, REQUIRED)
}

// Texts whose lines are right each by itself, and values that are not.
const WHOLE: &[(&str, u32)] = &[
    (
        "Name=A\nRole=Pdc\nRid=2147483647\naccount 2147483647 00000000000000000000000000000000\n",
        0,
    ),
    (
        "Name=A\nRole=Pdc\nRid=2147483648\naccount 2147483648 00000000000000000000000000000000\n",
        5,
    ),
    (
        "Auth=Extended\nName=A\nRole=Pdc\nRid=4294967295\naccount 4294967295 00000000000000000000000000000000",
        0,
    ),
    ("Rid=4294967296\n", 1),
    ("Rid=05\n", 1),
    ("Name=\n", 1),
    (
        "Name=123456789012345678901234567890123456789012345678901234567890123\n",
        2,
    ),
    (
        "Name=1234567890123456789012345678901234567890123456789012345678901234\n",
        1,
    ),
    ("MinPollInterval=7\nMaxPollInterval=6\n", 3),
];

#[test]
fn texts_as_a_whole(rt: HostRuntime) -> Result<(), Fail> {
    expect_lines(&rt, WHOLE)
}

/// What is set, or the defaults: the three limits, the two poll exponents and the flags.
fn numbers(settings: &Settings) -> [u32; 6] {
    [
        settings.limits.max_pos,
        settings.limits.max_neg,
        settings.limits.max_allowed,
        u32::from(settings.limits.min_poll),
        u32::from(settings.limits.max_poll),
        u32::from(settings.announce),
    ]
}

const MEMBER_DEFAULTS: [u32; 6] = [4_294_967_295, 4_294_967_295, 300, 10, 15, 10];

const CONTROLLER_DEFAULTS: [u32; 6] = [172_800, 172_800, 300, 6, 10, 10];

/// What stands before and after the lines that each text has; then the kind of messages, and the numbers.
type Set = (&'static str, &'static str, Kind, [u32; 6]);

const SETS: &[Set] = &[
    ("", "Role=Member\n", Kind::Short, MEMBER_DEFAULTS),
    ("Role=Member\n", "", Kind::Short, MEMBER_DEFAULTS),
    ("", "Role=Controller\n", Kind::Short, CONTROLLER_DEFAULTS),
    (
        "",
        "Role=Pdc\nAuth=Extended\n",
        Kind::Extended,
        CONTROLLER_DEFAULTS,
    ),
    (
        "MinPollInterval=3\nMaxPosPhaseCorrection=1\n",
        "Role=Controller\nAnnounceFlags=5\n",
        Kind::Short,
        [1, 172_800, 300, 3, 10, 5],
    ),
    (
        "MaxNegPhaseCorrection=2\nMaxAllowedPhaseOffset=0\nMaxPollInterval=17\n",
        "Role=Member\n",
        Kind::Short,
        [4_294_967_295, 2, 0, 10, 17, 10],
    ),
];

fn set_by(alloc: Global, front: &str, back: &str) -> Result<Settings, Fail> {
    let text = format!(in alloc;
        "{front}Name=A\nRid=5\naccount 5 00000000000000000000000000000000\n{back}"
    )?;
    settings_of(alloc, text.as_bytes())
}

#[test]
fn defaults_by_role(rt: HostRuntime) -> Result<(), Fail> {
    for (front, back, kind, want) in SETS {
        let settings = set_by(rt.alloc(), front, back)?;
        let case = (*front, *back);
        same(&rt, &settings.kind, kind, &case);
        same(&rt, &numbers(&settings), want, &case);
    }
    Ok(())
}

/// The four lines of the member and a comment, 16,777,216 bytes in all.
fn longest(alloc: Global) -> Result<Vec<u8>, Fail> {
    let mut text = Vec::from_slice(alloc, MEMBER.as_bytes())?;
    for _ in MEMBER.len()..16_777_216 {
        text.push(b'#')?;
    }
    Ok(text)
}

/// Bytes that are set, each at its place; then the bad line.
type Change = (&'static [(usize, u8)], u32);

// One byte more makes its line bad, also where it ends a comment; an earlier bad line is named before it; and the byte may
// stand in a line of its own.
const CHANGES: &[Change] = &[
    (&[(16_777_216, b'\n')], 5),
    (&[(0, b'X')], 1),
    (&[(0, b'N'), (16_777_215, b'\n'), (16_777_216, b'#')], 6),
];

fn set_bytes(text: &mut [u8], bytes: &[(usize, u8)]) {
    for (at, value) in bytes {
        if let Some(byte) = text.get_mut(*at) {
            *byte = *value;
        }
    }
}

#[test]
fn longest_text(rt: HostRuntime) -> Result<(), Fail> {
    let mut text = longest(rt.alloc())?;
    same(&rt, &bad_line(rt.alloc(), &text)?, &0, &());
    text.push(b' ')?;
    same(&rt, &text.len(), &16_777_217, &());
    for (bytes, want) in CHANGES {
        set_bytes(&mut text, bytes);
        same(&rt, &bad_line(rt.alloc(), &text)?, want, bytes);
    }
    Ok(())
}
