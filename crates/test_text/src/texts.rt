//! Words good and bad, the lines of messages and of `/dc`, and the codes and lines of statuses.
use dc_sign::{Refusal, ServeEnd, ServeWhy};
use edge_traits::Datagram;
use key_book::Account;
use line_text::LongLine;
use ms_auth::read_packet;
use std::alloc::{AllocError, Global};
use std::test::Fail;
use w32tm_text::{Action, Status, dc_lines, read_words, show_lines, status_line};

/// The words of the command line.
pub(crate) fn words_of(alloc: Global, texts: &[&str]) -> Result<Vec<String>, AllocError> {
    let mut words = Vec::new(alloc);
    for text in texts {
        words.push(String::from_str(alloc, text)?)?;
    }
    Ok(words)
}

fn joined(alloc: Global, lines: &[LongLine]) -> Result<Vec<u8>, AllocError> {
    let mut text = Vec::new(alloc);
    for line in lines {
        text.extend_from_slice(line.as_slice())?;
    }
    Ok(text)
}

/// The bytes of `/show`.
fn shown_by(words: &Vec<String>) -> Option<Datagram> {
    match read_words(words).ok()?.action {
        Action::Show(bytes) => Some(bytes),
        _ => None,
    }
}

/// The account of `/sign`.
fn account_by(words: &Vec<String>) -> Option<Account> {
    match read_words(words).ok()?.action {
        Action::Sign(account) => Some(account),
        _ => None,
    }
}

// Words, and the lines of the message. The lines are those that `examples/peers/show.py HEX` prints.
const SHOWN: &[(&str, &str)] = &[
    (
        "/show:000000000000000000000000000000000000000000000000000000000000000000000000000000000000\
         000000000000",
        "leap=0 version=0 mode=0 stratum=0 poll=0 precision=0\n\
         rootdelay=0 rootdispersion=0 refid=00000000\n\
         reference=0000000000000000 originate=0000000000000000\n\
         receive=0000000000000000 transmit=0000000000000000\n\
         tail=plain\n",
    ),
    (
        "/show:ffffffffffffffffffffffffffffffffffffffffffffffffffffffffffffffffffffffffffffffffffff\
         ffffffffffffffffffffffffffffffffffffffffffffffffffff",
        "leap=3 version=7 mode=7 stratum=255 poll=-1 precision=-1\n\
         rootdelay=-1 rootdispersion=4294967295 refid=ffffffff\n\
         reference=ffffffffffffffff originate=ffffffffffffffff\n\
         receive=ffffffffffffffff transmit=ffffffffffffffff\n\
         tail=short keyid=ffffffff checksum=ffffffffffffffffffffffffffffffff\n",
    ),
    (
        "/show:FFFFFFFFFFFFFFFFFFFFFFFFFFFFFFFFFFFFFFFFFFFFFFFFFFFFFFFFFFFFFFFFFFFFFFFFFFFFFFFFFFFF\
         FFFFFFFFFFFFFFFFFFFFFFFFFFFFFFFFFFFFFFFFFFFFFFFFFFFFFFFFFFFFFFFFFFFFFFFFFFFFFFFFFFFFFFFFFF\
         FFFFFFFFFFFFFFFFFFFFFFFFFFFFFFFFFFFFFFFFFFFFFFFFFFFFFFFFFFFFFFFFFF",
        "leap=3 version=7 mode=7 stratum=255 poll=-1 precision=-1\n\
         rootdelay=-1 rootdispersion=4294967295 refid=ffffffff\n\
         reference=ffffffffffffffff originate=ffffffffffffffff\n\
         receive=ffffffffffffffff transmit=ffffffffffffffff\n\
         tail=extended rid=4294967295 reserved=255 flags=255 hints=255 hash=255 checksum=ffffffffff\
         ffffffffffffffffffffffffffffffffffffffffffffffffffffffffffffffffffffffffffffffffffffffffff\
         ffffffffffffffffffffffffffff\n",
    ),
    (
        "/show:0000807f8000000000000000000000000000000000000000000000000000000000000000000000000000\
         0000000000004f040000000102030405060708090a0b0c0d0e0f",
        "leap=0 version=0 mode=0 stratum=0 poll=-128 precision=127\n\
         rootdelay=-2147483648 rootdispersion=0 refid=00000000\n\
         reference=0000000000000000 originate=0000000000000000\n\
         receive=0000000000000000 transmit=0000000000000000\n\
         tail=short keyid=0000044f checksum=000102030405060708090a0b0c0d0e0f\n",
    ),
    (
        "/show:23007F807fffFFff505152535455565758595a5b5c5d5e5f606162636465666768696a6b6c6d6e6f7071\
         7273747576770403020105060708000102030405060708090a0b0c0d0e0f101112131415161718191a1b1c1d1e\
         1f202122232425262728292a2b2c2d2e2f303132333435363738393a3b3c3d3e3f",
        "leap=0 version=4 mode=3 stratum=0 poll=127 precision=-128\n\
         rootdelay=2147483647 rootdispersion=1347506771 refid=54555657\n\
         reference=58595a5b5c5d5e5f originate=6061626364656667\n\
         receive=68696a6b6c6d6e6f transmit=7071727374757677\n\
         tail=extended rid=16909060 reserved=5 flags=6 hints=7 hash=8 checksum=00010203040506070809\
         0a0b0c0d0e0f101112131415161718191a1b1c1d1e1f202122232425262728292a2b2c2d2e2f30313233343536\
         3738393a3b3c3d3e3f\n",
    ),
];

#[test]
fn shows_each_kind_at_its_ends(rt: HostRuntime) -> Result<(), Fail> {
    for (word, lines) in SHOWN {
        let bytes = shown_by(&words_of(rt.alloc(), &[*word])?).ok_or("words")?;
        let text = joined(rt.alloc(), &show_lines(&read_packet(bytes.as_slice())?))?;
        assert_eq!(rt; text.as_slice(), lines.as_bytes(), "{word}");
    }
    Ok(())
}

const KEY: [u8; 16] = [0xA5; 16];

const PREVIOUS: [u8; 16] = [
    0x00, 0x11, 0x22, 0x33, 0x44, 0x55, 0x66, 0x77, 0x88, 0x99, 0xAA, 0xBB, 0xCC, 0xDD, 0xEE, 0xFF,
];

// Words, and the account that they name.
const SIGNING: &[(&str, Account)] = &[
    (
        "/sign:0:a5a5a5a5a5a5a5a5A5A5A5A5A5A5A5A5",
        Account {
            rid: 0,
            current: KEY,
            previous: None,
        },
    ),
    (
        "/sign:4294967295:A5a5a5a5a5a5a5a5a5a5a5a5a5a5a5a5:00112233445566778899aAbBcCdDeEfF",
        Account {
            rid: 4_294_967_295,
            current: KEY,
            previous: Some(PREVIOUS),
        },
    ),
    (
        "/sign:1103:00112233445566778899aabbccddeeff:a5a5a5a5a5a5a5a5a5a5a5a5a5a5a5a5",
        Account {
            rid: 1103,
            current: PREVIOUS,
            previous: Some(KEY),
        },
    ),
];

#[test]
fn accounts_of_words(rt: HostRuntime) -> Result<(), AllocError> {
    for (word, account) in SIGNING {
        let read = account_by(&words_of(rt.alloc(), &[*word])?);
        assert_eq!(rt; read, Some(*account), "{word}");
    }
    Ok(())
}

/// How many bytes so many digits spell in `/show:`. All of them are `f`.
fn spelled_by(alloc: Global, digits: usize) -> Result<Option<usize>, AllocError> {
    let mut word = String::from_str(alloc, "/show:")?;
    for _ in 0..digits {
        word.push('f')?;
    }
    let Some(bytes) = shown_by(&words_of(alloc, &[word.as_str()])?) else {
        return Ok(None);
    };
    Ok(
        bytes
            .as_slice()
            .iter()
            .all(|byte| *byte == 0xFF)
            .then_some(bytes.as_slice().len()),
    )
}

#[test]
fn datagrams_of_words(rt: HostRuntime) -> Result<(), AllocError> {
    for (digits, count) in [
        (0, Some(0)),
        (1, None),
        (2, Some(1)),
        (510, Some(255)),
        (511, None),
        (512, Some(256)),
        (513, None),
        (514, None),
    ] {
        assert_eq!(rt; spelled_by(rt.alloc(), digits)?, count, "{digits} digits");
    }
    Ok(())
}

// Each status, its code and its line.
const STATUSES: &[(Status, u8, &str)] = &[
    (Status::Done, 0, ""),
    (Status::BadWords, 1, "w32tm: bad words\n"),
    (
        Status::BadConfig { line: 1 },
        2,
        "w32tm: bad settings at line 1\n",
    ),
    (
        Status::BadConfig { line: u32::MAX },
        2,
        "w32tm: bad settings at line 4294967295\n",
    ),
    (
        Status::BadCapture { at: 0 },
        3,
        "w32tm: bad capture at byte 0\n",
    ),
    (
        Status::BadCapture { at: u64::MAX },
        3,
        "w32tm: bad capture at byte 18446744073709551615\n",
    ),
    (Status::ReadFault, 4, "w32tm: read fault\n"),
    (Status::WriteFault, 5, "w32tm: write fault\n"),
    (Status::DiskFault, 6, "w32tm: disk fault\n"),
    (Status::BadKeeper, 7, "w32tm: bad keeper\n"),
    (Status::StampsSpent, 8, "w32tm: stamps spent\n"),
    (Status::ClockFault, 9, "w32tm: clock fault\n"),
    (Status::EntropyFault, 10, "w32tm: entropy fault\n"),
    (Status::NoPartner, 11, "w32tm: no partner\n"),
    (
        Status::NotResynced { result: 1 },
        12,
        "w32tm: not resynced, result 1\n",
    ),
    (
        Status::NotResynced { result: u32::MAX },
        12,
        "w32tm: not resynced, result 4294967295\n",
    ),
    (Status::PeerRefused, 13, "w32tm: peer refused\n"),
    (
        Status::BadRequest {
            reason: Refusal::BadLength,
        },
        14,
        "w32tm: bad request, BadLength\n",
    ),
    (
        Status::BadRequest {
            reason: Refusal::BadVersion,
        },
        14,
        "w32tm: bad request, BadVersion\n",
    ),
    (
        Status::BadRequest {
            reason: Refusal::BadMode,
        },
        14,
        "w32tm: bad request, BadMode\n",
    ),
    (
        Status::BadRequest {
            reason: Refusal::UnknownAccount,
        },
        14,
        "w32tm: bad request, UnknownAccount\n",
    ),
    (
        Status::BadRequest {
            reason: Refusal::NoOldKey,
        },
        14,
        "w32tm: bad request, NoOldKey\n",
    ),
    (Status::NoMemory, 15, "w32tm: no memory\n"),
];

#[test]
fn codes_and_lines(rt: HostRuntime) {
    for (status, code, line) in STATUSES {
        let told = status_line(status);
        assert_eq!(rt; status.code(), *code, "{status:?}");
        assert_eq!(rt; told.as_slice(), line.as_bytes(), "{status:?}");
    }
}

const NOTHING: ServeEnd = ServeEnd {
    signed: 0,
    plain: 0,
    refused: [0; 5],
    quiet: 0,
    lost: 0,
    unsent: 0,
    why: ServeWhy::Done,
};

const GREATEST: ServeEnd = ServeEnd {
    signed: u32::MAX,
    plain: u32::MAX,
    refused: [u32::MAX; 5],
    quiet: u32::MAX,
    lost: u32::MAX,
    unsent: u32::MAX,
    why: ServeWhy::ClockFault,
};

// What `/dc` did, and its lines.
const ENDS: &[(ServeEnd, &str)] = &[
    (
        ServeEnd {
            signed: 1,
            refused: [0, 0, 0, 1, 0],
            quiet: 1,
            ..NOTHING
        },
        "signed=1 plain=0\n\
         refused BadLength=0 BadVersion=0 BadMode=0 UnknownAccount=1 NoOldKey=0\n\
         link quiet=1 lost=0 unsent=0\n",
    ),
    (
        ServeEnd {
            signed: 10,
            plain: 2,
            refused: [3, 4, 5, 6, 7],
            quiet: 8,
            lost: 9,
            unsent: 11,
            why: ServeWhy::Done,
        },
        "signed=10 plain=2\n\
         refused BadLength=3 BadVersion=4 BadMode=5 UnknownAccount=6 NoOldKey=7\n\
         link quiet=8 lost=9 unsent=11\n",
    ),
    (
        GREATEST,
        "signed=4294967295 plain=4294967295\n\
         refused BadLength=4294967295 BadVersion=4294967295 BadMode=4294967295 \
         UnknownAccount=4294967295 NoOldKey=4294967295\n\
         link quiet=4294967295 lost=4294967295 unsent=4294967295\n",
    ),
];

#[test]
fn closing_lines_of_dc(rt: HostRuntime) -> Result<(), AllocError> {
    for (end, lines) in ENDS {
        let text = joined(rt.alloc(), &dc_lines(end))?;
        assert_eq!(rt; text.as_slice(), lines.as_bytes());
    }
    Ok(())
}
