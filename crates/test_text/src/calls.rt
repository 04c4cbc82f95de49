//! The lines of the commands that call a service.
use partner_pick::NameText;
use std::test::Fail;
use w32tm_text::{bits_line, resync_line, source_line};

// Results of a call, and the line of `/resync`.
const RESULTS: [(u32, &str); 6] = [
    (0, "The command completed successfully.\n"),
    (
        1,
        "The computer did not resync because no time data was available.\n",
    ),
    (2, "The computer did not resync. Result 2.\n"),
    (
        3,
        "The computer did not resync because the required time change was too big.\n",
    ),
    (4, "The computer did not resync. Result 4.\n"),
    (
        u32::MAX,
        "The computer did not resync. Result 4294967295.\n",
    ),
];

#[test]
fn lines_of_results(rt: HostRuntime) {
    for (result, line) in RESULTS {
        let told = resync_line(result);
        assert_eq!(rt; told.as_slice(), line.as_bytes(), "{result}");
    }
}

// Bits, and the line of `/query /bits`.
const BITS: [(u32, &str); 4] = [
    (0, "bits=0x00000000\n"),
    (0x40, "bits=0x00000040\n"),
    (0x240, "bits=0x00000240\n"),
    (0xFEDC_BA98, "bits=0xfedcba98\n"),
];

#[test]
fn lines_of_bits(rt: HostRuntime) {
    for (bits, line) in BITS {
        let told = bits_line(bits);
        assert_eq!(rt; told.as_slice(), line.as_bytes(), "{bits}");
    }
}

// Names, and the line of `/query /source`.
const NAMES: [(&[u8], &[u8]); 3] = [
    (b"", b"\n"),
    (b"DC1", b"DC1\n"),
    (
        b"abcdefghijklmnopqrstuvwxyz0123456789.-abcdefghijklmnopqrstuvwxy",
        b"abcdefghijklmnopqrstuvwxyz0123456789.-abcdefghijklmnopqrstuvwxy\n",
    ),
];

#[test]
fn lines_of_names(rt: HostRuntime) -> Result<(), Fail> {
    for (name, line) in NAMES {
        let told = source_line(&NameText::from_slice(name).ok_or("no name")?);
        assert_eq!(rt; told.as_slice(), line);
    }
    Ok(())
}
