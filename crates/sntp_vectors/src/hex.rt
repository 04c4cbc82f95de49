//! Bytes as they are printed.
use std::process::Abort;

fn digit(value: u8) -> u8 {
    if value < 10 {
        b'0' + value
    } else {
        b'a'.wrapping_add(value - 10)
    }
}

/// The bytes are these, two digits each.
pub(crate) fn expect_hex(rt: &impl Abort, bytes: &[u8], hex: &str) {
    assert_eq!(rt; hex.len() / 2, bytes.len(), "at {hex}");
    for (byte, digits) in bytes.iter().zip(hex.as_bytes().chunks_exact(2)) {
        assert_eq!(rt;
            digits,
            [digit(byte >> 4), digit(byte & 15)].as_slice(),
            "at {hex}"
        );
    }
}
