//! Texts that are numbers, keys, names and addresses, and texts that are not.
use crate::{cut, is_name, is_skipped, next_line, read_decimal, read_key, read_socket_address};

#[test]
fn numbers_in_their_one_spelling(rt: HostRuntime) {
    let table: [(&[u8], Option<u32>); 17] = [
        (b"0", Some(0)),
        (b"5", Some(5)),
        (b"10", Some(10)),
        (b"1103", Some(1103)),
        (b"4294967295", Some(4_294_967_295)),
        (b"4294967296", None),
        (b"18446744073709551617", None),
        (b"", None),
        (b"00", None),
        (b"05", None),
        (b"+5", None),
        (b"-5", None),
        (b"+", None),
        (b" 5", None),
        (b"5 ", None),
        (b"1.0", None),
        (b"\xEF\xBC\x95", None),
    ];
    for (text, want) in table {
        assert_eq!(rt; read_decimal(text), want, "at {text:?}");
    }
}

#[test]
fn keys_in_either_case(rt: HostRuntime) {
    let key = [
        0x00, 0x01, 0x02, 0x03, 0x04, 0x05, 0x06, 0x07, 0x08, 0x09, 0x0A, 0x0B, 0xCD, 0xEF, 0xFE,
        0xDC,
    ];
    let table: [(&[u8], Option<[u8; 16]>); 9] = [
        (b"000102030405060708090a0bcdeffedc", Some(key)),
        (b"000102030405060708090A0BCDEFFEDC", Some(key)),
        (b"000102030405060708090a0BCdEFfeDc", Some(key)),
        (b"", None),
        (b"000102030405060708090a0bcdeffed", None),
        (b"000102030405060708090a0bcdeffed ", None),
        (b"000102030405060708090a0bcdeffedg", None),
        (b"000102030405060708090a0bcdeffedc0", None),
        (b"000102030405060708090a0bcdeffedc00", None),
    ];
    for (text, want) in table {
        assert_eq!(rt; read_key(text), want, "at {text:?}");
    }
}

#[test]
fn lines_and_their_ends(rt: HostRuntime) {
    let table: [(&[u8], &[&[u8]]); 12] = [
        (b"", &[]),
        (b"\n", &[b""]),
        (b"\n\n", &[b"", b""]),
        (b"a", &[b"a"]),
        (b"a\n", &[b"a"]),
        (b"a\nb", &[b"a", b"b"]),
        (b"a\n\nb\n", &[b"a", b"", b"b"]),
        (b"a\r\nb\r\n", &[b"a", b"b"]),
        (b"a\r\r\n", &[b"a\r"]),
        (b"a\rb\n", &[b"a\rb"]),
        (b"a\r", &[b"a\r"]),
        (b"\r\n\xFF", &[b"", b"\xFF"]),
    ];
    for (text, want) in table {
        let mut left = text;
        for line in want {
            match next_line(left) {
                Some((found, rest)) => {
                    assert_eq!(rt; found, *line, "at {text:?}");
                    left = rest;
                }
                None => assert!(rt; false, "a line is missing at {text:?}"),
            }
        }
        assert!(rt; next_line(left).is_none(), "a line too many at {text:?}");
    }
}

#[test]
fn cuts_and_comments(rt: HostRuntime) {
    let table: [(&[u8], Option<(&[u8], &[u8])>); 5] = [
        (b"", None),
        (b"5", None),
        (b" ", Some((b"", b""))),
        (b"5 6 7", Some((b"5", b"6 7"))),
        (b"5  6", Some((b"5", b" 6"))),
    ];
    for (text, want) in table {
        assert!(rt; cut(text, b' ') == want, "at {text:?}");
    }
    assert!(rt; is_skipped(b"") && is_skipped(b"#") && is_skipped(b"#\xFF\r"));
    assert!(rt; !is_skipped(b" #") && !is_skipped(b"\r"));
}

#[test]
fn names_of_computers(rt: HostRuntime) {
    let table: [(&[u8], bool); 16] = [
        (b"a", true),
        (b"DC1.corp-2.example", true),
        (b".", true),
        (b"-", true),
        (b"0123456789", true),
        (b"", false),
        (b"a b", false),
        (b"a_b", false),
        (b"a:b", false),
        (b"a/b", false),
        (b"a,b", false),
        (b"@", false),
        (b"[", false),
        (b"`", false),
        (b"{", false),
        (b"\xC3\xA4", false),
    ];
    for (text, want) in table {
        assert_eq!(rt; is_name(text), want, "at {text:?}");
    }
    assert!(rt; is_name(&[b'z'; 63]));
    assert!(rt; !is_name(&[b'z'; 64]));
}

#[test]
fn addresses_and_ports(rt: HostRuntime) {
    let table: [(&[u8], Option<(u32, u16)>); 22] = [
        (b"10.0.0.1:123", Some((0x0A00_0001, 123))),
        (b"0.0.0.0:1", Some((0, 1))),
        (b"255.255.255.255:65535", Some((0xFFFF_FFFF, 65_535))),
        (b"1.2.3.4:49152", Some((0x0102_0304, 49_152))),
        (b"1.2.3.4:0", None),
        (b"1.2.3.4:65536", None),
        (b"1.2.3.4:0123", None),
        (b"1.2.3.4:+123", None),
        (b"1.2.3.4:", None),
        (b"1.2.3.4", None),
        (b"1.2.3.4:5:6", None),
        (b"1.2.3.4 :5", None),
        (b"01.2.3.4:5", None),
        (b"1.2.3.+4:5", None),
        (b"256.2.3.4:5", None),
        (b"1.2.3.256:5", None),
        (b"1.2.3:5", None),
        (b"1.2.3.4.5:5", None),
        (b"1..3.4:5", None),
        (b"1.2.3.:5", None),
        (b":5", None),
        (b"", None),
    ];
    for (text, want) in table {
        assert_eq!(rt; read_socket_address(text), want, "at {text:?}");
    }
}
