//! Digests that OpenSSL made. The published ones stand in `sntp_vectors`.
use crate::{ext_sum, md5_sum};

// The key 00 01 .. 0F.
const KEY: [u8; 16] = [0, 1, 2, 3, 4, 5, 6, 7, 8, 9, 10, 11, 12, 13, 14, 15];

// The header of a version 3 request with the transmit timestamp 00000001 00000007.
const HEADER: [u8; 48] = [
    0xDB, 0x00, 0x0A, 0xE9, 0, 0, 0, 0, 0, 0, 0, 0, 0, 0, 0, 0, 0, 0, 0, 0, 0, 0, 0, 0, 0, 0, 0, 0,
    0, 0, 0, 0, 0, 0, 0, 0, 0, 0, 0, 0, 0, 0, 0, 1, 0, 0, 0, 7,
];

// With the header in the file `header`, the first was computed by
// (printf '\0\1\2\3\4\5\6\7\10\11\12\13\14\15\16\17'; cat header) | openssl dgst -md5
// and the second by
// openssl kdf -keylen 64 -kdfopt mac:HMAC -kdfopt digest:SHA512 -kdfopt mode:COUNTER
//     -kdfopt hexkey:000102030405060708090a0b0c0d0e0f -kdfopt salt:sntp-ms -kdfopt hexinfo:4f040000 KBKDF
// and, with the derived key without its colons,
// openssl mac -digest SHA512 -macopt hexkey:DERIVED -in header HMAC
#[test]
fn digests_of_the_sample_request(rt: HostRuntime) {
    assert_eq!(rt;
        md5_sum(&KEY, &HEADER),
        *b"\xDB\xCB\xB7\xC9\x54\xA3\x29\x27\xD0\x1B\x87\x83\xAF\x61\xCB\xF6"
    );
    assert_eq!(rt;
        ext_sum(&KEY, 1103, &HEADER),
        *b"\x91\xCF\xA9\xAC\x7E\x9C\x2A\x56\xCF\x63\x16\x92\xA4\x1F\xD3\x02\xB9\x80\xF6\x37\x68\xDA\xFC\x6F\x4B\x36\xC1\x0B\xCB\xA7\x62\xB7\x53\xD9\x07\x22\x33\x60\xF1\x01\x29\x5B\x1C\x61\x20\x5D\xB7\x49\x56\x40\x56\xCE\xA9\xA0\xBD\x6C\x79\x25\x43\x2C\x07\xE9\x32\xD4"
    );
}
