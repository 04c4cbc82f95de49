//! Published digests, and digests that OpenSSL made.
use crate::hex::expect_hex;
use mac_kdf::{Hmac, derive};
use std::process::Abort;

// The key 00 01 .. 0F.
const KEY: [u8; 16] = [0, 1, 2, 3, 4, 5, 6, 7, 8, 9, 10, 11, 12, 13, 14, 15];

// The text whole, byte by byte, in two pieces, and twice over one beginning.
fn expect_hmac(rt: &impl Abort, key: &[u8], text: &[u8], hex: &str) {
    let mut whole = Hmac::new(key);
    whole.update(text);
    expect_hex(rt, &whole.finalize(), hex);

    let mut bytewise = Hmac::new(key);
    for byte in text {
        bytewise.update(&[*byte]);
    }
    expect_hex(rt, &bytewise.finalize(), hex);

    let (front, back) = text.split_at(text.len() / 2);
    let mut halves = Hmac::new(key);
    halves.update(front);
    halves.update(&[]);
    expect_hex(rt, &halves.sum_with(back), hex);
    expect_hex(rt, &halves.sum_with(back), hex);
    halves.update(back);
    expect_hex(rt, &halves.finalize(), hex);
}

// RFC 4231, section 4.2.
#[test]
fn hmac_sha512_case_1(rt: HostRuntime) {
    expect_hmac(
        &rt,
        &[0x0B; 20],
        b"Hi There",
        "87aa7cdea5ef619d4ff0b4241a1d6cb02379f4e2ce4ec2787ad0b30545e17cdedaa833b7d6b8a702038b274eaea3f4e4be9d914eeb61f1702e696c203a126854",
    );
}

// RFC 4231, sections 4.3 to 4.8, of which case 5 prints the first 16 bytes alone. Each was computed again by
// python3 -c 'import hmac; print(hmac.new(KEY, TEXT, "sha512").hexdigest())'
#[test]
fn hmac_sha512_cases_2_to_7(rt: HostRuntime) {
    let cases: [(&[u8], &[u8], &str); 6] = [
        (
            b"Jefe",
            b"what do ya want for nothing?",
            "164b7a7bfcf819e2e395fbe73b56e0a387bd64222e831fd610270cd7ea2505549758bf75c05a994a6d034f65f8f0e6fdcaeab1a34d4a6b4b636e070a38bce737",
        ),
        (
            &[0xAA; 20],
            &[0xDD; 50],
            "fa73b0089d56a284efb0f0756c890be9b1b5dbdd8ee81a3655f83e33b2279d39bf3e848279a722c806b485a47e67c807b946a337bee8942674278859e13292fb",
        ),
        (
            &[
                1, 2, 3, 4, 5, 6, 7, 8, 9, 10, 11, 12, 13, 14, 15, 16, 17, 18, 19, 20, 21, 22, 23,
                24, 25,
            ],
            &[0xCD; 50],
            "b0ba465637458c6990e5a8c5f61d4af7e576d97ff94b872de76f8050361ee3dba91ca5c11aa25eb4d679275cc5788063a5f19741120c4f2de2adebeb10a298dd",
        ),
        (
            &[0x0C; 20],
            b"Test With Truncation",
            "415fad6271580a531d4179bc891d87a650188707922a4fbb36663a1eb16da008711c5b50ddd0fc235084eb9d3364a1454fb2ef67cd1d29fe6773068ea266e96b",
        ),
        (
            &[0xAA; 131],
            b"Test Using Larger Than Block-Size Key - Hash Key First",
            "80b24263c7c1a3ebb71493c1dd7be8b49b46d1f41b4aeec1121b013783f8f3526b56d037e05f2598bd0fd2215d6a1e5295e64f73f63f0aec8b915a985d786598",
        ),
        (
            &[0xAA; 131],
            b"This is a test using a larger than block-size key and a larger than block-size data. The key needs to be hashed before being used by the HMAC algorithm.",
            "e37b6a775dc87dbaa4dfa9f96e5e3ffddebd71f8867289865df5a32d20cdc944b6022cac3c4982b10d5eeb55c3e4de15134676fb6de0446065c97440fa8c6a58",
        ),
    ];
    for (key, text, hex) in cases {
        expect_hmac(&rt, key, text, hex);
    }
}

// The longest key that stays as it is, and the shortest that is hashed. Computed by
// printf 'Hi There' | openssl mac -digest SHA512 -macopt hexkey:$(printf 'aa%.0s' $(seq 128)) -in - HMAC
// and the same with 129.
#[test]
fn keys_of_about_a_block(rt: HostRuntime) {
    expect_hmac(
        &rt,
        &[0xAA; 128],
        b"Hi There",
        "17eb09b3d3c0f3ac497c608347e1d5b5df5e4b062bfd56c191c8499f24a3a9d1c3dfb449d01f4c9ca316b6b8d6a6299bad883d0bffe11c88c60d7daed6feeb48",
    );
    expect_hmac(
        &rt,
        &[0xAA; 129],
        b"Hi There",
        "da329f7dbde1631286451a0404a7cc75656497f5fc8ecc2ed1c384e3a83685243bf1792cc06c745a466f50c04c99cc5a7fbe1a67e4bbdcf922f1ee4108b3e328",
    );
}

// Computed by openssl kdf -keylen 64 -kdfopt mac:HMAC -kdfopt digest:SHA512 -kdfopt mode:COUNTER
//     -kdfopt hexkey:000102030405060708090a0b0c0d0e0f -kdfopt salt:sntp-ms -kdfopt hexinfo:4f040000 KBKDF
// and the same with hexinfo:ffffffff.
#[test]
fn derives_as_openssl_does(rt: HostRuntime) {
    expect_hex(
        &rt,
        &derive(&KEY, b"sntp-ms", &[0x4F, 0x04, 0x00, 0x00]),
        "fac2bcab4104140cbec29d47ca6c6060dd73391fc9614b15b28117ee463f24e6b4d565ce28b963de9333142e389efb5badf7a99a1796485baec829965ac00cdc",
    );
    expect_hex(
        &rt,
        &derive(&KEY, b"sntp-ms", &[0xFF; 4]),
        "a8c27d103a962860975578dd74ba4082dfecdce7be31bbf94335463e361c179e3d77eaf3bb1084592fcd47a3f49b99f0165a8cf9045acf0fb2d052ab6396c368",
    );
}
