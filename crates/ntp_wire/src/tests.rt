//! Worked values, computed outside.
use super::*;

/// The first moment of 1970.
const UNIX_EPOCH: i64 = 116_444_736_000_000_000;

/// The moment at which the seconds of a timestamp begin again at 0.
const NEXT_ERA: i64 = 137_304_520_960_000_000;

#[test]
fn unix_epoch_stamp(rt: HostRuntime) {
    let stamp = to_ntp(UNIX_EPOCH);
    assert_eq!(rt; stamp.seconds, 0x83AA_7E80);
    assert_eq!(rt; stamp.fraction, 0);
}

#[test]
fn fractions_round_up_and_back(rt: HostRuntime) {
    let least = to_ntp(UNIX_EPOCH + 1);
    assert_eq!(rt; least.fraction, 0x0000_01AE);
    assert_eq!(rt; to_ticks(least, UNIX_EPOCH), UNIX_EPOCH + 1);

    let greatest = to_ntp(UNIX_EPOCH + 9_999_999);
    assert_eq!(rt; greatest.fraction, 0xFFFF_FE53);
    assert_eq!(rt; to_ticks(greatest, UNIX_EPOCH), UNIX_EPOCH + 9_999_999);
}

#[test]
fn eras_near_a_reading(rt: HostRuntime) {
    let zero = to_ntp(NEXT_ERA);
    assert_eq!(rt;
        zero,
        Stamp {
            seconds: 0,
            fraction: 0
        }
    );
    assert_eq!(rt; to_ticks(zero, 137_304_520_959_999_999), NEXT_ERA);
    assert_eq!(rt; to_ticks(zero, 158_779_357_440_000_000), NEXT_ERA);
    assert_eq!(rt;
        to_ticks(zero, 158_779_357_440_000_001),
        180_254_193_920_000_000
    );

    let last = Stamp {
        seconds: 0xFFFF_FFFF,
        fraction: 0,
    };
    assert_eq!(rt; to_ticks(last, NEXT_ERA), 137_304_520_950_000_000);
}

#[test]
fn headers_read_and_written(rt: HostRuntime) {
    let all = Stamp {
        seconds: u32::MAX,
        fraction: u32::MAX,
    };
    let greatest = Header {
        leap: 3,
        version: 7,
        mode: 7,
        stratum: 255,
        poll: 127,
        precision: 127,
        root_delay: i32::MAX,
        root_dispersion: u32::MAX,
        reference_id: [255; 4],
        reference: all,
        originate: all,
        receive: all,
        transmit: all,
    };
    let negative = Header {
        leap: 1,
        version: 2,
        mode: 5,
        stratum: 128,
        poll: -1,
        precision: -23,
        root_delay: -1,
        root_dispersion: 1,
        reference_id: *b"LOCL",
        reference: Stamp {
            seconds: 1,
            fraction: 2,
        },
        originate: Stamp {
            seconds: 3,
            fraction: 4,
        },
        receive: Stamp {
            seconds: 5,
            fraction: 6,
        },
        transmit: Stamp {
            seconds: 7,
            fraction: 8,
        },
    };
    let least = Header {
        leap: 2,
        version: 4,
        mode: 1,
        stratum: 1,
        poll: -128,
        precision: -128,
        root_delay: i32::MIN,
        root_dispersion: 0x8000_0000,
        reference_id: [1, 2, 3, 4],
        reference: Stamp {
            seconds: 0x83AA_7E80,
            fraction: 0x0000_01AE,
        },
        originate: Stamp {
            seconds: 0x8000_0000,
            fraction: 0x7FFF_FFFF,
        },
        receive: Stamp {
            seconds: 0x0102_0304,
            fraction: 0x0506_0708,
        },
        transmit: Stamp {
            seconds: 0xFFFF_FE53,
            fraction: 0x0000_01AE,
        },
    };
    let cases = [
        (
            greatest,
            *b"\xFF\xFF\x7F\x7F\x7F\xFF\xFF\xFF\xFF\xFF\xFF\xFF\xFF\xFF\xFF\xFF\xFF\xFF\xFF\xFF\xFF\xFF\xFF\xFF\xFF\xFF\xFF\xFF\xFF\xFF\xFF\xFF\xFF\xFF\xFF\xFF\xFF\xFF\xFF\xFF\xFF\xFF\xFF\xFF\xFF\xFF\xFF\xFF",
        ),
        (
            negative,
            *b"\x55\x80\xFF\xE9\xFF\xFF\xFF\xFF\0\0\0\x01LOCL\0\0\0\x01\0\0\0\x02\0\0\0\x03\0\0\0\x04\0\0\0\x05\0\0\0\x06\0\0\0\x07\0\0\0\x08",
        ),
        (
            least,
            *b"\xA1\x01\x80\x80\x80\0\0\0\x80\0\0\0\x01\x02\x03\x04\x83\xAA\x7E\x80\0\0\x01\xAE\x80\0\0\0\x7F\xFF\xFF\xFF\x01\x02\x03\x04\x05\x06\x07\x08\xFF\xFF\xFE\x53\0\0\x01\xAE",
        ),
    ];
    for (header, bytes) in cases {
        let mut out = [0; HEADER_LEN];
        write_header(&header, &mut out);
        assert_eq!(rt; out, bytes);
        assert_eq!(rt; read_header(&bytes), Ok(header));
        assert_eq!(rt; read_header(&bytes[..47]), Err(HeaderFault::Short));
    }
}

// T1 is the first moment of 2020, and T4 is where the member is when the reply arrives.
#[test]
fn offset_and_delay(rt: HostRuntime) {
    const T1: i64 = 132_223_104_000_000_000;
    const T2: i64 = T1 + 30_000_000;
    const T3: i64 = T2 + 10_000;
    const T4: i64 = T1 + 2_010_000;
    assert_eq!(rt; to_ticks(to_ntp(T2), T4), T2);
    assert_eq!(rt; to_ticks(to_ntp(T3), T4), T3);
    assert_eq!(rt; ((T2 - T1) + (T3 - T4)) / 2, 29_000_000);
    assert_eq!(rt; (T4 - T1) - (T3 - T2), 2_000_000);
}
