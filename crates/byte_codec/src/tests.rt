//! Each generic helper at one type, and numbers whose bytes differ.
use super::*;
use arrayvec::ArrayVec;

#[test]
fn numbers_in_both_orders(rt: HostRuntime) {
    let mut bytes: ArrayVec<u8, 32> = ArrayVec::new();
    add(&mut bytes, &[0xA5, 1]);
    add_u16(&mut bytes, 0x0203);
    add_u32(&mut bytes, 0x0405_0607);
    add_u64(&mut bytes, 0x0809_0A0B_0C0D_0E0F);
    add_u16_low_first(&mut bytes, 0x1110);
    add_u32_low_first(&mut bytes, 0x1514_1312);
    add_u64_low_first(&mut bytes, 0x1D1C_1B1A_1918_1716);
    assert_eq!(rt;
        bytes.as_slice(),
        b"\xA5\x01\x02\x03\x04\x05\x06\x07\x08\x09\x0A\x0B\x0C\x0D\x0E\x0F\x10\x11\x12\x13\x14\x15\x16\x17\x18\x19\x1A\x1B\x1C\x1D".as_slice()
    );

    let (front, rest) = read_array::<2>(bytes.as_slice());
    assert_eq!(rt; front, [0xA5, 1]);
    let (half_word, rest) = read_u16(rest);
    assert_eq!(rt; half_word, 0x0203);
    let (word, rest) = read_u32(rest);
    assert_eq!(rt; word, 0x0405_0607);
    let (double_word, rest) = read_u64(rest);
    assert_eq!(rt; double_word, 0x0809_0A0B_0C0D_0E0F);
    let (half_word, rest) = read_u16_low_first(rest);
    assert_eq!(rt; half_word, 0x1110);
    let (word, rest) = read_u32_low_first(rest);
    assert_eq!(rt; word, 0x1514_1312);
    let (double_word, rest) = read_u64_low_first(rest);
    assert_eq!(rt; double_word, 0x1D1C_1B1A_1918_1716);
    assert!(rt; rest.is_empty());
}
