//! Reading parts from the front of a slice.
ghost use Rattle.std.specs.Prelude.{◌≡◌, ◌+◌, ◌≤◌, ◌++◌, length};
ghost use Rattle.byte_codec.specs.Numbers.{double_word_bytes, half_word_bytes, low_double_word_bytes, low_half_word_bytes, low_word_bytes, word_bytes};

/// The first `N` bytes, and what stands behind them.
pub fn read_array<const N: usize>(bytes: &[u8]) -> ([u8; N], &[u8])
    requires { N ≤ length bytes.now }
    ensures bytes { bytes.now ≡ result.0 ++ result.1.now }
    ensures rest { length result.1.now + N ≡ length bytes.now }
{
    match bytes.split_first_chunk() {
        Some((front, rest)) => (*front, rest),
        None => unreachable!(),
    }
}

/// The number in the first 2 bytes, the most significant first, and what stands behind them.
#[tactic(auto, unfolding(crate::specs::Numbers::number_bytes))]
pub fn read_u16(bytes: &[u8]) -> (u16, &[u8])
    requires { 2 ≤ length bytes.now }
    ensures bytes { bytes.now ≡ half_word_bytes result.0 ++ result.1.now }
    ensures rest { length result.1.now + 2 ≡ length bytes.now }
{
    let (number, rest) = read_array(bytes);
    (u16::from_be_bytes(number), rest)
}

/// The number in the first 4 bytes, the most significant first, and what stands behind them.
#[tactic(auto, unfolding(crate::specs::Numbers::number_bytes))]
pub fn read_u32(bytes: &[u8]) -> (u32, &[u8])
    requires { 4 ≤ length bytes.now }
    ensures bytes { bytes.now ≡ word_bytes result.0 ++ result.1.now }
    ensures rest { length result.1.now + 4 ≡ length bytes.now }
{
    let (number, rest) = read_array(bytes);
    (u32::from_be_bytes(number), rest)
}

/// The number in the first 8 bytes, the most significant first, and what stands behind them.
#[tactic(auto, unfolding(crate::specs::Numbers::number_bytes))]
pub fn read_u64(bytes: &[u8]) -> (u64, &[u8])
    requires { 8 ≤ length bytes.now }
    ensures bytes { bytes.now ≡ double_word_bytes result.0 ++ result.1.now }
    ensures rest { length result.1.now + 8 ≡ length bytes.now }
{
    let (number, rest) = read_array(bytes);
    (u64::from_be_bytes(number), rest)
}

/// The number in the first 2 bytes, the least significant first, and what stands behind them.
#[tactic(auto, unfolding(crate::specs::Numbers::low_number_bytes, crate::specs::Numbers::number_bytes))]
pub fn read_u16_low_first(bytes: &[u8]) -> (u16, &[u8])
    requires { 2 ≤ length bytes.now }
    ensures bytes { bytes.now ≡ low_half_word_bytes result.0 ++ result.1.now }
    ensures rest { length result.1.now + 2 ≡ length bytes.now }
{
    let (number, rest) = read_array(bytes);
    (u16::from_le_bytes(number), rest)
}

/// The number in the first 4 bytes, the least significant first, and what stands behind them.
#[tactic(auto, unfolding(crate::specs::Numbers::low_number_bytes, crate::specs::Numbers::number_bytes))]
pub fn read_u32_low_first(bytes: &[u8]) -> (u32, &[u8])
    requires { 4 ≤ length bytes.now }
    ensures bytes { bytes.now ≡ low_word_bytes result.0 ++ result.1.now }
    ensures rest { length result.1.now + 4 ≡ length bytes.now }
{
    let (number, rest) = read_array(bytes);
    (u32::from_le_bytes(number), rest)
}

/// The number in the first 8 bytes, the least significant first, and what stands behind them.
#[tactic(auto, unfolding(crate::specs::Numbers::low_number_bytes, crate::specs::Numbers::number_bytes))]
pub fn read_u64_low_first(bytes: &[u8]) -> (u64, &[u8])
    requires { 8 ≤ length bytes.now }
    ensures bytes { bytes.now ≡ low_double_word_bytes result.0 ++ result.1.now }
    ensures rest { length result.1.now + 8 ≡ length bytes.now }
{
    let (number, rest) = read_array(bytes);
    (u64::from_le_bytes(number), rest)
}
