//! Writing parts at the end of a vector of fixed capacity.
ghost use Rattle.std.specs.Prelude.{◌≡◌, ◌+◌, ◌≤◌, ◌++◌, length};
ghost use Rattle.arrayvec.specs.ArrayVec.{array_vec_len};
ghost use Rattle.byte_codec.specs.Numbers.{double_word_bytes, half_word_bytes, low_double_word_bytes, low_half_word_bytes, low_word_bytes, word_bytes};

use arrayvec::ArrayVec;

/// Adds the bytes of a part, for which there must be room.
pub fn add<const CAP: usize>(bytes: &mut ArrayVec<u8, CAP>, part: &[u8])
    requires { array_vec_len bytes.old + length part.now ≤ CAP }
    ensures items { bytes.new.items ≡ bytes.old.items ++ part.now }
    ensures length { array_vec_len bytes.new ≡ array_vec_len bytes.old + length part.now }
{
    let _ = bytes.try_extend_from_slice(part);
}

/// Adds a number in 2 bytes, the most significant first.
#[tactic(auto, unfolding(crate::specs::Numbers::number_bytes))]
pub fn add_u16<const CAP: usize>(bytes: &mut ArrayVec<u8, CAP>, number: u16)
    requires { array_vec_len bytes.old + 2 ≤ CAP }
    ensures items { bytes.new.items ≡ bytes.old.items ++ half_word_bytes number }
    ensures length { array_vec_len bytes.new ≡ array_vec_len bytes.old + 2 }
{
    add(bytes, &number.to_be_bytes());
}

/// Adds a number in 4 bytes, the most significant first.
#[tactic(auto, unfolding(crate::specs::Numbers::number_bytes))]
pub fn add_u32<const CAP: usize>(bytes: &mut ArrayVec<u8, CAP>, number: u32)
    requires { array_vec_len bytes.old + 4 ≤ CAP }
    ensures items { bytes.new.items ≡ bytes.old.items ++ word_bytes number }
    ensures length { array_vec_len bytes.new ≡ array_vec_len bytes.old + 4 }
{
    add(bytes, &number.to_be_bytes());
}

/// Adds a number in 8 bytes, the most significant first.
#[tactic(auto, unfolding(crate::specs::Numbers::number_bytes))]
pub fn add_u64<const CAP: usize>(bytes: &mut ArrayVec<u8, CAP>, number: u64)
    requires { array_vec_len bytes.old + 8 ≤ CAP }
    ensures items { bytes.new.items ≡ bytes.old.items ++ double_word_bytes number }
    ensures length { array_vec_len bytes.new ≡ array_vec_len bytes.old + 8 }
{
    add(bytes, &number.to_be_bytes());
}

/// Adds a number in 2 bytes, the least significant first.
#[tactic(auto, unfolding(crate::specs::Numbers::low_number_bytes, crate::specs::Numbers::number_bytes))]
pub fn add_u16_low_first<const CAP: usize>(bytes: &mut ArrayVec<u8, CAP>, number: u16)
    requires { array_vec_len bytes.old + 2 ≤ CAP }
    ensures items { bytes.new.items ≡ bytes.old.items ++ low_half_word_bytes number }
    ensures length { array_vec_len bytes.new ≡ array_vec_len bytes.old + 2 }
{
    add(bytes, &number.to_le_bytes());
}

/// Adds a number in 4 bytes, the least significant first.
#[tactic(auto, unfolding(crate::specs::Numbers::low_number_bytes, crate::specs::Numbers::number_bytes))]
pub fn add_u32_low_first<const CAP: usize>(bytes: &mut ArrayVec<u8, CAP>, number: u32)
    requires { array_vec_len bytes.old + 4 ≤ CAP }
    ensures items { bytes.new.items ≡ bytes.old.items ++ low_word_bytes number }
    ensures length { array_vec_len bytes.new ≡ array_vec_len bytes.old + 4 }
{
    add(bytes, &number.to_le_bytes());
}

/// Adds a number in 8 bytes, the least significant first.
#[tactic(auto, unfolding(crate::specs::Numbers::low_number_bytes, crate::specs::Numbers::number_bytes))]
pub fn add_u64_low_first<const CAP: usize>(bytes: &mut ArrayVec<u8, CAP>, number: u64)
    requires { array_vec_len bytes.old + 8 ≤ CAP }
    ensures items { bytes.new.items ≡ bytes.old.items ++ low_double_word_bytes number }
    ensures length { array_vec_len bytes.new ≡ array_vec_len bytes.old + 8 }
{
    add(bytes, &number.to_le_bytes());
}
