//! What the codecs of all messages and records share: parts of fixed length, read from the front of a slice and written at
//! the end of a vector of fixed capacity. No memory is taken.
//!
//! It stands on `arrayvec` alone. A reader gives a part and what stands behind it, and says that both together are what was
//! read; a writer says that the part was added and nothing else changed. So the layer above gets the bytes of a whole record
//! as the list of its parts, joined, whether it reads or writes them.
//!
//! `specs/Numbers.antt` says what the bytes of a number are, in both orders, and what number stands at a place.
//! `proofs/Numbers.antt` shows that a number has one spelling and no other number has it, and `proofs/Parts.antt` carries
//! parts through the reading and the writing of a whole.
#![tactic(auto)]

mod read;
#[cfg(test)]
mod tests;
mod write;

pub use read::{
    read_array, read_u16, read_u16_low_first, read_u32, read_u32_low_first, read_u64,
    read_u64_low_first,
};
pub use write::{
    add, add_u16, add_u16_low_first, add_u32, add_u32_low_first, add_u64, add_u64_low_first,
};
