//! The parts of texts and words: lines, numbers in decimal, keys in hexadecimal digits, names and addresses.
//!
//! Each part has its definition apart from the code, and each reader's contract says both directions: what it
//! reads is spelled so, and whatever is spelled so is read. The lines of a text are `lines` of std; a number
//! has one spelling, `decimal` of std; a key is what `decode_of` of the crate `hex` makes of its digits, which
//! may be in either case. Names are in `specs/Name.antt`, addresses and ports in `specs/Address.antt`; a text spells
//! one name, one address and one port at most. `specs/Bytes.antt` and `specs/Decimal.antt` have words for what doesn't
//! stand in a text, and for how a number begins.
//!
//! Texts of lines have one form of definition, in `specs/Lines.antt`: a `TextForm` says which lines are looked
//! at, what each of these may say, and which two sayings don't stand in one text. The lines of a text `Say`
//! values, or there is a first bad line, which `IsFirstBad` names beside what the lines before it say.
//!
//! It stands on std and `hex` alone. The layers above read line by line with [`next_line`] and cut lines at
//! their blanks and colons, which no number, key, name or address has in it. For their proofs, `proofs/Progress.antt`
//! has the steps of a loop over lines and that no text is without a verdict, `proofs/Forms.antt` that one verdict is true
//! of it, and `Cuts.antt`, `Decimals.antt`, `Keys.antt`, `Naming.antt` and `Dotted.antt` what stands in a line's parts.
#![tactic(auto)]

mod addresses;
mod lines;
mod names;
#[cfg(test)]
mod tests;
mod words;

pub use addresses::{read_address, read_port, read_socket_address};
pub use lines::{cut, is_skipped, next_line};
pub use names::{NAME_LEN, is_name};
pub use words::{read_decimal, read_key};
