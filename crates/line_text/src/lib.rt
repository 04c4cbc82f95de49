//! Lines of ASCII: texts that are held whole, and texts that are written piece by piece, both without memory.
//!
//! A [`Line`] is written from its pieces, which are texts, decimal numbers and bytes in hexadecimal digits. It has a
//! capacity, and each call that adds a piece asks for the room of it. A [`LineText`] holds a whole line of at most 96
//! bytes, as the status line or a line of a report; a [`LongLine`] is one of a command's output.
//!
//! It stands on `arrayvec` and `byte_codec` for the bytes and on `itoa` and `hex` for the digits. The layer above sees
//! both types as lists of bytes, and may rely on what each call adds to that list, and on every byte being ASCII.
//!
//! `specs/Line.antt` says which lists of bytes a line can hold, and `specs/Text.antt` what stands of a text in lines
//! that breaks off. What a number adds is `itoa`'s word for its text, the standard library's `decimal` or
//! `signed_decimal`; what bytes add is the `encode_lower` of `hex`.
#![tactic(auto)]

mod line;
mod line_text;
#[cfg(test)]
mod tests;

pub use line::{Line, LongLine};
pub use line_text::{LINE_LIMIT, LineText};
