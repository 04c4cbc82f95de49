//! The settings that a source gives.
//!
//! [`settings_from`] reads a text to its end, or to the byte behind the longest that settings have, and then the
//! settings that it says. So a text is judged as a whole, and a read that fails on the way is a failed read whatever
//! the lines before it say.
//!
//! It stands on `edge_traits` for the source and on `w32t_settings` for the text. The layer above may rely on
//! `ReadsConfig` in `specs/Reading.antt`: what was taken of the source, and what each answer says of it.
#![tactic(auto)]

mod read;
#[cfg(test)]
mod tests;

pub use read::{ConfigFault, settings_from};
