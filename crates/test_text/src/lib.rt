//! The texts of the program, as tables. Tests alone: nothing here is shipped.
//!
//! - `options.rt`: words that spell a command with its options, and `refused.rt`: words that spell none.
//! - `texts.rt`: what `/sign` and `/show` take from their words, the lines of a message and of `/dc`, and the codes and lines
//!   of statuses.
//! - `calls.rt`: the lines of `/resync` and `/query`.
//! - `members.rt`: what a member is set to by settings.
//!
//! It stands on `w32tm_text`. The expected texts are those of `docs/PROTOCOL.md`.
#![tactic(auto)]

#[cfg(test)]
mod calls;
#[cfg(test)]
mod members;
#[cfg(test)]
mod options;
#[cfg(test)]
mod refused;
#[cfg(test)]
mod texts;
