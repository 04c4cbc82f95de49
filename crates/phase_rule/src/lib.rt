//! Which correction of the clock is allowed, and how the polling interval moves after one.
//!
//! An offset is worked off slowly (a slew), set at once (a step), or refused (too big), as the limits of
//! the settings say. After an accepted offset the poll exponent rises while the clock is steady, and falls
//! back to its least value where it isn't.
//!
//! The crate stands on nothing, reads no clock and has no errors. The layer above may rely on the two
//! functions being the definitions `judged` and `next_poll` of `specs/Rule.antt`, which speak of seconds
//! and ticks of 100 ns as integers.
#![tactic(auto)]

mod limits;
mod rule;
#[cfg(test)]
mod tests;

pub use limits::{Limits, NO_LIMIT};
pub use rule::{Judged, judge, next_poll};
