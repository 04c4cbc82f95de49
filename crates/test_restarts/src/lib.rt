//! Runs of `/member` that follow one another on one disk. Tests alone: nothing here is shipped.
//!
//! `stops.rt` has a run of 130 turns over a disk that stops at each of its calls in turn: how it ends, what it sent, and for
//! which marks the images stand that a crash may leave; a second run on each of these images; and the two captures, joined
//! and replayed. `replies.rt` has a reply to the first of two runs that comes to the second.
//!
//! It stands on `w32tm_cmd`, and on `test_scripts`, which makes the devices.
#![tactic(auto)]

#[cfg(test)]
mod asserts;
#[cfg(test)]
mod replies;
#[cfg(test)]
mod stops;
