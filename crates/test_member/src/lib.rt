//! Runs of `/member` over devices in memory. Tests alone: nothing here is shipped.
//!
//! `runs.rt` has a run of twenty turns with its lines, its capture, its sends and its one correction, and the capture
//! replayed; the same where each call of each device fails in turn; keepers of another version and at their last mark;
//! and two runs on one disk. `hostile.rt` has runs of 257 turns, each of which gets a datagram that is refused, and
//! `steps.rt` a run whose clock is stepped.
//!
//! It stands on `w32tm_cmd`, and on `test_scripts`, which makes the devices and has capture and report of that run.
#![tactic(auto)]

#[cfg(test)]
mod asserts;
#[cfg(test)]
mod hostile;
#[cfg(test)]
mod runs;
#[cfg(test)]
mod steps;
