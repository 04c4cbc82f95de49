//! Runs of `/simulate` over devices in memory. Tests alone: nothing here is shipped.
//!
//! `runs.rt` has whole runs with their summaries and captures, a replay of one, replays of one that comes in pieces, and runs
//! where one call of one device fails.
//! The summaries and the checksums of the captures come from a program in Python that was written from the rules of the
//! world, and from nothing here.
//!
//! It stands on `w32tm_cmd`, and on `test_scripts`, which makes the devices.
#![tactic(auto)]

#[cfg(test)]
mod runs;
