//! Runs of `/monitor` over devices in memory. Tests alone: nothing here is shipped.
//!
//! `runs.rt` has a directory of two computers and one of none, and runs where one call of one device fails.
//!
//! It stands on `w32tm_cmd`, and on `test_scripts`, which makes the devices. What is expected was worked out from the
//! rules of offset, delay and line.
#![tactic(auto)]

#[cfg(test)]
mod runs;
